// Source document 003's rule for one word: corrected; at distance four the candidate that costs least by the reading.
#![tactic(auto)]

ghost use Rattle.std.specs.Prelude.{◌≡◌, ◌%◌, ◌<◌, pos, neg_ℤ};
ghost use Rattle.signed.specs.Within.{Within};
ghost use Rattle.contest.specs.Largest.{Best};
ghost use Rattle.code.specs.Code.{positions, words, syndrome_of};
ghost use Rattle.candidates.specs.Candidates.{AtFour};
ghost use Rattle.signs.specs.Signs.{cost, whole};
ghost use Rattle.decision.specs.Decision.{decision_answer, merits, Chosen, Decides, Gives};

use contest::Keeper;
use golay::WORDS;
use golay::kinds::Codeword;

// A cost, negated: the cheapest has the largest.
fn merit(error: u32, reading: &[i32]) -> i64
    ensures value { result ≡ neg_ℤ (pos (cost error (whole positions reading.now))) }
    ensures within { Within 51539607552 result }
{
    -(signs::cost(error, reading) as i64)
}

// The two largest merits of six candidates, and where the largest is.
fn cheapest(word: u32, slots: &[u32; 6], reading: &[i32]) -> Keeper
    ensures { Best (merits word (whole positions reading.now) slots.now) 0 6 result.best result.second result.at }
{
    let mut kept = Keeper::first(merit(word ^ slots[0], reading), 0);
    for i in 1..6u32 {
        kept = kept.take(merit(word ^ slots[i as usize], reading), i);
    }
    kept
}

// The candidate that costs least, for a word that correction refuses; none where two share the least cost. It is long, and few words come to it:
// put into `decide`, it would slow down all the others.
#[inline(never)]
fn chosen(word: u32, reading: &[i32]) -> Option<Codeword>
    requires { AtFour word (syndrome_of word) }
    ensures { Chosen word (whole positions reading.now) (decision_answer result) }
{
    let mut slots = [0; 6];
    candidates::candidates(word, &mut slots).unwrap();
    let Keeper { best, second, at } = cheapest(word, &slots, reading);
    if best <= second {
        return None;
    }
    Some(Codeword(slots[at as usize]))
}

// What a word is decided for, by a reading, or none where it is tied. Of a number that is no word the lowest 24 bits count, and by a slice that
// is no reading nothing costs anything.
// Stays: word and reading are two parameters: of one reading with zeros up to 16 words are asked, and a struct would be made for each.
pub fn decide(word: u32, reading: &[i32]) -> Option<Codeword>
    ensures { Decides (word % words) (whole positions reading.now) (decision_answer result) }
{
    let w = word % WORDS;
    match hard::correct(w) {
        Ok(corrected) => Some(corrected.codeword),
        Err(_) => chosen(w, reading),
    }
}

// Whether a word is decided for a codeword.
pub fn gives(codeword: Codeword, word: u32, reading: &[i32]) -> bool
    ensures { Gives codeword.0 (word % words) (whole positions reading.now) result }
{
    decide(word, reading) == Some(codeword)
}
