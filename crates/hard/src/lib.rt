// Hard correction (rules 5.5, 5.6, 5.10 and 5.11), by the table of error patterns: finding a word's pattern, applying a pattern, and both in one.
// Each call answers for every input, and its promise decides the whole answer.
#![tactic(auto)]

ghost use Rattle.std.specs.Prelude.{◌≡◌};
ghost use Rattle.hard.specs.Answers.{find_answer, apply_answer, correct_answer};
ghost use Rattle.hard.specs.Calls.{Finds, apply_rule, Corrects};

pub mod kinds;

use golay::WORDS;
use golay::kinds::{Codeword, Refusal};
use kinds::{Corrected, Found, Pattern};

// The error pattern of a word's syndrome and the word's distance from the code, 0 to 4. Refuses 4.
pub fn find(word: u32) -> Result<Found, Refusal>
    ensures { Finds word (find_answer result) }
{
    let syndrome = golay::syndrome(word)?;
    let entry = lookup::entry(syndrome.0);
    Ok(Found {
        pattern: Pattern(patterns::spread(entry)),
        distance: patterns::held(entry),
    })
}

// The exclusive or of a word and a pattern. Refuses 4 for either.
#[tactic(auto, unfolding(crate::specs::Calls::apply_rule))]
pub fn apply(word: u32, pattern: Pattern) -> Result<u32, Refusal>
    ensures { apply_answer result ≡ apply_rule word pattern.0 }
{
    let error = pattern.0;
    if word >= WORDS {
        return Err(Refusal::WordAbove);
    }
    if error >= WORDS {
        return Err(Refusal::WordAbove);
    }
    Ok(word ^ error)
}

// The codeword nearest to a word and its distance, 0 to 3. Refuses 4, then 7.
pub fn correct(word: u32) -> Result<Corrected, Refusal>
    ensures { Corrects word (correct_answer result) }
{
    let Found { pattern, distance } = find(word)?;
    if distance == 4 {
        return Err(Refusal::DistanceFour);
    }
    let codeword = Codeword(apply(word, pattern)?);
    Ok(Corrected { codeword, distance })
}
