// The signs of a reading as a word, its zeros as another, and what an error costs by it (rules 9.2 and 9.4). Of a slice that is no reading all
// three are 0.
#![tactic(auto)]

ghost use Rattle.std.specs.Prelude.{◌≡◌, ◌*◌, ◌/◌, ◌%◌, ◌-◌, ◌^◌, ◌<◌, ◌≤◌, ◌||◌, Bool, not, ℤ, nat_abs};
ghost use Rattle.code.specs.Code.{positions, words};
ghost use Rattle.reading.specs.Checks.{is_most_negative};
ghost use Rattle.signs.specs.Tests.{Computes};
ghost use Rattle.signs.specs.Signs.{marked, whole, sign_word};
ghost use Rattle.signs.specs.Fillings.{is_zero, zero_word, Clear};
ghost use Rattle.signs.specs.Signs as rule;

use golay::POSITIONS;

// How far the first position stands from the last.
const LAST: usize = POSITIONS - 1;

// The word with a one at each confidence for which a test holds, position 1 first.
// Stays: what could not fail still cannot: of a slice that is no reading `whole` makes one without confidences, here and in `cost`.
fn marked<F: Fn(i32) -> bool>(reading: &[i32], test: F) -> u32
    requires { F.IsAlwaysCallable test }
    ensures value { (t : ℤ → Bool) → Computes (F.post test) t → result ≡ marked t (whole positions reading.now) }
    ensures short { result < words }
{
    if reading.len() != POSITIONS {
        return 0;
    }
    let mut word: u32 = 0;
    for x in reading {
        word = 2 * word + u32::from(test(*x));
    }
    word
}

// The signs as a word, position 1 first.
// Stays: `result < words` here, of the zeros and of `marked`: a type for words would be no plainer, as each caller takes the number out of it.
pub fn sign_word(reading: &[i32]) -> u32
    ensures { (result ≡ sign_word (whole positions reading.now)) × (result < words) }
{
    marked(reading, |x| x < 0)
}

// The zeros as a word, position 1 first.
pub fn zero_word(reading: &[i32]) -> u32
    ensures { (result ≡ zero_word (whole positions reading.now)) × (result < words) }
{
    marked(reading, |x| x == 0)
}

// Whether a confidence has a sign and is not the most negative number.
fn has_sign(x: i32) -> bool
    ensures { result ≡ not (is_most_negative x || is_zero x) }
{
    x != i32::MIN && x != 0
}

// Whether each confidence has a sign and none is the most negative number: one test for both, since most readings pass it.
pub fn clear(reading: &[i32]) -> bool
    ensures { Clear reading.now result }
{
    reading.iter().all(|x| has_sign(*x))
}

// The size of the confidence at i where the error has a one there, else 0.
fn at_stake(error: u32, i: usize, x: i32) -> u64
    requires { i < positions }
    ensures { (result ≡ error / 2 ^ (positions - 1 - i) % 2 * nat_abs x) × (result ≤ 2147483648) }
{
    let shift = LAST - i;
    if (error >> shift) % 2 == 1 {
        u64::from(x.unsigned_abs())
    } else {
        0
    }
}

// What an error costs.
pub fn cost(error: u32, reading: &[i32]) -> u64
    ensures { (result ≡ rule.cost error (whole positions reading.now)) × (result ≤ 51539607552) }
{
    if reading.len() != POSITIONS {
        return 0;
    }
    let mut sum: u64 = 0;
    for (i, x) in reading.iter().enumerate() {
        sum += at_stake(error, i, *x);
    }
    sum
}
