// The quick decoder, there to be compared with: what the fillings of a reading are decided for. The soft decoder may answer otherwise (rule 9.6).
#![tactic(auto)]

ghost use Rattle.code.specs.Code.{positions};
ghost use Rattle.signs.specs.Signs.{whole};
ghost use Rattle.quick.specs.Quick.{quick_answer, Settles, QuickRule, Highest, AllGive};

use golay::POSITIONS;
use golay::kinds::{Codeword, Refusal};

// Whether every filling is decided for a codeword, given the least one, the places of the zeros, and that the highest, which has a 1 at each of
// them, is. The others follow in descending order: one less, of which the bits at the places are kept, is the next lower subset of them.
fn all_give(codeword: Codeword, least: u32, places: u32, reading: &[i32]) -> bool
    requires { Highest codeword.0 least places (whole positions reading.now) }
    ensures { AllGive codeword.0 (whole positions reading.now) result }
{
    let mut ones = places;
    // Stays: the loop counts no index: each turn's subset is made from the last one, so no range has them, and `iter::successors` tells of no end.
    while ones > 0 {
        ones = (ones - 1) & places;
        if !decision::gives(codeword, least + ones, reading) {
            return false;
        }
    }
    true
}

// What the fillings of a reading with zeros are decided for. The least of them, the word of signs, has a 0 at each zero. Refuses 14.
fn fillings(reading: &[i32]) -> Result<Codeword, Refusal>
    ensures { Settles (whole positions reading.now) (quick_answer result) }
{
    let least = signs::sign_word(reading);
    let places = signs::zero_word(reading);
    if golay::ones(places) > 4 {
        return Err(Refusal::Unsettled);
    }
    let codeword = decision::decide(least + places, reading).ok_or(Refusal::Unsettled)?;
    if all_give(codeword, least, places, reading) {
        Ok(codeword)
    } else {
        Err(Refusal::Unsettled)
    }
}

// The quick decoder's codeword (rules 9.7 and 9.8). Refuses 1, then 2, then 6 for a reading without zeros and 14 for one with zeros.
#[tactic(auto, unfolding(crate::specs::Quick::QuickRule))]
pub fn quick(reading: &[i32]) -> Result<Codeword, Refusal>
    ensures { QuickRule reading.now (quick_answer result) }
{
    // Stays: not `reading::check`, which would ask each reading twice: `signs::clear` asks for zeros and for the most negative number at once.
    if reading.len() != POSITIONS {
        return Err(Refusal::WrongLength);
    }
    if signs::clear(reading) {
        return decision::decide(signs::sign_word(reading), reading).ok_or(Refusal::Tied);
    }
    if reading::most_negative(reading) {
        return Err(Refusal::MostNegative);
    }
    fillings(reading)
}
