// A reading's check for the most negative number, before any confidence is negated.
#![tactic(auto)]

ghost use Rattle.std.specs.Prelude.{◌≡◌, false, OnOk};
ghost use Rattle.signed.specs.Within.{Within};
ghost use Rattle.contest.specs.Readings.{Reading};
ghost use Rattle.code.specs.Code.{positions};
ghost use Rattle.reading.specs.Checks.{is_most_negative, Checked};
ghost use Rattle.reading.specs.Calls.{check_answer, check_rule};

use golay::POSITIONS;
use golay::kinds::Refusal;

// Whether a number is the most negative one, whose opposite is no i32.
fn is_most_negative(x: i32) -> bool
    ensures is { result ≡ is_most_negative x }
    ensures range { result ≡ false → Within 2147483647 x }
{
    x == i32::MIN
}

// Whether a confidence is the most negative number.
pub fn most_negative(reading: &[i32]) -> bool
    ensures { Checked reading.now result }
{
    reading.iter().any(|x| is_most_negative(*x))
}

// Whether a reading is valid: its length, then its confidences, as each call asks first. Refuses 1, then 2.
pub fn check(reading: &[i32]) -> Result<(), Refusal>
    ensures answer { check_answer result ≡ check_rule reading.now }
    ensures valid { OnOk result (Reading 2147483647 positions reading.now) }
{
    if reading.len() != POSITIONS {
        return Err(Refusal::WrongLength);
    }
    if most_negative(reading) {
        return Err(Refusal::MostNegative);
    }
    Ok(())
}
