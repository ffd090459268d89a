// Sequence numbers: the step from one to another, what it tells of a record, and which number is the previous one then. Each call answers for
// every number.
#![tactic(auto)]

ghost use Rattle.std.specs.Prelude.{◌≡◌};
ghost use Rattle.sequence.specs.Sequence.{step_from, told_by, follows_from, previous_after};

pub mod kinds;

use kinds::Follows;

// The step from one number to another (rule 12.5).
pub fn step(from: u16, to: u16) -> u16
    ensures { result ≡ step_from from to }
{
    to.wrapping_sub(from)
}

// What a step tells.
fn told_by(step: u16) -> Follows
    ensures { result ≡ told_by step }
{
    match step {
        0 => Follows::Repeat,
        1..=32_768 => Follows::Lost(step - 1),
        _ => Follows::Late,
    }
}

// How a record with a number, or with none, follows the previous number (rule 12.6).
pub fn follows(previous: Option<u16>, number: Option<u16>) -> Follows
    ensures { result ≡ follows_from previous number }
{
    match (previous, number) {
        (_, None) => Follows::Unnumbered,
        (None, Some(_)) => Follows::Lost(0),
        (Some(from), Some(to)) => told_by(step(from, to)),
    }
}

// The previous number after such a record (rule 12.7).
pub fn previous_after(previous: Option<u16>, number: Option<u16>) -> Option<u16>
    ensures { result ≡ previous_after previous number }
{
    match follows(previous, number) {
        Follows::Unnumbered | Follows::Late => previous,
        Follows::Lost(_) | Follows::Repeat => number,
    }
}
