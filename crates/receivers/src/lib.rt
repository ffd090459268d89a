// Two receivers: which of them has the better reading with a number, and that reading as a part of its buffer. Each call answers for every pair of
// buffers and every number, and its promise decides the whole answer.
#![tactic(auto)]

ghost use Rattle.choices.specs.Choices.{receiver};
ghost use Rattle.receivers.specs.Calls.{Chooses, LendsBetter};

use buffers::{has_reading, reading_at};
use choices::kinds::Choice;
use choices::larger_reserve;

// The receiver that has the better reading with this number (rules 17.2 to 17.4).
// Stays: the two buffers and the number stand apart, as the C interface hands them.
pub fn choice(first: &[i32], second: &[i32], number: usize) -> Choice
    ensures { Chooses first.now second.now number (receiver result) }
{
    if !has_reading(first, number) || !has_reading(second, number) {
        return Choice::Neither;
    }
    let one = soft::soft(reading_at(first, number));
    let other = soft::soft(reading_at(second, number));
    larger_reserve(one, other)
}

// The better reading with this number, as a part of the buffer in which it stands; an empty part where there is none (rule 17.5).
// Stays: no Option, as in `buffers::reading_at`: `LendsBetter` says where an empty part begins.
pub fn better<'a>(first: &'a [i32], second: &'a [i32], number: usize) -> &'a [i32]
    ensures { LendsBetter first.entry second.entry number result }
{
    match choice(first, second, number) {
        Choice::First => reading_at(first, number),
        Choice::Second => reading_at(second, number),
        Choice::Neither => &first[..0],
    }
}
