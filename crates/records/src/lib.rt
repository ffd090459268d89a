// A capture as bytes: what stands at a place of it. The call answers for every slice and every place.
#![tactic(auto)]

ghost use Rattle.std.specs.Prelude.{◌≡◌, cond, drop};
ghost use Rattle.records.specs.Records.{ended, unfinished, stands_at, in_piece, next_from, stands_answer};

pub mod kinds;

use golay::kinds::Refusal;
use kinds::Stands;

pub const OLD_RECORD: usize = 98;

pub const NEW_RECORD: usize = 100;

// A record that is not whole: cut short where the input has ended, else none yet.
fn cut(last: bool) -> Stands
    ensures { stands_answer result ≡ cond last unfinished ended }
{
    if last {
        Stands::Stopped(Refusal::CutShort)
    } else {
        Stands::End
    }
}

// The bytes from a place on; none past the end.
fn rest(bytes: &[u8], at: usize) -> &[u8]
    ensures { result.now ≡ drop at bytes.now }
{
    bytes.get(at..).unwrap_or(&[])
}

// What stands at a record's start, at a place of a capture or of a piece of it, its last one or not; past the end nothing is left. Stops with
// 10, 9, then 10.
// Stays: bytes and at: `stands_at` answers for every place, past the end too.
pub fn stands_at(bytes: &[u8], at: usize, last: bool) -> Stands
    ensures { stands_answer result ≡ next_from at (in_piece last (stands_at bytes.now at)) }
{
    let left = rest(bytes, at);
    match left {
        [] => Stands::End,
        [0x49, 0x43, ..] if left.len() < OLD_RECORD => cut(last),
        [0x49, 0x43, ..] => Stands::Record(at + OLD_RECORD),
        [0x49, 0x44, ..] if left.len() < NEW_RECORD => cut(last),
        [0x49, 0x44, ..] => Stands::Record(at + NEW_RECORD),
        [_] => cut(last),
        _ => Stands::Stopped(Refusal::NoMark),
    }
}
