// The text of each line of output, put into a lent buffer at a place. A line that does not fit is not begun: no byte of the buffer
// changes, and the answer is the place itself.
// Stays: out and at are two parameters, as in `texts`.
#![tactic(auto)]

ghost use Rattle.std.specs.Prelude.{◌≡◌, ◌≤◌, length};
ghost use Rattle.texts.specs.Buffers.{Writes};
ghost use Rattle.suffixes.specs.Suffixes.{end_of, longest_end};
ghost use Rattle.lines.specs.Lines.{header, accepted_line, refused_line, stopped_line, longest};

use sequence::kinds::Follows;
use suffixes::{LONGEST_END, write_end};
use texts::{write_one, write_text, write_two};

// The most bytes that a line takes.
pub const LONGEST: usize = 39;

// "message reserve" (rule 13.2).
pub fn write_header(out: &mut [u8], at: usize) -> usize
    ensures { Writes header out.old at out.new result }
{
    write_text(b"message reserve\n", out, at)
}

// What a line ends with, in an array that is lent for it.
fn end_in(place: &mut [u8; LONGEST_END], follows: Follows) -> &[u8]
    ensures ending { result.now ≡ end_of follows }
    ensures follows_len_bound { length (end_of follows) ≤ longest_end }
{
    let k = write_end(follows, place, 0);
    &place[..k]
}

// As in "0 8" (rule 13.3).
pub fn write_accepted(
    message: u32,
    reserve: u64,
    follows: Follows,
    out: &mut [u8],
    at: usize,
) -> usize
    ensures writes { Writes (accepted_line message reserve follows) out.old at out.new result }
    ensures follows_len_bound { length (accepted_line message reserve follows) ≤ longest }
{
    let mut place = [0u8; LONGEST_END];
    let end = end_in(&mut place, follows);
    write_two(b"", message as u64, b" ", reserve, end, out, at)
}

// As in "refused 6" (rule 13.4).
// Stays: the promise of this line and the next is for every number; a `Refusal` in its place would ask more of callers.
pub fn write_refused(number: u8, follows: Follows, out: &mut [u8], at: usize) -> usize
    ensures writes { Writes (refused_line number follows) out.old at out.new result }
    ensures follows_len_bound { length (refused_line number follows) ≤ longest }
{
    let mut place = [0u8; LONGEST_END];
    let end = end_in(&mut place, follows);
    write_one(b"refused ", number as u64, end, out, at)
}

// As in "stopped 10 at 196" (rule 13.5).
pub fn write_stopped(number: u8, offset: u64, out: &mut [u8], at: usize) -> usize
    ensures { Writes (stopped_line number offset) out.old at out.new result }
{
    write_two(b"stopped ", number as u64, b" at ", offset, b"\n", out, at)
}
