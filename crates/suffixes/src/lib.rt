// What the line of a record ends with, put into a lent buffer at a place, whole or not at all.
// Stays: out and at are two parameters, as in `texts`.
#![tactic(auto)]

ghost use Rattle.std.specs.Prelude.{◌≤◌, length};
ghost use Rattle.texts.specs.Buffers.{Writes};
ghost use Rattle.suffixes.specs.Suffixes.{end_of, longest_end};

use sequence::kinds::Follows;
use texts::{write_one, write_text};

// The most bytes that an end takes.
pub const LONGEST_END: usize = 8;

// For a new record what its number tells, and a line feed (rule 13.8).
pub fn write_end(follows: Follows, out: &mut [u8], at: usize) -> usize
    ensures writes { Writes (end_of follows) out.old at out.new result }
    ensures follows_len_bound { length (end_of follows) ≤ longest_end }
{
    match follows {
        Follows::Unnumbered => write_text(b"\n", out, at),
        Follows::Lost(n) => write_one(b" ", n as u64, b"\n", out, at),
        Follows::Repeat => write_text(b" repeat\n", out, at),
        Follows::Late => write_text(b" late\n", out, at),
    }
}
