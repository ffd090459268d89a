// The sheet of a link report: a tally and its table as text, put into a lent buffer. Where there is no room nothing is written.
// Stays: out and at are two parameters, as in `texts`.
#![tactic(auto)]

ghost use Rattle.std.specs.Prelude.{◌+◌, ◌*◌, ◌≤◌, length};
ghost use Rattle.texts.specs.Texts.{line_feed, line_of};
ghost use Rattle.texts.specs.Buffers.{Puts, Writes};
ghost use Rattle.totals.specs.Totals.{totals};
ghost use Rattle.sheet.specs.Sheet.{message_line, message_lines, count_lines, smallest_line, reserve_lines, longest_message, longest_counts, longest_reserves, SheetRule};

use texts::{write_one, write_text, write_two};
use totals::kinds::Tally;

// The most bytes that the line of a message takes, and that the other lines take together.
pub const MESSAGE_LINE: usize = 40;

pub const OTHER_LINES: usize = 135;

// As in "read 2".
fn write_count(word: &[u8], n: u32, out: &mut [u8], at: usize) -> usize
    ensures writes { Writes (line_of word.now n line_feed) out.old at out.new result }
    ensures line_feed_in_bounds { length (line_of word.now n line_feed) ≤ length word.now + 11 }
{
    write_one(word, n as u64, b"\n", out, at)
}

// How many were read, accepted, refused with 2 and refused with 6.
fn write_counts(t: Tally, out: &mut [u8], at: usize) -> usize
    requires { at + longest_counts ≤ length out.old }
    ensures puts { Puts (count_lines t) out.old at out.new result }
    ensures upper_bound { result ≤ at + longest_counts }
{
    let p = write_count(b"read ", t.read, out, at);
    let q = write_count(b"accepted ", t.accepted, out, p);
    let s = write_count(b"refused 2 ", t.refused_2, out, q);
    write_count(b"refused 6 ", t.refused_6, out, s)
}

// As in "message 0 1"; no line where the count is 0.
fn write_message(message: u64, count: u32, out: &mut [u8], at: usize) -> usize
    ensures writes { Writes (message_line message count) out.old at out.new result }
    ensures count_len_bound { length (message_line message count) ≤ longest_message }
{
    if count == 0 {
        return at;
    }
    write_two(b"message ", message, b" ", count as u64, b"\n", out, at)
}

// The lines of all messages, the least first.
fn write_messages(table: &[u32], out: &mut [u8], at: usize) -> usize
    requires { at + length table.now * longest_message ≤ length out.old }
    ensures puts { Puts (message_lines 0 table.now) out.old at out.new result }
    ensures upper_bound { result ≤ at + length table.now * longest_message }
{
    let mut to = at;
    for (message, count) in table.iter().enumerate() {
        to = write_message(message as u64, *count, out, to);
    }
    to
}

// As in "smallest 8", or "smallest none".
// Stays: 0 stands for none in the tally, as the C interface has it.
fn write_smallest(smallest: u64, out: &mut [u8], at: usize) -> usize
    ensures { Writes (smallest_line smallest) out.old at out.new result }
{
    if smallest == 0 {
        return write_text(b"smallest none\n", out, at);
    }
    write_one(b"smallest ", smallest, b"\n", out, at)
}

// The smallest reserve and the total.
fn write_reserves(t: Tally, out: &mut [u8], at: usize) -> usize
    requires { at + longest_reserves ≤ length out.old }
    ensures { Puts (reserve_lines t) out.old at out.new result }
{
    let p = write_smallest(t.smallest, out, at);
    write_one(b"total ", t.total, b"\n", out, p)
}

// The whole sheet at the start of a buffer, and how long it is. A buffer that is shorter than the longest sheet of such a table is left as it
// was, and the answer is 0.
// Stays: what could not fail still cannot (`SheetRule`); no sheet is empty, so 0 is no sheet's length.
pub fn write_sheet(t: Tally, table: &[u32], out: &mut [u8]) -> usize
    ensures { SheetRule (totals t table.now) out.old out.new result }
{
    if out.len() < OTHER_LINES || (out.len() - OTHER_LINES) / MESSAGE_LINE < table.len() {
        return 0;
    }
    let p = write_counts(t, out, 0);
    let q = write_messages(table, out, p);
    write_reserves(t, out, q)
}
