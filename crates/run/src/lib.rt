// The run over bytes of a capture: each record's line, and the line where it stopped, into a lent buffer. Where there is no room nothing is
// written, and the outcome says so.
#![tactic(auto)]

ghost use Rattle.std.specs.Prelude.{length};
ghost use Rattle.run.specs.Runs.{Room, Lacks, Runs, RunRule};

pub mod kinds;

use contents::walk::Walk;
use kinds::{Outcome, Start, unrun};
use lines::LONGEST;

// Whether a buffer of a length has no room for the text of some bytes, or 64 bits have none for their offsets.
fn lacks_room(offset: u64, count: usize, buffer: usize) -> bool
    ensures { Lacks offset count buffer result }
{
    buffer < LONGEST || buffer - LONGEST < count || u64::MAX - offset < count as u64
}

// The run over bytes that have room.
fn run_through(bytes: &[u8], last: bool, start: Start, out: &mut [u8]) -> Outcome
    requires { Room start.offset (length bytes.now) (length out.old) }
    ensures { Runs last start.previous start.offset bytes.now out.old out.new result }
{
    let mut walk = Walk::new(bytes, last);
    let mut previous = start.previous;
    let mut put = 0;
    // Stays: as in `counting::count_records`, where `for record in walk.by_ref()` was tried: nothing would be known of the walk after the loop.
    while let Some(record) = walk.next() {
        let follows = sequence::follows(previous, record.number);
        put = answers::write_answer(&record.reading, follows, out, put);
        previous = sequence::previous_after(previous, record.number);
    }
    let stop = walk.stop();
    if let Some(reason) = stop {
        let offset = start.offset + walk.at as u64;
        put = lines::write_stopped(u8::from(reason), offset, out, put);
    }
    Outcome {
        put,
        stopped: stop.is_some(),
        through: walk.at,
        previous,
    }
}

// The run over the last bytes of the input, or over others, which begin after a previous number and at an offset of the capture: the text of
// them all, at the start of the buffer.
// Stays: bytes and last apart: `RunRule` speaks of them so.
pub fn run(bytes: &[u8], last: bool, start: Start, out: &mut [u8]) -> Outcome
    ensures { RunRule last start.previous start.offset bytes.now out.old out.new result }
{
    if lacks_room(start.offset, bytes.len(), out.len()) {
        return unrun(start.previous);
    }
    run_through(bytes, last, start, out)
}
