// The link report: counts the readings of captures, of the files that the arguments name or of standard input, and prints the sheet. A capture
// that can't be read is told, and then no sheet is printed.
#![tactic(auto)]

ghost use Rattle.std.specs.Prelude.{◌≡◌, ◌+◌, ◌^◌, ◌<◌, None, Some, MatchOption};
ghost use Rattle.outside.specs.Reader.{StaysShown};

use counting::kinds::Counted;
use golay::kinds::Refusal;
use lines::LONGEST;
use outside::captures::{HELD, Left, OffsetTurns, read_capture_in};
use outside::close;
use outside::kinds::{Input, System};
use sheet::{MESSAGE_LINE, OTHER_LINES};
use std::process::ExitCode;
use tally::TABLE;
use totals::kinds::Tally;

// The most bytes that a sheet takes.
const SHEET: usize = OTHER_LINES + TABLE * MESSAGE_LINE;

// Why and at which offset a capture stopped.
#[derive(Clone, Copy)]
struct Stop {
    reason: Refusal,
    offset: u64,
}

// The tally of the captures so far, with its table; and where the last of them stopped, if it did.
#[derive(Drop)]
struct Counts {
    tally: Tally,
    table: [u32; TABLE],
    stop: Option<Stop>,
}

// That a capture could not be read, which is told.
#[derive(Clone, Copy, Debug)]
struct NotRead;

impl Counts {
    // The tally after bytes from an offset on, and where they stopped. Up to which offset they were counted.
    fn note(&mut self, counted: Counted, offset: u64) -> u64
        requires { offset + counted.through < 2 ^ 64 }
        ensures through { result ≡ offset + counted.through }
        ensures counted { (self.new.tally ≡ counted.tally) × (self.new.table ≡ self.old.table) }
        ensures told { MatchOption self.new.stop (counted.stop ≡ None) (λ stop. (counted.stop ≡ Some stop.reason) × (stop.offset ≡ offset + counted.through)) }
    {
        self.tally = counted.tally;
        let offset = offset + counted.through as u64;
        self.stop = counted.stop.map(|reason| Stop { reason, offset });
        offset
    }
}

// Counts the whole records that are there.
impl OffsetTurns for Counts {
    fn turn(&mut self, system: &mut System, held: &mut [u8], offset: u64) -> Option<Left> {
        let turn = counting::count_turn(held, held.len(), self.tally, &mut self.table);
        let next = self.note(turn.counted, offset);
        match turn.counted.stop {
            None => Some(Left {
                count: turn.left,
                offset: next,
            }),
            Some(_) => None,
        }
    }

    fn last(&mut self, system: &mut System, left: &[u8], offset: u64) {
        let counted = counting::count_records(left, true, self.tally, &mut self.table);
        self.note(counted, offset);
    }
}

// Where and why a capture stopped, by its name.
fn tell_stop(system: &mut System, name: &[u8], stop: Stop)
    ensures { StaysShown system.old system.new }
{
    let mut line = [0u8; LONGEST];
    let number = u8::from(stop.reason);
    let n = lines::write_stopped(number, stop.offset, &mut line, 0);
    system.tell(name);
    system.tell(b": ");
    system.tell(&line[..n]);
}

// Counts the capture that an argument names, and tells what went wrong with it.
fn count_argument(
    system: &mut System,
    place: usize,
    held: &mut [u8; HELD],
    counts: &mut Counts,
) -> Result<(), NotRead>
    ensures { StaysShown system.old system.new }
{
    let mut name = [0u8; 4096];
    let Input { mut source, name } = system.open_argument(place, &mut name).ok_or(NotRead)?;
    counts.stop = None;
    let read = read_capture_in(system, &mut source, held, counts);
    system.clear_progress();
    if let Err(why) = read {
        system.fail(name, why);
    }
    if let Some(stop) = counts.stop {
        tell_stop(system, name, stop);
    }
    close(source);
    read.map_err(|_| NotRead)
}

// All captures in their order: standard input where no argument names one.
fn count_all(system: &mut System, held: &mut [u8; HELD], counts: &mut Counts) -> Result<(), NotRead>
    ensures { StaysShown system.old system.new }
{
    let first = system.first_argument();
    let mut all = count_argument(system, first, held, counts);
    for place in first + 1..usize::MAX {
        if system.unread || !system.has_argument(place) {
            break;
        }
        all = all.and(count_argument(system, place, held, counts));
    }
    all
}

// Stays: an array and the length that was put, as in `capture`.
fn print_sheet(system: &mut System, counts: &Counts) {
    let mut text = [0u8; SHEET];
    let n = sheet::write_sheet(counts.tally, &counts.table, &mut text);
    let _ = system.write_text(&text[..n]);
}

fn main(rt: HostRuntime) -> ExitCode {
    let mut system = System::new(rt);
    system.shows = system.is_watched();
    let mut held = [0u8; HELD];
    let mut counts = Counts {
        tally: Tally::default(),
        table: [0; TABLE],
        stop: None,
    };
    if count_all(&mut system, &mut held, &mut counts).is_ok() {
        print_sheet(&mut system, &counts);
    }
    system.status()
}
