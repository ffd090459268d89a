// Decodes a capture, from the file that the argument names or from standard input: the header, a line for each record, the line where it stopped.
#![tactic(auto)]

ghost use Rattle.std.specs.Prelude.{◌≡◌, ◌≤◌};
ghost use Rattle.outside.specs.Reader.{StaysShown};

use lines::LONGEST;
use outside::captures::{HELD, Left, OffsetTurns, read_capture_in};
use outside::close;
use outside::kinds::{Input, Source, System, Unwritten};
use run::kinds::Start;
use std::io::{IsTerminal, Read};
use std::process::ExitCode;

// As many bytes as are held, and one line more.
const TEXT: usize = HELD + LONGEST;

// The previous number of a capture, and room for the text of all bytes that are held.
// Stays: arrays and the length that was put: no memory from a heap, and `Writes` answers the place.
#[derive(Drop)]
struct Lines {
    previous: Option<u16>,
    text: [u8; TEXT],
}

impl Lines {
    // What a run over bytes from an offset on begins with.
    fn start(&self, offset: u64) -> Start
        ensures { result.offset ≡ offset }
    {
        Start {
            previous: self.previous,
            offset,
        }
    }

    // The first bytes of the text, to standard output.
    fn write_text(&self, system: &mut System, put: usize) -> Result<(), Unwritten>
        requires { put ≤ 65575 }
        ensures { StaysShown system.old system.new }
    {
        system.write_text(&self.text[..put])
    }
}

// Writes the text of the whole records that are there.
impl OffsetTurns for Lines {
    // One whose text can't be written is the last, as one that stopped.
    fn turn(&mut self, system: &mut System, held: &mut [u8], offset: u64) -> Option<Left> {
        let turned = turns::turn(held, held.len(), self.start(offset), &mut self.text);
        self.previous = turned.outcome.previous;
        self.write_text(system, turned.outcome.put).ok()?;
        if turned.outcome.stopped {
            return None;
        }
        Some(Left {
            count: turned.left,
            offset: turned.next,
        })
    }

    fn last(&mut self, system: &mut System, left: &[u8], offset: u64) {
        let outcome = run::run(left, true, self.start(offset), &mut self.text);
        let _ = self.write_text(system, outcome.put);
    }
}

fn write_header(system: &mut System) -> Result<(), Unwritten> {
    let mut line = [0u8; 16];
    let n = lines::write_header(&mut line, 0);
    system.write_text(&line[..n])
}

// Where it would not run into the text: standard error is a terminal, and standard output is none.
fn shows_progress(system: &System) -> bool {
    system.is_watched() && !system.rt.stdout().is_terminal()
}

// A read of no bytes fails where none can be read, as from a folder: then nothing is written, not even the header.
fn decode(system: &mut System, input: &mut Source, name: &[u8]) {
    let mut none = [0u8; 0];
    if let Err(why) = input.read(&mut none) {
        system.fail(name, why);
        return;
    }
    if write_header(system).is_err() {
        return;
    }
    system.shows = shows_progress(system);
    let mut held = [0u8; HELD];
    let mut lines = Lines {
        previous: None,
        text: [0; TEXT],
    };
    if let Err(why) = read_capture_in(system, input, &mut held, &mut lines) {
        // The failure is to stand on a line without progress.
        system.clear_progress();
        system.fail(name, why);
    }
    system.clear_progress();
}

fn main(rt: HostRuntime) -> ExitCode {
    let mut system = System::new(rt);
    let place = system.first_argument();
    if system.has_argument(place + 1) {
        system.tell(b"usage: capture [-9] [FILE]\n");
        return system.status();
    }
    let mut name = [0u8; 4096];
    if let Some(Input { mut source, name }) = system.open_argument(place, &mut name) {
        decode(&mut system, &mut source, name);
        close(source);
    }
    system.status()
}
