// What the programs that read captures have in common: failures told, text written, progress shown, and the files that arguments name.
// A first argument `-9` says that someone reads descriptor 9 for failures.
#![tactic(auto)]

ghost use Rattle.std.specs.Prelude.{◌≡◌, ◌≤◌, false, true, length, IfErr, IfSome, IsErr, OnOk};
ghost use Rattle.std.specs.IoError.{error_kind};
ghost use Rattle.std.specs.Process.{exit_status};
ghost use Rattle.outside.specs.Reader.{StaysShown};

pub mod captures;
pub mod kinds;
#[cfg(test)]
mod tests;

use kinds::{Input, Source, System, Unwritten};
use std::env::FillError;
use std::fmt::InlineText;
use std::fs::{File, OpenOptions};
use std::io::{self, Error, ErrorKind, IsTerminal, Print, Write};
use std::process::ExitCode;
use std::rt::Env;

const MEBIBYTE: u64 = 0x10_0000;

// Descriptor 9, by its name.
const FAILURES: &str = "/proc/self/fd/9";

// The system's numbers of two reasons: the name is too long, and it is no text.
// Stays: what is told are the system's own words, and std finds these by the number; it has others for an `ErrorKind`.
const ENAMETOOLONG: i32 = 36;

const EILSEQ: i32 = 84;

// How a shell tells that a program was ended by signal 13, which says that nobody reads any more. std's programs ignore that signal.
const UNREAD: u8 = 128 + 13;

impl System {
    // Before anything is written.
    pub fn new(rt: HostRuntime) -> System
        ensures unread { result.unread ≡ false }
        ensures shows { result.shows ≡ false }
    {
        System {
            rt,
            unread: false,
            shows: false,
        }
    }

    // What the program ends with: a failure is told, and no status.
    pub fn status(&self) -> ExitCode
        ensures unread { self.now.unread ≡ true → exit_status result ≡ 141 }
        ensures read { self.now.unread ≡ false → exit_status result ≡ 0 }
    {
        if self.unread {
            ExitCode::from(UNREAD)
        } else {
            ExitCode::SUCCESS
        }
    }

    // Unasked, the descriptor may be anybody's.
    fn tells_failures(&self) -> bool {
        let mut word = [0u8; 2];
        matches!(self.rt.arg(1, &mut word), Ok(2)) && word == *b"-9"
    }

    // The place of the first argument that names a file.
    pub fn first_argument(&self) -> usize
        ensures lower_bound { 1 ≤ result }
        ensures upper_bound { result ≤ 2 }
    {
        if self.tells_failures() { 2 } else { 1 }
    }

    // Whether there is an argument at a place.
    pub fn has_argument(&self, place: usize) -> bool {
        let mut none = [0u8; 1];
        !matches!(self.rt.arg(place, &mut none), Err(FillError::NotPresent))
    }

    // Where the reader is gone, that stays so.
    // Stays: the clause stands in each of these contracts, since it is of what was before and what is after; a ghost field or invariant speaks of one value.
    fn note(&mut self, written: io::Result<()>)
        ensures stays { StaysShown self.old self.new }
        ensures gone { IfErr written (λ why. error_kind why ≡ ErrorKind.BrokenPipe → self.new.unread ≡ true) }
        ensures ok { OnOk written (self.new.unread ≡ self.old.unread) }
    {
        if let Err(why) = written {
            self.unread = self.unread || why.kind() == ErrorKind::BrokenPipe;
        }
    }

    // To standard error, as far as it can be written.
    pub fn tell(&mut self, text: &[u8])
        ensures { StaysShown self.old self.new }
    {
        if !self.unread {
            let written = Print::write_all(&self.rt.stderr(), text);
            self.note(written);
        }
    }

    // The reason alone, without the number that std adds to the system's words.
    fn tell_reason(&mut self, why: Error)
        ensures { StaysShown self.old self.new }
    {
        let text = InlineText::<96>::of(why);
        let all = text.as_str();
        let words = all.split_once(" (os error ").map_or(all, |parts| parts.0);
        self.tell(words.as_bytes());
    }

    fn write_failure(&self) -> io::Result<()> {
        let mut failures = OpenOptions::new().append(true).open(&self.rt, FAILURES)?;
        failures.write_all(b"failed\n")
    }

    // What failed and why, on standard error; and that something failed, where that is asked for.
    pub fn fail(&mut self, what: &[u8], why: Error)
        ensures { StaysShown self.old self.new }
    {
        self.tell(what);
        self.tell(b": ");
        self.tell_reason(why);
        self.tell(b"\n");
        if !self.unread && self.tells_failures() {
            let written = self.write_failure();
            self.note(written);
        }
    }

    // To standard output. That its reader is gone is no failure: who has enough ends the program, and it says nothing.
    pub fn write_text(&mut self, text: &[u8]) -> Result<(), Unwritten>
        ensures stays { StaysShown self.old self.new }
        ensures unread { self.old.unread ≡ true → IsErr result }
        ensures written { OnOk result (self.new.unread ≡ false) }
    {
        if self.unread {
            return Err(Unwritten);
        }
        match self.rt.write_all(text) {
            Ok(()) => Ok(()),
            Err(why) => {
                self.note(Err(why));
                if !self.unread {
                    self.fail(b"standard output", why);
                }
                Err(Unwritten)
            }
        }
    }

    // Whether standard error is a terminal.
    pub fn is_watched(&self) -> bool {
        self.rt.stderr().is_terminal()
    }

    // How far the run has come, whenever it is a mebibyte farther. What is written next, also a failure, begins the line again.
    pub fn show_progress(&mut self, before: u64, now: u64)
        ensures { StaysShown self.old self.new }
    {
        if self.shows && !self.unread && before / MEBIBYTE < now / MEBIBYTE {
            let done = now / MEBIBYTE;
            let written = eprint!(self.rt; "{done} MiB decoded\r");
            self.note(written);
        }
    }

    pub fn clear_progress(&mut self)
        ensures { StaysShown self.old self.new }
    {
        if self.shows {
            self.tell(b"\r\x1b[K");
        }
    }

    // A path is text in UTF-8, and no file of another name can be opened.
    fn open_path(&self, path: &[u8]) -> io::Result<File> {
        let path = str::from_utf8(path).map_err(|_| Error::from_raw_os_error(EILSEQ))?;
        File::open(&self.rt, path)
    }

    fn standard_input<'a>(&self, name: &'a mut [u8]) -> Input<'a>
        ensures { length result.name.now ≤ length name.old }
    {
        let named = texts::write_text(b"standard input", name, 0);
        Input {
            source: Source::Standard(self.rt.stdin()),
            name: &name[..named],
        }
    }

    // Opens the file that an argument names; `-`, or no argument, is standard input. Its name is put into the buffer. Where it can't be opened,
    // that is told.
    pub fn open_argument<'a>(&mut self, place: usize, name: &'a mut [u8]) -> Option<Input<'a>>
        ensures stays { StaysShown self.old self.new }
        ensures named { IfSome result (λ input. length input.name.now ≤ length name.old) }
    {
        let length = match self.rt.arg(place, name) {
            Ok(length) => length,
            Err(FillError::NotPresent) => return Some(self.standard_input(name)),
            // An argument that is longer than any path: its first bytes name it.
            Err(FillError::TooLong) => {
                self.fail(name, Error::from_raw_os_error(ENAMETOOLONG));
                return None;
            }
        };
        if matches!(&name[..length], b"-") {
            return Some(self.standard_input(name));
        }
        let name = &name[..length];
        match self.open_path(name) {
            Ok(file) => Some(Input {
                source: Source::File(file),
                name,
            }),
            Err(why) => {
                self.fail(name, why);
                None
            }
        }
    }
}

// Standard input stays open: it may be named again.
pub fn close(source: Source) {}
