// The system, and what an argument names.
use std::fs::File;
use std::io::{Read, Result};
use std::rt::Stdin;

// The system as a program has it; whether the reader of what it writes is gone: then nothing more is written; and whether it is shown how far the
// run has come.
#[derive(Drop)]
pub struct System {
    pub rt: HostRuntime,
    pub unread: bool,
    pub shows: bool,
}

// That a text could not be written, which is told where it is a failure.
#[derive(Clone, Copy, Debug)]
pub struct Unwritten;

// What can be read: standard input, or a file that is open, which is closed where it is let go.
#[derive(Drop)]
pub enum Source {
    Standard(Stdin),
    File(File),
}

impl Read for Source {
    fn read(&mut self, buf: &mut [u8]) -> Result<usize> {
        match self {
            Source::Standard(input) => input.read(buf),
            Source::File(file) => file.read(buf),
        }
    }
}

// What is open for reading, and its name.
#[derive(Drop)]
pub struct Input<'a> {
    pub source: Source,
    pub name: &'a [u8],
}
