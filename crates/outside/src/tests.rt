// Captures read by `read_capture`, which no program calls.
use crate::captures::{Turns, read_capture};
use crate::kinds::System;
use std::array;
use std::io::{self, Error, ErrorKind, Read};
use std::test::Fail;

// Bytes of which at most so many come at once.
#[derive(Drop)]
struct Slow<'a> {
    left: &'a [u8],
    at_once: usize,
}

impl Read for Slow<'_> {
    fn read(&mut self, buf: &mut [u8]) -> io::Result<usize> {
        let n = self.at_once.min(buf.len());
        self.left.read(&mut buf[..n])
    }
}

// Passes sevens of bytes. Notes the first offset at which others come than stand there, or no progress is shown, and where the last ones end.
#[derive(Drop)]
struct Sevens<'a> {
    capture: &'a [u8],
    wrong: Option<u64>,
    end: Option<u64>,
}

impl Sevens<'_> {
    fn see(&mut self, system: &System, bytes: &[u8], offset: u64) {
        let rest = usize::try_from(offset)
            .ok()
            .and_then(|at| self.capture.get(at..));
        if !system.shows || !rest.is_some_and(|rest| rest.starts_with(bytes)) {
            self.wrong = self.wrong.or(Some(offset));
        }
    }
}

impl Turns for Sevens<'_> {
    fn turn(&mut self, system: &mut System, held: &mut [u8], offset: u64) -> Option<usize> {
        self.see(system, held, offset);
        let left = held.len() % 7;
        held.copy_within(held.len() - left.., 0);
        Some(left)
    }

    fn last(&mut self, system: &mut System, left: &[u8], offset: u64) {
        self.see(system, left, offset);
        self.end = Some(offset + left.len() as u64);
    }
}

#[test]
fn each_byte_comes_at_its_offset(rt: HostRuntime) -> Result<(), Fail> {
    let bytes: [u8; 140_000] = array::from_fn(|i| (i % 251) as u8);
    let mut system = System::new(rt);
    system.shows = true;
    for (length, at_once) in [
        (0, 1),
        (6, 1),
        (7, 7),
        (1_000, 3),
        (140_000, 99),
        (140_000, 140_000),
    ] {
        assert!(system.rt; length <= bytes.len());
        let capture = &bytes[..length];
        let mut turns = Sevens {
            capture,
            wrong: None,
            end: None,
        };
        let mut input = Slow {
            left: capture,
            at_once,
        };
        read_capture(&mut system, &mut input, &mut turns)?;
        assert_eq!(system.rt; turns.wrong, None, "{length} bytes, {at_once} at once");
        assert_eq!(system.rt;
            turns.end,
            Some(length as u64),
            "{length} bytes, {at_once} at once"
        );
        assert!(system.rt; system.shows);
    }
    Ok(())
}

// Passes all bytes in so many turns at most. From the first on no more progress is shown.
#[derive(Drop)]
struct AtMost {
    most: usize,
    turns: usize,
    last: Option<u64>,
}

impl AtMost {
    fn new(most: usize) -> Self {
        AtMost {
            most,
            turns: 0,
            last: None,
        }
    }
}

impl Turns for AtMost {
    fn turn(&mut self, system: &mut System, held: &mut [u8], offset: u64) -> Option<usize> {
        if self.turns == 0 {
            system.shows = false;
        }
        self.turns = self.turns.saturating_add(1);
        if self.turns < self.most {
            Some(0)
        } else {
            None
        }
    }

    fn last(&mut self, system: &mut System, left: &[u8], offset: u64) {
        self.last = Some(offset);
    }
}

#[test]
fn the_last_turn_ends_it(rt: HostRuntime) -> Result<(), Fail> {
    let mut system = System::new(rt);
    system.shows = true;
    let mut turns = AtMost::new(3);
    let mut input = Slow {
        left: b"abcdefgh",
        at_once: 2,
    };
    read_capture(&mut system, &mut input, &mut turns)?;
    assert_eq!(system.rt; turns.turns, 3);
    assert_eq!(system.rt; turns.last, None);
    assert_eq!(system.rt; input.left, b"gh".as_slice());
    assert!(system.rt; !system.shows);
    Ok(())
}

// Says that it brings all that there is room for, up to some number of bytes; then it fails, or ends.
#[derive(Drop)]
struct Long {
    left: u64,
    failure: Option<ErrorKind>,
}

impl Read for Long {
    fn read(&mut self, buf: &mut [u8]) -> io::Result<usize> {
        let n = usize::try_from(self.left)
            .unwrap_or(usize::MAX)
            .min(buf.len());
        self.left = self.left.saturating_sub(n as u64);
        match self.failure {
            Some(kind) if n == 0 => Err(Error::from(kind)),
            _ => Ok(n),
        }
    }
}

#[test]
fn a_capture_may_be_long(rt: HostRuntime) -> Result<(), Fail> {
    let mut system = System::new(rt);
    let mut turns = AtMost::new(usize::MAX);
    let mut input = Long {
        left: 5_000_000_000,
        failure: None,
    };
    read_capture(&mut system, &mut input, &mut turns)?;
    assert_eq!(system.rt; turns.last, Some(5_000_000_000));
    Ok(())
}

// So is whether progress is shown: as the last turn left it, or where there was none, as it was.
#[test]
fn a_failure_is_handed_on(rt: HostRuntime) {
    let mut system = System::new(rt);
    for (left, turns_then, shows_then) in [(100, 1, false), (0, 0, true)] {
        system.shows = true;
        let mut turns = AtMost::new(3);
        let mut input = Long {
            left,
            failure: Some(ErrorKind::TimedOut),
        };
        let failure = read_capture(&mut system, &mut input, &mut turns).map_err(|why| why.kind());
        assert_eq!(system.rt; failure, Err(ErrorKind::TimedOut));
        assert_eq!(system.rt; turns.turns, turns_then);
        assert_eq!(system.rt; turns.last, None);
        assert_eq!(system.rt; system.shows, shows_then);
    }
}
