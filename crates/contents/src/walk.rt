// The records of some bytes of a capture, one after the other.
ghost use Rattle.std.specs.Prelude.{◌≡◌, MatchOption};
ghost use Rattle.golay.specs.Refusals.{number};
ghost use Rattle.records.specs.Records.{stopped};
ghost use Rattle.contents.specs.Walks.{place_of, NoStop};

use crate::{confidences, number};
use golay::POSITIONS;
use golay::kinds::Refusal;
use records::kinds::Stands;
use records::stands_at;

// What a record holds: its number, where it is a new one, and its confidences.
#[derive(Clone, Copy)]
pub struct Record {
    pub number: Option<u16>,
    pub reading: [i32; POSITIONS],
}

// The bytes, which are the last of the input or not, and the place in them that the walk has come to.
#[derive(Drop)]
pub struct Walk<'a> {
    pub bytes: &'a [u8],
    pub last: bool,
    pub at: usize,
}

impl<'a> Walk<'a> {
    // Before the first record.
    pub fn new(bytes: &'a [u8], last: bool) -> Walk<'a>
        ensures bytes { result.bytes ≡ bytes.entry }
        ensures last { result.last ≡ last }
        ensures start { result.at ≡ 0 }
    {
        Walk { bytes, last, at: 0 }
    }

    // Why the walk stops at the place, where it does.
    pub fn stop(&self) -> Option<Refusal>
        ensures { MatchOption result (NoStop (place_of self.now)) (λ reason. place_of self.now ≡ stopped (number reason)) }
    {
        match stands_at(self.bytes, self.at, self.last) {
            Stands::Stopped(reason) => Some(reason),
            Stands::End | Stands::Record(_) => None,
        }
    }
}

impl<'a> Iterator for Walk<'a> {
    ghost use Rattle.std.specs.Iterator.{at_most};
    ghost use Rattle.contents.specs.Walks.{Steps, left_of};

    type Item = Record;

    ghost next_gives = { Steps };

    ghost remaining = { λ w. at_most (left_of w) };

    // The record at the place, and the walk past it; none where the walk ends or stops, and stays.
    fn next(&mut self) -> Option<Record> {
        match stands_at(self.bytes, self.at, self.last) {
            Stands::Record(next) => {
                let record = Record {
                    number: number(self.bytes, self.at),
                    reading: confidences(self.bytes, self.at),
                };
                self.at = next;
                Some(record)
            }
            Stands::End | Stands::Stopped(_) => None,
        }
    }
}
