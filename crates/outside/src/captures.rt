// A capture that is read piece after piece, whatever is made of its bytes.
ghost use Rattle.std.specs.Prelude.{◌≡◌, ◌+◌, ◌^◌, ◌<◌, ◌≤◌, length, IfSome};
ghost use Rattle.records.specs.Records.{new_length};
ghost use Rattle.outside.specs.Reader.{Stays, StaysShown};

use crate::kinds::System;
use std::io::{Read, Result};
use std::mem;

// How many bytes are held.
pub const HELD: usize = 65_536;

// No offset comes near the end of 64 bits; this says so to the proofs.
const FARTHEST: u64 = 0xFFFF_FFFF_FFFE_0000;

// What a turn leaves: so many bytes, in front of those that are held, and at which offset of the capture the first of them stands.
#[derive(Clone, Copy)]
pub struct Left {
    pub count: usize,
    pub offset: u64,
}

// What is made of a capture's bytes, turn by turn.
pub trait OffsetTurns {
    // A turn over the bytes that are held, which begin at an offset of the capture and which more may follow: each is passed or left. With no answer
    // it is the last turn.
    fn turn(&mut self, system: &mut System, held: &mut [u8], offset: u64) -> Option<Left>
        requires held_bound { length held.old ≤ 65536 }
        requires offset_bound { offset + length held.old < 2 ^ 64 }
        ensures stays { StaysShown system.old system.new }
        ensures left_value { IfSome result (λ left. left.offset + left.count ≡ offset + length held.old) }
        ensures left_of_all { IfSome result (λ left. left.count ≤ length held.old) }
        ensures left_short { IfSome result (λ left. left.count < new_length) };

    // What is left at the end of the input, from an offset on.
    fn last(&mut self, system: &mut System, left: &[u8], offset: u64)
        requires left_bound { length left.now ≤ 65536 }
        requires offset_bound { offset + length left.now < 2 ^ 64 }
        ensures { StaysShown system.old system.new };
}

// Reads a capture of any length, also one that comes slowly: a turn over each piece, and at last over what is left. The bytes are held in a
// buffer that is lent, since a program may read many captures.
pub fn read_capture_in<R: Read, T: OffsetTurns>(
    system: &mut System,
    input: &mut R,
    held: &mut [u8; HELD],
    turns: &mut T,
) -> Result<()>
    ensures { StaysShown system.old system.new }
{
    let mut count: usize = 0;
    let mut offset: u64 = 0;
    // Stays: it counts no index: it ends where the input does, or at an offset that none has.
    while offset < FARTHEST {
        let n = input.read(&mut held[count..])?;
        if n == 0 {
            turns.last(system, &held[..count], offset);
            return Ok(());
        }
        let Some(left) = turns.turn(system, &mut held[..count + n], offset) else {
            return Ok(());
        };
        system.show_progress(offset, left.offset);
        count = left.count;
        offset = left.offset;
    }
    Ok(())
}

// What is made of a capture's bytes by turns that answer only how many are left, and that may change whether progress is shown.
pub trait Turns {
    // A turn over the bytes that are held, which begin at an offset of the capture and which more may follow. How many are left then, in front;
    // none is the last turn.
    fn turn(&mut self, system: &mut System, held: &mut [u8], offset: u64) -> Option<usize>
        requires held_bound { length held.old ≤ 65536 }
        requires offset_bound { offset + length held.old < 2 ^ 64 }
        ensures stays { Stays system.old system.new }
        ensures left_of_all { IfSome result (λ left. left ≤ length held.old) }
        ensures left_short { IfSome result (λ left. left < new_length) };

    // What is left at the end of the input, from an offset on.
    fn last(&mut self, system: &mut System, left: &[u8], offset: u64)
        requires left_bound { length left.now ≤ 65536 }
        requires offset_bound { offset + length left.now < 2 ^ 64 }
        ensures { Stays system.old system.new };
}

// Such turns, and whether they show progress, which the system says only while one runs.
#[derive(Drop)]
struct Shown<'a, T> {
    turns: &'a mut T,
    shows: bool,
}

// Progress is shown here, if the turn left it so; while what reads runs on, it is off.
impl<T: Turns> OffsetTurns for Shown<'_, T> {
    fn turn(&mut self, system: &mut System, held: &mut [u8], offset: u64) -> Option<Left> {
        mem::swap(&mut self.shows, &mut system.shows);
        let all = held.len();
        let left = self.turns.turn(system, held, offset).map(|count| Left {
            count,
            offset: offset + (all - count) as u64,
        });
        if let Some(Left { offset: next, .. }) = left {
            system.show_progress(offset, next);
        }
        mem::swap(&mut self.shows, &mut system.shows);
        left
    }

    fn last(&mut self, system: &mut System, left: &[u8], offset: u64) {
        mem::swap(&mut self.shows, &mut system.shows);
        self.turns.last(system, left, offset);
        mem::swap(&mut self.shows, &mut system.shows);
    }
}

// Reads a capture by such turns, in a buffer of its own.
pub fn read_capture<R: Read, T: Turns>(
    system: &mut System,
    input: &mut R,
    turns: &mut T,
) -> Result<()>
    ensures { Stays system.old system.new }
{
    let mut held = [0u8; HELD];
    let mut shown = Shown {
        turns,
        shows: mem::replace(&mut system.shows, false),
    };
    let read = read_capture_in(system, input, &mut held, &mut shown);
    system.shows = shown.shows;
    read
}
