// A receiver's buffer: whether it holds a reading with a number, and that reading as a part of it. Both functions answer for every buffer and every
// number.
#![tactic(auto)]

ghost use Rattle.std.specs.Prelude.{◌≡◌};
ghost use Rattle.buffers.specs.Buffers as specs;
ghost use Rattle.buffers.specs.Buffers.{LendsReading};

use golay::POSITIONS;

// Whether the buffer is whole and has a reading with this number. It is asked before any place is computed: 24 times a number may not fit.
pub fn has_reading(buffer: &[i32], number: usize) -> bool
    ensures { result ≡ specs.has_reading buffer.now number }
{
    buffer.len().is_multiple_of(POSITIONS) && number < buffer.len() / POSITIONS
}

// The reading with this number, as a part of the buffer; an empty part where the buffer holds none.
// Stays: an empty part and no Option: `LendsReading` says of it where it begins, and rule 17.5 hands it on.
pub fn reading_at<'a>(buffer: &'a [i32], number: usize) -> &'a [i32]
    ensures { LendsReading buffer.entry number result }
{
    if !has_reading(buffer, number) {
        return &buffer[..0];
    }
    let from = POSITIONS * number;
    &buffer[from..from + POSITIONS]
}
