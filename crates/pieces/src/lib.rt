// A capture that comes in pieces: what is left of the bytes that are held, kept for the next piece.
#![tactic(auto)]

ghost use Rattle.pieces.specs.Pieces.{Keeps};

// Moves the bytes from a place up to an end to the front, and answers how many that are. Where they are not there nothing is moved, and all up
// to the end are left.
// Stays: what could not fail still cannot: `Keeps` has all of them for the answer then.
pub fn keep(held: &mut [u8], from: usize, end: usize) -> usize
    ensures { Keeps from end held.old held.new result }
{
    if end < from || held.len() < end {
        return end;
    }
    held.copy_within(from..end, 0);
    end - from
}
