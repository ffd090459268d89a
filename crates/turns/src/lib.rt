// A turn over the bytes that are held of a capture that comes in pieces: the run over them, and what makes up no whole record kept in front.
#![tactic(auto)]

ghost use Rattle.turns.specs.Turns.{TurnRule};

pub mod kinds;

use kinds::Turned;
use run::kinds::{Start, unrun};

// The run over the first bytes that are held, which begin after a previous number and at an offset of the capture, and which more may follow.
// Where so many are not held, or have no room, nothing is written or moved.
// Stays: count beside held: `TurnRule` answers also where so many are not held.
// Stays: made one with `counting::count_turn` it is no plainer: a closure would run over the bytes, and its contract name what it lends and changes.
pub fn turn(held: &mut [u8], count: usize, start: Start, out: &mut [u8]) -> Turned
    ensures { TurnRule start.previous start.offset count held.old out.old out.new held.new result }
{
    let Some(bytes) = held.get(..count) else {
        return Turned {
            outcome: unrun(start.previous),
            left: count,
            next: start.offset,
        };
    };
    let outcome = run::run(bytes, false, start, out);
    let left = pieces::keep(held, outcome.through, count);
    let next = start.offset + outcome.through as u64;
    Turned {
        outcome,
        left,
        next,
    }
}
