// The run over bytes of a capture that counts the reading of each record, of either kind; and a turn of it over the bytes that are held of a
// capture that comes in pieces.
#![tactic(auto)]

ghost use Rattle.totals.specs.Totals.{totals};
ghost use Rattle.counting.specs.Counting.{stop_number, CountsRun, CountsTurn};

pub mod kinds;

use contents::walk::Walk;
use kinds::{Counted, CountedTurn};
use totals::kinds::Tally;

// The run over the last bytes of the input, or over others. A record that can't be counted is passed over.
pub fn count_records(bytes: &[u8], last: bool, t: Tally, table: &mut [u32]) -> Counted
    ensures { CountsRun last bytes.now (totals t table.old) (totals result.tally table.new) (stop_number result.stop) result.through }
{
    let mut walk = Walk::new(bytes, last);
    let mut tally = t;
    // Stays: tried as `for record in walk.by_ref()`, the proof did not close: the library does not say that `next` of a `&mut` keeps the
    // reference, so nothing is known of the walk after the loop.
    while let Some(record) = walk.next() {
        tally = tally::counted(tally, table, &record.reading).unwrap_or(tally);
    }
    Counted {
        tally,
        stop: walk.stop(),
        through: walk.at,
    }
}

// The run over the first bytes that are held, which more may follow; what makes up no whole record is kept in front. Where so many are not held
// nothing is counted or moved, and all are left.
// Stays: made one with `turns::turn` it is no plainer: a closure would run over the bytes, and its contract name what it lends and changes.
pub fn count_turn(held: &mut [u8], count: usize, t: Tally, table: &mut [u32]) -> CountedTurn
    ensures { CountsTurn count held.old held.new (totals t table.old) (totals result.counted.tally table.new) (stop_number result.counted.stop) result.counted.through result.left }
{
    let Some(bytes) = held.get(..count) else {
        let counted = Counted {
            tally: t,
            stop: None,
            through: 0,
        };
        return CountedTurn {
            counted,
            left: count,
        };
    };
    let counted = count_records(bytes, false, t, table);
    let left = pieces::keep(held, counted.through, count);
    CountedTurn { counted, left }
}
