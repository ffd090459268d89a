// The link report's tally: readings counted one by one, each message's in a lent table. Each call answers for every input, and a reading that
// can't be counted moves nothing.
#![tactic(auto)]

ghost use Rattle.totals.specs.Totals.{totals};
ghost use Rattle.tally.specs.Counts.{Counts, tally_after, status_of};

use golay::MESSAGES;
use golay::kinds::Refusal;
use totals::kinds::Tally;
use totals::{count_accepted, count_refused};

// A table has a count for each message.
pub const TABLE: usize = MESSAGES as usize;

// Counts a reading, by value: the tally after it. Refuses 1, then 12.
// Stays: an error that is a number, as `count_refused` hands it back.
pub fn counted(t: Tally, counts: &mut [u32], reading: &[i32]) -> Result<Tally, u8>
    ensures { Counts reading.now (totals t counts.old) (totals (tally_after t result) counts.new) (status_of result) }
{
    if counts.len() != TABLE {
        return Err(u8::from(Refusal::WrongLength));
    }
    match soft::soft(reading) {
        Ok(values) => {
            let count = &mut counts[values.message.0 as usize];
            let tally = count_accepted(t, *count, signed::size(values.reserve))?;
            *count += 1;
            Ok(tally)
        }
        Err(reason) => count_refused(t, u8::from(reason)),
    }
}

// The same, handed back whole: the tally after it, which a refusal leaves as it was, and 0 where the reading was counted, else the number.
// Stays: the C interface asks for the number, and for 0 where the reading was counted.
fn step(t: Tally, counts: &mut [u32], reading: &[i32]) -> (Tally, u8)
    ensures { Counts reading.now (totals t counts.old) (totals result.0 counts.new) result.1 }
{
    match counted(t, counts, reading) {
        Ok(tally) => (tally, 0),
        Err(number) => (t, number),
    }
}

// Counts a reading, in place: three statements, and what is decided is decided by the step (rule 15.11). Refuses 1, then 12.
pub fn count(tally: &mut Tally, counts: &mut [u32], reading: &[i32]) -> u8
    ensures { Counts reading.now (totals tally.old counts.old) (totals tally.new counts.new) result }
{
    let (after, status) = step(*tally, counts, reading);
    *tally = after;
    status
}
