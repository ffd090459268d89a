// A tally, and what one more answer of the soft decoder makes of it. Each call answers for every input; where something is full nothing moves.
#![tactic(auto)]

ghost use Rattle.std.specs.Prelude.{◌≡◌, ◌+◌};
ghost use Rattle.totals.specs.Totals.{numbered, tally_answer, count_answer, count_rule, total_rule, smallest_with, accepted_rule, refused_rule};

pub mod kinds;

use golay::kinds::Refusal;
use kinds::Tally;

const MOST_TOTAL: u64 = i64::MAX as u64;

// One more of a count. Refuses 12.
fn one_more(n: u32) -> Result<u32, Refusal>
    ensures { count_answer result ≡ count_rule n }
{
    n.checked_add(1).ok_or(Refusal::CountFull)
}

// A total with a reserve more. Refuses 12.
fn total_with(total: u64, reserve: u64) -> Result<u64, Refusal>
    ensures { count_answer result ≡ total_rule total reserve }
{
    match total.checked_add(reserve) {
        Some(sum) if sum <= MOST_TOTAL => Ok(sum),
        _ => Err(Refusal::CountFull),
    }
}

// The smallest reserve, with one more; 0 is none.
fn smallest_with(smallest: u64, reserve: u64) -> u64
    ensures { result ≡ smallest_with smallest reserve }
{
    if smallest == 0 {
        reserve
    } else {
        smallest.min(reserve)
    }
}

// Counts a reading that is accepted, and whose message has a count so far. Refuses 12.
pub fn count_accepted(t: Tally, count: u32, reserve: u64) -> Result<Tally, Refusal>
    ensures { tally_answer result ≡ accepted_rule t count reserve }
{
    one_more(count)?;
    Ok(Tally {
        read: one_more(t.read)?,
        accepted: one_more(t.accepted)?,
        smallest: smallest_with(t.smallest, reserve),
        total: total_with(t.total, reserve)?,
        ..t
    })
}

// Counts a reading that the soft decoder refuses with a number: 2, 6, or another, which is the count's own refusal. Refuses that, or 12.
// Stays: a number and no Refusal: `refused_rule` says of every number but 2 and 6 that it is handed back.
pub fn count_refused(t: Tally, number: u8) -> Result<Tally, u8>
    ensures { numbered result ≡ refused_rule t number }
{
    match number {
        2 => Ok(Tally {
            read: one_more(t.read)?,
            refused_2: one_more(t.refused_2)?,
            ..t
        }),
        6 => Ok(Tally {
            read: one_more(t.read)?,
            refused_6: one_more(t.refused_6)?,
            ..t
        }),
        _ => Err(number),
    }
}
