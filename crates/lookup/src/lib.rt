// The table in the program (rules 15.2 and 15.8): the error pattern of a syndrome, as it is stored and as a word.
#![tactic(auto)]

ghost use Rattle.std.specs.Prelude.{◌≡◌, ◌%◌, ◌<◌};
ghost use Rattle.code.specs.Code.{syndromes};
ghost use Rattle.patterns.specs.Patterns.{IsPattern};
ghost use Rattle.patterns.specs.Positions.{Stored, entry_at};

// Stays: two arrays; one of pairs would take 16 bytes for each ten, and rule 15.8 allows 12,288 for all.
mod entries;

// Entry k of the four that two numbers hold.
fn entry_at(low: u64, high: u16, k: u32) -> u32
    requires { k < 4 }
    ensures { result ≡ entry_at low high k }
{
    ((high >> (k * 4)) % 16) as u32 * 65_536 + ((low >> (k * 16)) % 65_536) as u32
}

// The stored pattern of the syndrome in the lowest twelve bits of s.
pub fn entry(s: u32) -> u32
    ensures { Stored (s % syndromes) result }
{
    let at = (s / 4 % 1_024) as usize;
    let low = entries::LOWS[at];
    let high = entries::HIGHS[at];
    entry_at(low, high, s % 4)
}

// The pattern of the syndrome in the lowest twelve bits of s.
pub fn pattern(s: u32) -> u32
    ensures { IsPattern (s % syndromes) result }
{
    patterns::spread(entry(s))
}
