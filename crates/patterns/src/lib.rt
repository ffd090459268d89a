// The rule of the error patterns and the nearest codeword: definitions in specs/, laws in proofs/. And what a stored pattern (rule 5.9) means:
// the word that its positions make, and how many they are.
#![tactic(auto)]

ghost use Rattle.std.specs.Prelude.{◌≡◌, ◌≤◌, ◌<◌};
ghost use Rattle.code.specs.Code.{words};
ghost use Rattle.patterns.specs.Positions as positions;

// What a field holds that holds no position.
const NONE: u32 = 31;

// What a field counts in a word: 2^23 where it holds position 1, 1 where it holds position 24, and nothing where it holds 31, past the last.
fn worth(field: u32) -> u32
    requires { field < 32 }
    ensures { (result ≡ positions.worth field) × (result ≤ words) }
{
    16_777_216 >> field
}

// The word that has its ones at the positions in the lowest four fields of an entry.
pub fn spread(entry: u32) -> u32
    ensures { result ≡ positions.spread (positions.fields 4 entry) }
{
    worth(entry / 32_768 % 32)
        + worth(entry / 1_024 % 32)
        + worth(entry / 32 % 32)
        + worth(entry % 32)
}

// How many of the lowest four fields of an entry stand before those at the end that hold none: in a stored pattern its positions, which are as
// many as its ones.
pub fn held(entry: u32) -> u32
    ensures { result ≡ positions.held 4 entry }
{
    let mut left = entry;
    for passed in 0..4 {
        if left % 32 != NONE {
            return 4 - passed;
        }
        left /= 32;
    }
    0
}
