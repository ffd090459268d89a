// The codes of two columns together: of columns 3 and 4, and of 5 and 6, for each parity and each two characters. A class's figure takes two of
// these pairs in place of four codes.
#![tactic(auto)]

ghost use Rattle.std.specs.Prelude.{ℕ, ◌+◌, ◌≤◌, min, get_or};
ghost use Rattle.pairs.specs.Pairs.{widest, Pairs, PairsBy};

use signed::smaller;

// The codes of columns 3 and 4, then of 5 and 6, by a rule for two codes: for each parity, each character of the first and each of the second.
fn pairs_by<F: Fn(u64, u64) -> u64>(codes: &[u64; 48], rule: F) -> [u64; 64]
    requires { (i k : ℕ) → F.pre rule (get_or codes.now i 0) (get_or codes.now k 0) }
    ensures { PairsBy (F.post rule) codes.now result }
{
    let mut pairs = [0; 64];
    for q in 0..16 {
        let x = codes[16 + q / 8 * 16 + q % 8];
        let i = 24 + q / 8 * 16 + q % 8 / 4 * 4;
        let n = 4 * q;
        pairs[n] = rule(x, codes[i]);
        pairs[n + 1] = rule(x, codes[i + 1]);
        pairs[n + 2] = rule(x, codes[i + 2]);
        pairs[n + 3] = rule(x, codes[i + 3]);
    }
    pairs
}

// The codes added.
pub fn pair_sums(codes: &[u64; 48]) -> [u64; 64]
    requires { (j : ℕ) → get_or codes.now j 0 ≤ widest }
    ensures { Pairs ◌+◌ codes.now result }
{
    pairs_by(codes, |x, y| x + y)
}

// The smaller of the two, in the same places.
pub fn pair_leasts(codes: &[u64; 48]) -> [u64; 64]
    ensures { Pairs min codes.now result }
{
    pairs_by(codes, smaller)
}
