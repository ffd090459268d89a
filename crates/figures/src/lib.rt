// The figures of all 128 classes, by codes: a sum's size times eight, and one where it is negative. The codes of six columns added hold the
// sizes' sum and the signs' parity, and the least code holds the least size, so a figure takes no branch on a sign.
#![tactic(auto)]

ghost use Rattle.std.specs.Prelude.{◌≡◌, ℕ, ◌+◌, ◌*◌, ◌/◌, ◌%◌, ◌≤◌, ◌<◌, min, ℤ, get_or};
ghost use Rattle.signed.specs.Within.{Within};
ghost use Rattle.contest.specs.Figures.{code};
ghost use Rattle.contest.specs.Kept.{Kept, run};
ghost use Rattle.classes.specs.Classes.{classes};
ghost use Rattle.columns.specs.Columns.{far};
ghost use Rattle.pairs.specs.Pairs.{widest, Pairs};
ghost use Rattle.figures.specs.Figures.{Codes, middle_of, last_of, Usable, figure_from, figure_at, KeptUpTo, reached_from};

use columns::ColumnSums;
use contest::Keeper;
use pairs::{pair_leasts, pair_sums};
use signed::smaller;

// Where the codes of a class's third and fourth column stand together, and those of its fifth and sixth.
// Stays: as one array of pairs it is no plainer: the layout gives each of the 128 pairs a line of its own.
const MIDDLE: [u8; 128] = [
    0, 5, 10, 15, 1, 4, 11, 14, 2, 7, 8, 13, 3, 6, 9, 12, 1, 4, 11, 14, 0, 5, 10, 15, 3, 6, 9, 12,
    2, 7, 8, 13, 2, 7, 8, 13, 3, 6, 9, 12, 0, 5, 10, 15, 1, 4, 11, 14, 3, 6, 9, 12, 2, 7, 8, 13, 1,
    4, 11, 14, 0, 5, 10, 15, 16, 21, 26, 31, 17, 20, 27, 30, 18, 23, 24, 29, 19, 22, 25, 28, 17,
    20, 27, 30, 16, 21, 26, 31, 19, 22, 25, 28, 18, 23, 24, 29, 18, 23, 24, 29, 19, 22, 25, 28, 16,
    21, 26, 31, 17, 20, 27, 30, 19, 22, 25, 28, 18, 23, 24, 29, 17, 20, 27, 30, 16, 21, 26, 31,
];

const LAST: [u8; 128] = [
    32, 37, 42, 47, 43, 46, 33, 36, 45, 40, 39, 34, 38, 35, 44, 41, 46, 43, 36, 33, 37, 32, 47, 42,
    35, 38, 41, 44, 40, 45, 34, 39, 39, 34, 45, 40, 44, 41, 38, 35, 42, 47, 32, 37, 33, 36, 43, 46,
    41, 44, 35, 38, 34, 39, 40, 45, 36, 33, 46, 43, 47, 42, 37, 32, 48, 53, 58, 63, 59, 62, 49, 52,
    61, 56, 55, 50, 54, 51, 60, 57, 62, 59, 52, 49, 53, 48, 63, 58, 51, 54, 57, 60, 56, 61, 50, 55,
    55, 50, 61, 56, 60, 57, 54, 51, 58, 63, 48, 53, 49, 52, 59, 62, 57, 60, 51, 54, 50, 55, 56, 61,
    52, 49, 62, 59, 63, 58, 53, 48,
];

// Class k's places, in the one and the other.
// Stays: `k < classes` in three contracts, here and in `details`: a type of its own would be made anew for each turn's k, and be no plainer.
fn places(k: usize) -> (usize, usize)
    requires { k < classes }
    ensures middle { result.0 ≡ middle_of k }
    ensures last { result.1 ≡ last_of k }
    ensures small { (result.0 < 64) × (result.1 < 64) }
{
    (MIDDLE[k] as usize, LAST[k] as usize)
}

fn coded(v: i64) -> u64
    requires { Within 8589934592 v }
    ensures { result ≡ code v }
{
    8 * signed::size(v) + u64::from(signed::negative(v))
}

// The codes of the first two columns: their sum with the parity, and the smaller.
#[derive(Clone, Copy)]
struct FirstPair {
    sum: u64,
    least: u64,
    ghost small_sum: { sum ≤ 2 * widest + 1 },
    ghost small_least: { least ≤ 2 * widest },
}

// The other columns in pairs: their codes added, and the smaller of them.
// Stays: as one array of pairs the sums and leasts are no plainer: `pair_sums` and `pair_leasts`, which are public, each make one of them.
#[derive(Drop)]
struct OtherPairs {
    sums: [u64; 64],
    leasts: [u64; 64],
    ghost usable_sums: { Usable sums },
    ghost usable_leasts: { Usable leasts },
}

impl OtherPairs {
    fn of_codes(codes: &SumCodes) -> Self
        ensures sums { Pairs ◌+◌ codes.now.values result.sums }
        ensures leasts { Pairs min codes.now.values result.leasts }
    {
        let sums = pair_sums(&codes.values);
        let leasts = pair_leasts(&codes.values);
        OtherPairs { sums, leasts }
    }

    // The figure of class k, whose first two codes are added with its parity, so that the sum is odd where the favoured top bits have not that
    // parity (rule 8.4).
    fn figure(&self, first: FirstPair, k: usize) -> i64
        requires { k < classes }
        ensures value { result ≡ figure_from self.now.sums self.now.leasts first.sum first.least k }
        ensures within { Within far result }
    {
        let (i, j) = places(k);
        let s = first.sum + self.sums[i] + self.sums[j];
        let l = smaller(self.leasts[j], smaller(self.leasts[i], first.least));
        (s / 8) as i64 - (2 * (l / 8) * (s % 2)) as i64
    }

    // The four classes from 4 q on, which have their first two columns in common.
    fn take_four(&self, mut t: Keeper, first: FirstPair, q: u32) -> Keeper
        requires { q < 32 }
        ensures { (f : ℕ → ℤ) → ((k : ℕ) → 4 * q ≤ k → k < 4 * q + 4 → f k ≡ figure_from self.now.sums self.now.leasts first.sum first.least k) → KeptUpTo f (4 * q) t → KeptUpTo f (4 * q + 4) result }
    {
        for k in 4 * q..4 * q + 4 {
            t = t.take(self.figure(first, k as usize), k);
        }
        t
    }
}

// The codes of all 48 sums.
#[derive(Drop)]
struct SumCodes {
    values: [u64; 48],
    ghost small: { (j : ℕ) → get_or values j 0 ≤ widest },
}

impl SumCodes {
    fn of_sums(sums: &ColumnSums) -> Self
        ensures { Codes sums.now.values result.values }
    {
        let mut values = [0; 48];
        for (n, v) in sums.values.iter().enumerate() {
            values[n] = coded(*v);
        }
        SumCodes { values }
    }

    // The first two columns of the four classes from 4 q on, with their parity.
    fn first_pair(&self, q: usize) -> FirstPair
        requires { q < 32 }
        ensures sum { result.sum ≡ get_or self.now.values (q / 4) 0 + get_or self.now.values (8 + q / 16 * 4 + q % 4) 0 + q / 16 }
        ensures least { result.least ≡ min (get_or self.now.values (q / 4) 0) (get_or self.now.values (8 + q / 16 * 4 + q % 4) 0) }
    {
        let x = self.values[q / 4];
        let y = self.values[8 + q / 16 * 4 + q % 4];
        FirstPair {
            sum: x + y + (q / 16) as u64,
            least: smaller(x, y),
        }
    }

    // The two largest of all figures.
    fn largest(&self) -> Keeper
        ensures { KeptUpTo (figure_at self.now.values) classes result }
    {
        let others = OtherPairs::of_codes(self);
        let mut t = Keeper {
            best: i64::MIN,
            second: i64::MIN,
            at: 0,
        };
        for q in 0..32 {
            t = others.take_four(t, self.first_pair(q as usize), q);
        }
        t
    }
}

// The two largest figures of the classes, and the class of the largest: the first of them where they share it.
pub fn largest_figures(sums: &ColumnSums) -> Keeper
    ensures { Kept (run (reached_from sums.now.values) classes) result }
{
    SumCodes::of_sums(sums).largest()
}
