// One class in detail: its two largest correlations and the message of the largest, from its six sums.
#![tactic(auto)]

ghost use Rattle.std.specs.Prelude.{List, [], ◌∷◌, ℕ, ◌+◌, ◌*◌, ◌<◌, ℤ};
ghost use Rattle.signed.specs.Within.{Within};
ghost use Rattle.classes.specs.Classes.{classes, parity_of, characters_of};
ghost use Rattle.columns.specs.Columns.{picks};
ghost use Rattle.details.specs.Details.{Held, Few, Tops, Settled, in_class};

use columns::{ColumnSums, characters};
use contest::Keeper;
use signed::{bit, smaller};

// Above all sizes, and above what six of them come to.
const FAR: u64 = 1 << 40;

// What columns come to, however many: the sizes of their sums added, the least two of them, the signs and their parity, and the top bits of
// the other parity that lose the least, which go against the sign of the least size alone.
// Stays: a size above all for one that is not there, and no Option: `Held` has it so.
#[derive(Drop)]
struct Sizes {
    total: u64,
    least: u64,
    next: u64,
    odd: u32,
    signs: u32,
    other: u32,
}

impl Sizes {
    // No column yet: the least two are above all sizes.
    fn no_columns() -> Self
        ensures { Held [] result }
    {
        Sizes {
            total: 0,
            least: FAR,
            next: FAR,
            odd: 0,
            signs: 0,
            other: 0,
        }
    }

    // One column more, whose sum is f. A sum of zero has size zero, so it is the least and to go against its sign costs nothing.
    fn with_column(self, f: i64) -> Self
        requires few { Few 5 self }
        requires within { Within 8589934592 f }
        ensures { (fs : List ℤ) → Held fs self → Held (f ∷ fs) result }
    {
        let x = signed::size(f);
        let s = bit(signed::negative(f));
        let total = self.total + x;
        let odd = (self.odd + s) % 2;
        let signs = 2 * self.signs + s;
        if x < self.least {
            Sizes {
                total,
                least: x,
                next: self.least,
                odd,
                signs,
                other: 2 * self.signs + (1 - s),
            }
        } else {
            Sizes {
                total,
                least: self.least,
                next: smaller(x, self.next),
                odd,
                signs,
                other: 2 * self.other + s,
            }
        }
    }

    // The two largest of a class of parity p whose messages start at base. Where the signs keep the top row rule they win, and the next goes
    // against two of them; where they break it, the best goes against the least and the next against the one after.
    fn settled(self, p: u32, base: u32) -> Keeper
        requires few { Few 6 self }
        requires p_bound { (p < 2) × (base < 4096) }
        ensures { Settled self p base result }
    {
        let total = self.total as i64;
        if self.odd == p {
            Keeper {
                best: total,
                second: total - (2 * (self.least + self.next)) as i64,
                at: base + self.signs / 2,
            }
        } else {
            Keeper {
                best: total - (2 * self.least) as i64,
                second: total - (2 * self.next) as i64,
                at: base + self.other / 2,
            }
        }
    }
}

// The six columns of class k.
fn class_sizes(sums: &ColumnSums, k: usize) -> Sizes
    requires { k < classes }
    ensures { Held (picks sums.now.values (parity_of k) (characters_of k)) result }
{
    let p = k / 64 % 2;
    let x = characters(k);
    let mut t = Sizes::no_columns();
    for i in 0..6 {
        t = t.with_column(sums.values[i * 8 + p * 4 + x[i]]);
    }
    t
}

// The two largest of a class. Where the second reaches the largest, which of their messages is named is left open.
pub fn class_best(sums: &ColumnSums, class: u32) -> Keeper
    requires { class < classes }
    ensures { Tops (in_class sums.now.values class) (class * 32) (class * 32 + 32) result }
{
    class_sizes(sums, class as usize).settled(class / 64 % 2, class * 32)
}
