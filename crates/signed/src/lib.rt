// Whole numbers with a sign: what a decoder asks of one. No function refuses a number.
// Stays: what `size`, `negative`, `bit` and `smaller` do is std's; they are public, and docs/PROMISES.md has their promises. `widened` cannot fail: past
// the end there is 0.
#![tactic(auto)]

ghost use Rattle.std.specs.Prelude.{◌≡◌, cond, min, pos, nat_abs, get_or};
ghost use Rattle.signed.specs.Sign.{sign};
ghost use Rattle.signed.specs.Within.{Within};

// The size, which the most negative number has too.
pub fn size(v: i64) -> u64
    ensures { result ≡ nat_abs v }
{
    v.unsigned_abs()
}

pub fn negative(v: i64) -> bool
    ensures { result ≡ sign v }
{
    v.is_negative()
}

// The number at i, wide enough to be negated; past the end 0.
pub fn widened(x: &[i32], i: usize) -> i64
    ensures value { result ≡ get_or x.now i (pos 0) }
    ensures within { Within 2147483648 result }
{
    x.get(i).map_or(0, |v| i64::from(*v))
}

// A sign as a number.
pub fn bit(b: bool) -> u32
    ensures { result ≡ cond b 1 0 }
{
    u32::from(b)
}

// The smaller of two sizes.
pub fn smaller(x: u64, y: u64) -> u64
    ensures { result ≡ min x y }
{
    x.min(y)
}
