// What a column's sums are made of: its four confidences, in two pairs.
ghost use Rattle.std.specs.Prelude.{ℕ, ◌+◌, ◌*◌, ◌<◌, List, ℤ};
ghost use Rattle.signed.specs.Within.{Within};

// Two confidences, added and subtracted.
#[derive(Clone, Copy)]
pub struct Pair {
    pub sum: i64,
    pub difference: i64,
    ghost narrow_sum: { Within 4294967296 sum },
    ghost narrow_difference: { Within 4294967296 difference },
}

impl Pair {
    ghost use Rattle.code.specs.Code.{positions};
    ghost use Rattle.columns.specs.Columns.{PairOf};

    // The confidences at n and after it.
    fn at(reading: &[i32], n: usize) -> Self
        requires { n < positions }
        ensures { PairOf reading.now n result }
    {
        let a = signed::widened(reading, n);
        let b = signed::widened(reading, n + 1);
        let sum = a + b;
        let difference = a - b;
        Pair { sum, difference }
    }
}

// A column's upper and its lower pair.
#[derive(Clone, Copy)]
pub struct Column {
    pub upper: Pair,
    pub lower: Pair,
}

impl Column {
    ghost use Rattle.columns.specs.Columns.{ColumnOf, SumAt, SumsUpTo};

    // Column i of a reading, counted from 0.
    pub fn at(reading: &[i32], i: usize) -> Self
        requires { i < 6 }
        ensures { ColumnOf reading.now i result }
    {
        let upper = Pair::at(reading, 4 * i);
        let lower = Pair::at(reading, 4 * i + 2);
        Column { upper, lower }
    }

    // One of the eight sums: even 0, 1, w, v, then odd 0, 1, w, v.
    // Stays: parities and characters are numbers by the rules (1.5 and 1.6 of docs/RULES.md), and these two number the sum's place in its column.
    pub fn sum_of(self, n: usize) -> i64
        requires { n < 8 }
        ensures { (xs : List ℤ) (i : ℕ) → ColumnOf xs i self → SumAt xs (8 * i + n) result }
    {
        let u = self.upper.sum;
        let d = self.upper.difference;
        let g = self.lower.sum;
        let h = self.lower.difference;
        match n {
            0 => u + g,
            1 => u - g,
            2 => d + h,
            3 => d - h,
            4 => d - g,
            5 => d + g,
            6 => u - h,
            _ => u + h,
        }
    }

    // Puts in the eight sums of column i.
    pub fn put(self, sums: &mut [i64; 48], i: usize)
        requires { i < 6 }
        ensures { (xs : List ℤ) → ColumnOf xs i self → SumsUpTo xs i sums.old → SumsUpTo xs (i + 1) sums.new }
    {
        for n in 0..8 {
            sums[8 * i + n] = self.sum_of(n);
        }
    }
}
