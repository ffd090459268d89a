// What each column of a reading says for each parity and character: eight sums a column, those of the interpretations with top bit 0. And which
// of them a class has: its parity, and its character in each column.
#![tactic(auto)]

ghost use Rattle.std.specs.Prelude.{ℕ, ◌<◌, ◌≡◌, get_or};
ghost use Rattle.contest.specs.Readings.{Reading};
ghost use Rattle.code.specs.Code.{positions};
ghost use Rattle.classes.specs.Classes.{characters_of};
ghost use Rattle.columns.specs.Columns.{SumsWithin, Sums, front, column_at};

mod parts;

use parts::Column;

// A class is a number below this.
pub const CLASSES: u32 = 128;

// All 48 column sums of a reading, eight a column. No sum has a size above four times 2^31: so who takes them may add a few.
#[derive(Clone, Copy)]
pub struct ColumnSums {
    pub values: [i64; 48],
    pub ghost within: { SumsWithin values },
}

// The sums of all six columns. Of a valid reading alone: so it is a proved fact of each caller that the check for the most negative number
// stands before them.
pub fn column_sums(reading: &[i32]) -> ColumnSums
    requires { Reading 2147483647 positions reading.now }
    ensures { Sums reading.now result.values }
{
    let mut values: [i64; 48] = [0; 48];
    for i in 0..6 {
        Column::at(reading, i).put(&mut values, i);
    }
    ColumnSums { values }
}

// Products of characters, four in a row: by 0, by 1, by w, by v.
const PRODUCTS: [usize; 16] = [0, 0, 0, 0, 0, 1, 2, 3, 0, 2, 3, 1, 0, 3, 1, 2];

// The characters of class k, the first column's first, by its lowest six bits.
pub fn characters(k: usize) -> [usize; 6]
    ensures result_value { front 6 result ≡ characters_of k }
    ensures by_index { (j : ℕ) → get_or result j 0 < 4 }
{
    let a = k / 16 % 4;
    let b = k / 4 % 4;
    let c = k % 4;
    let d = a ^ b ^ c;
    let e = PRODUCTS[a * 4 + 3] ^ PRODUCTS[b * 4 + 2] ^ c;
    let f = PRODUCTS[a * 4 + 2] ^ PRODUCTS[b * 4 + 3] ^ c;
    [a, b, c, d, e, f]
}

// The sum of one column for the parity and the character that a class has there, by the class's lowest seven bits; 0 past the last column.
// Stays: what could not fail still cannot: `column_at` has the 0.
pub fn class_column(reading: &[i32], class: u32, i: usize) -> i64
    ensures { result ≡ column_at reading.now class i }
{
    if i >= 6 {
        return 0;
    }
    let k = class as usize;
    let x = characters(k);
    Column::at(reading, i).sum_of(k / 64 % 2 * 4 + x[i])
}
