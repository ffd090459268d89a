// The code's linear maps over plain numbers: the rows that each adds up, one for each bit of a word, its lowest first. Each row follows from the
// definitions in crates/code. Of a number with more bits than a message or a word has, each map takes the lowest.
#![tactic(auto)]

ghost use Rattle.std.specs.Prelude.{◌≡◌, [], ◌∷◌, ◌%◌, ◌<◌};
ghost use Rattle.binary.specs.Words.{row_sum};
ghost use Rattle.code.specs.Code.{messages, words, codeword_of, message_of, is_codeword, syndrome_of};
ghost use Rattle.rows.specs.Columns.{column_syndrome};

// The twelve codewords of rule 3.6, from message 001 up to message 800.
const CODEWORDS: [u32; 12] = [
    0x0000FF, 0x000F0F, 0x00F00F, 0x0F000F, 0xF0000F, 0x003333, 0x005555, 0x030356, 0x050563,
    0x300365, 0x500536, 0x777778,
];

// The syndromes of the single positions, from position 24 up to position 1.
pub const SYNDROMES: [u32; 24] = [
    0x083, 0x082, 0x081, 0x0C0, 0x10C, 0x108, 0x104, 0x140, 0x230, 0x220, 0x210, 0x240, 0x43F,
    0x42A, 0x415, 0x440, 0x836, 0x82D, 0x81B, 0x840, 0xFF9, 0xFE7, 0xFDE, 0xF80,
];

// Those of each column, from its lowest up.
const COLUMN_6: [u32; 4] = [SYNDROMES[0], SYNDROMES[1], SYNDROMES[2], SYNDROMES[3]];

const COLUMN_5: [u32; 4] = [SYNDROMES[4], SYNDROMES[5], SYNDROMES[6], SYNDROMES[7]];

const COLUMN_4: [u32; 4] = [SYNDROMES[8], SYNDROMES[9], SYNDROMES[10], SYNDROMES[11]];

const COLUMN_3: [u32; 4] = [SYNDROMES[12], SYNDROMES[13], SYNDROMES[14], SYNDROMES[15]];

const COLUMN_2: [u32; 4] = [SYNDROMES[16], SYNDROMES[17], SYNDROMES[18], SYNDROMES[19]];

const COLUMN_1: [u32; 4] = [SYNDROMES[20], SYNDROMES[21], SYNDROMES[22], SYNDROMES[23]];

// The message bits that a one at each position puts in, from position 24 up to position 1.
const MESSAGE_BITS: [u32; 24] = [
    0x000, 0x000, 0x000, 0x000, 0x000, 0x000, 0x000, 0x001, 0x000, 0x000, 0x000, 0x002, 0x060,
    0x040, 0x020, 0x004, 0x180, 0x100, 0x080, 0x008, 0xE00, 0xC00, 0xA00, 0x810,
];

// The exclusive or of the rows at the ones of word, lowest bit first.
fn row_sum(rows: &[u32], word: u32) -> u32
    ensures { result ≡ row_sum rows.now word }
{
    let mut sum: u32 = 0;
    let mut left = word;
    for row in rows {
        sum ^= left % 2 * row;
        left /= 2;
    }
    sum
}

// The codeword of a message, added up from the twelve.
pub fn codeword_of(message: u32) -> u32
    ensures { result ≡ codeword_of (message % messages) }
{
    row_sum(&CODEWORDS, message)
}

// The message that a codeword has, added up from its positions.
pub fn message_of(word: u32) -> u32
    ensures { result ≡ message_of (word % words) }
{
    row_sum(&MESSAGE_BITS, word)
}

// The exclusive or of the rows at the ones of a column, a for its lowest bit.
// Stays: by row_sum, whose loop the compiler lays out too late, a syndrome takes 77 instructions more, and find misses its 110.
fn four_rows(a: u32, b: u32, c: u32, d: u32, column: u32) -> u32
    ensures { result ≡ row_sum (a ∷ b ∷ c ∷ d ∷ []) column }
{
    (column % 2 * a)
        ^ ((column / 2 % 2 * b) ^ ((column / 2 / 2 % 2 * c) ^ (column / 2 / 2 / 2 % 2 * d)))
}

// The same, found among those of all sixteen columns. The compiler lays the loop out turn by turn; where it knows the rows, each turn's sum is
// then a number, and the sixteen numbers become a table in the program's text.
fn column_syndrome(rows: [u32; 4], column: u32) -> u32
    requires { column < 16 }
    ensures { result ≡ column_syndrome rows column }
{
    let [a, b, c, d] = rows;
    let mut found: u32 = 0;
    for i in 0..16 {
        if i == column {
            found = four_rows(a, b, c, d, i);
        }
    }
    found
}

// The sum of the syndromes of the six columns, the last column first.
pub fn syndrome_of(word: u32) -> u32
    ensures { result ≡ syndrome_of (word % words) }
{
    column_syndrome(COLUMN_6, word % 16)
        ^ column_syndrome(COLUMN_5, word / 16 % 16)
        ^ column_syndrome(COLUMN_4, word / 256 % 16)
        ^ column_syndrome(COLUMN_3, word / 4_096 % 16)
        ^ column_syndrome(COLUMN_2, word / 65_536 % 16)
        ^ column_syndrome(COLUMN_1, word / 1_048_576 % 16)
}

// Whether a word is a codeword: its syndrome says it (4.2).
pub fn is_codeword(word: u32) -> bool
    ensures { result ≡ is_codeword (word % words) }
{
    syndrome_of(word) == 0
}
