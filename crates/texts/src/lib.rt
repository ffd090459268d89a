// Texts put into a lent buffer at a place: a text as it is, and lines of words and numbers. What does not fit is not begun: no byte of the
// buffer changes, and the answer is the place itself.
#![tactic(auto)]

ghost use Rattle.std.specs.Prelude.{◌≡◌, ◌++◌, ◌+◌, ◌≤◌, ltb, length};
ghost use Rattle.texts.specs.Texts.{line_of, line_of_two};
ghost use Rattle.texts.specs.Buffers.{Puts, Writes};

use itoa::Buffer;

// Copies a text that fits, and answers the place after it.
fn copy(text: &[u8], out: &mut [u8], at: usize) -> usize
    requires { at + length text.now ≤ length out.old }
    ensures { Puts text.now out.old at out.new result }
{
    let next = at + text.len();
    out[at..next].copy_from_slice(text);
    next
}

// Copies two texts that fit, one after the other, and answers the place after both.
fn copy_both(first: &[u8], second: &[u8], out: &mut [u8], at: usize) -> usize
    requires { at + length first.now + length second.now ≤ length out.old }
    ensures { Puts (first.now ++ second.now) out.old at out.new result }
{
    let p = copy(first, out, at);
    copy(second, out, p)
}

// Whether a line goes beyond a buffer of a length: so many bytes of words, and so many more, tested one after the other, since their sum may
// overflow.
fn exceeds(words: usize, more: usize, length: usize, at: usize) -> bool
    ensures { result ≡ ltb length (at + (words + more)) }
{
    length < at || length - at < words || length - at - words < more
}

// A text as it is.
// Stays: out and at as one struct are no plainer: each function that takes it owes one clause more, that it still lends the same buffer.
// Stays: what could not fail still cannot (`Writes`), so where a text does not fit the answer is its place, and no `None`.
pub fn write_text(text: &[u8], out: &mut [u8], at: usize) -> usize
    ensures { Writes text.now out.old at out.new result }
{
    if out.len() < at || out.len() - at < text.len() {
        return at;
    }
    copy(text, out, at)
}

// A word, a number and what the line ends with.
// Stays: as one function over an array of words and numbers this and the next are no plainer: its room would be a sum in a loop, and each caller
// would make an array.
// Stays: `write!` prints a line piece by piece, and one that does not fit is not begun (`Writes`).
pub fn write_one(word: &[u8], n: u64, end: &[u8], out: &mut [u8], at: usize) -> usize
    ensures { Writes (line_of word.now n end.now) out.old at out.new result }
{
    let mut buffer = Buffer::new();
    let digits = buffer.format(n).as_bytes();
    if exceeds(word.len(), digits.len() + end.len(), out.len(), at) {
        return at;
    }
    let p = copy_both(word, digits, out, at);
    copy(end, out, p)
}

// A word, a number, a word, a number and what the line ends with.
pub fn write_two(
    word: &[u8],
    m: u64,
    between: &[u8],
    n: u64,
    end: &[u8],
    out: &mut [u8],
    at: usize,
) -> usize
    ensures { Writes (line_of_two word.now m between.now n end.now) out.old at out.new result }
{
    let (mut one, mut other) = (Buffer::new(), Buffer::new());
    let first = one.format(m).as_bytes();
    let second = other.format(n).as_bytes();
    if exceeds(
        word.len() + between.len(),
        first.len() + second.len() + end.len(),
        out.len(),
        at,
    ) {
        return at;
    }
    let p = copy_both(word, first, out, at);
    let q = copy_both(between, second, out, p);
    copy(end, out, q)
}
