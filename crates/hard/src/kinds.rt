// An error pattern, and what finding and correction tell of a word.
use golay::kinds::Codeword;

// An error pattern, below 2^24: the fourth kind of rule 11.6. It is not trusted to be in its range: a call that takes one checks its number.
// Stays: a type of its own, of one shape with golay's three, so that no kind is taken for another (rule 11.6).
#[derive(Clone, Copy, Debug, PartialEq, Eq)]
pub struct Pattern(pub u32);

// Stays: two structs of one shape; in one generic struct the first field would have no name that says a pattern or a codeword.

// The pattern of the word's syndrome, and how many ones it has: the word's distance from the code.
#[derive(Clone, Copy, Debug, PartialEq, Eq)]
pub struct Found {
    pub pattern: Pattern,
    pub distance: u32,
}

// The codeword and its distance from the word.
#[derive(Clone, Copy, Debug, PartialEq, Eq)]
pub struct Corrected {
    pub codeword: Codeword,
    pub distance: u32,
}
