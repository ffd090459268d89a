// Three of the kinds of rule 11.6, and the reasons for which a call refuses. A call answers with values, or with an `Err` of its reason.

// A message, 0 to 4,095; a codeword, below 2^24; a syndrome, below 2^12. None is trusted to be in its range: each call checks its number.
// Stays: as one type with a mark for each kind the three would be no plainer: each would still be declared, and be named by its alias.
#[derive(Clone, Copy, Debug, PartialEq, Eq)]
pub struct Message(pub u32);

#[derive(Clone, Copy, Debug, PartialEq, Eq)]
pub struct Codeword(pub u32);

#[derive(Clone, Copy, Debug, PartialEq, Eq)]
pub struct Syndrome(pub u32);

// The fourteen reasons of rule 11.1, each with its number; specs/Refusals.antt says when each applies.
#[derive(Clone, Copy, Debug, PartialEq, Eq)]
pub enum Refusal {
    WrongLength = 1,
    MostNegative = 2,
    MessageAbove = 3,
    WordAbove = 4,
    NotCodeword = 5,
    Tied = 6,
    DistanceFour = 7,
    NotDistanceFour = 8,
    NoMark = 9,
    CutShort = 10,
    ClassAbove = 11,
    CountFull = 12,
    Unsettled = 14,
    NoColumn = 18,
}
