// What two readings are compared to.

// The receiver with the better reading, or neither (rule 17.4), each with its number.
#[derive(Clone, Copy, Debug, PartialEq, Eq)]
pub enum Choice {
    First = 1,
    Second = 2,
    Neither = 0,
}
