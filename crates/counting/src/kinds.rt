// What counting the records of a capture answers.
use golay::kinds::Refusal;
use totals::kinds::Tally;

// The tally after a run over bytes of a capture; why the run stopped, with 9 or 10, where it did; and how many bytes it came through.
#[derive(Clone, Copy)]
pub struct Counted {
    pub tally: Tally,
    pub stop: Option<Refusal>,
    pub through: usize,
}

// The same after a turn, and how many bytes are left after it.
#[derive(Clone, Copy)]
pub struct CountedTurn {
    pub counted: Counted,
    pub left: usize,
}
