// What a turn answers.
use run::kinds::Outcome;

// The run's outcome; how many bytes are left after a turn, and the offset of the first of them.
#[derive(Clone, Copy)]
pub struct Turned {
    pub outcome: Outcome,
    pub left: usize,
    pub next: u64,
}
