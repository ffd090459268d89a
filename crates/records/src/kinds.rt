// What reading a capture answers.
use golay::kinds::Refusal;

// What stands at a place: nothing more, a whole record and the place after it, or a reason to stop there.
// Stays: as `Result<Option<usize>, Refusal>` it is no plainer: a stop is an answer there (rule 12.3) and no failure, and `None` would not say that
// the run ends.
#[derive(Clone, Copy)]
pub enum Stands {
    End,
    Record(usize),
    Stopped(Refusal),
}
