// What a run begins with, and what it answers.
ghost use Rattle.std.specs.Prelude.{◌≡◌};
ghost use Rattle.run.specs.Runs as runs;

// The number before the first byte, where there is one, and the offset of that byte in the capture.
#[derive(Clone, Copy)]
pub struct Start {
    pub previous: Option<u16>,
    pub offset: u64,
}

// How many bytes of text the run put into the buffer; whether it stopped: with 9 or 10, or, with nothing put, for want of room; how many bytes
// it came through, and the previous number then.
// Stays: a flag and no Refusal: `Runs.ended` speaks of it, and a run without room stops for none.
#[derive(Clone, Copy)]
pub struct Outcome {
    pub put: usize,
    pub stopped: bool,
    pub through: usize,
    pub previous: Option<u16>,
}

// The outcome of a run that has no room.
// Stays: `RunRule`, `run-once` and `never_unrun` say of a run without room that it has this very outcome, and no other run has.
pub fn unrun(previous: Option<u16>) -> Outcome
    ensures { result ≡ runs.unrun previous }
{
    Outcome {
        put: 0,
        stopped: true,
        through: 0,
        previous,
    }
}
