// What a call for C returns and writes. Each function answers for every input, and its promise decides all that it returns and leaves.
#![tactic(auto)]

ghost use Rattle.std.specs.Prelude.{◌≡◌};
ghost use Rattle.golay.specs.Answers.{answer_of};
ghost use Rattle.hands.specs.Hands.{returned, HandsBack, itself};

use golay::kinds::Refusal;

// A call's status: 0 for an answer, else the refusal's number.
// Stays: a number and no Result, as the C interface has it (rule 11.7).
pub fn status<T: Copy>(answer: Result<T, Refusal>) -> u8
    ensures { result ≡ returned (answer_of itself answer) }
{
    match answer {
        Ok(_) => 0,
        Err(reason) => u8::from(reason),
    }
}

// A call's status, and its output: the value, or on a refusal what it held before.
pub fn hand_back<T: Copy>(answer: Result<T, Refusal>, place: &mut T) -> u8
    ensures { HandsBack (answer_of itself answer) itself place.old place.new result }
{
    if let Ok(value) = &answer {
        *place = *value;
    }
    status(answer)
}
