// The choice between two answers of the soft decoder, by their reserves. Both functions answer for every input.
#![tactic(auto)]

ghost use Rattle.std.specs.Prelude.{◌≡◌};
ghost use Rattle.soft.specs.Answers.{soft_answer};
ghost use Rattle.choices.specs.Choices.{receiver, reserve_of, preferred};

pub mod kinds;

use golay::kinds::Refusal;
use kinds::Choice;
use soft::kinds::Soft;

// The answer with the larger reserve, the first where they are equal; a refusal has none (rule 17.3).
pub fn larger_reserve(first: Result<Soft, Refusal>, second: Result<Soft, Refusal>) -> Choice
    ensures { receiver result ≡ preferred (reserve_of (soft_answer first)) (reserve_of (soft_answer second)) }
{
    match (first, second) {
        (Ok(one), Ok(other)) if other.reserve <= one.reserve => Choice::First,
        (Ok(_), Ok(_)) => Choice::Second,
        (Ok(_), Err(_)) => Choice::First,
        (Err(_), Ok(_)) => Choice::Second,
        (Err(_), Err(_)) => Choice::Neither,
    }
}

// The number of a choice (rule 17.4).
impl From<Choice> for u8 {
    ghost from_gives = { λ choice n. n ≡ receiver choice };

    fn from(choice: Choice) -> u8
        ensures { result ≡ receiver choice }
    {
        choice as u8
    }
}
