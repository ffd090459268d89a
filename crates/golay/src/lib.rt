// Messages, codewords and syndromes. Each call answers for every input, and its promise decides the whole answer.
#![tactic(auto)]

ghost use Rattle.std.specs.Prelude.{◌≡◌};
ghost use Rattle.binary.specs.Words as binary;
ghost use Rattle.golay.specs.Refusals.{number};
ghost use Rattle.golay.specs.Answers.{encode_answer, read_answer, syndrome_answer, distance_answer};
ghost use Rattle.golay.specs.Calls.{encode_rule, read_rule, syndrome_rule, distance_rule};

pub mod kinds;

use kinds::{Codeword, Message, Refusal, Syndrome};
use rows::{codeword_of, is_codeword, message_of, syndrome_of};

// A word's positions; a reading has a confidence for each.
pub const POSITIONS: usize = 24;

// A message is a number below this.
pub const MESSAGES: u32 = 4_096;

// A word is a number below this.
pub const WORDS: u32 = 16_777_216;

// The number of a refusal (rule 11.1).
impl From<Refusal> for u8 {
    ghost from_gives = { λ reason n. n ≡ number reason };

    fn from(reason: Refusal) -> u8
        ensures { result ≡ number reason }
    {
        reason as u8
    }
}

// The codeword of a message. Refuses 3.
#[tactic(auto, unfolding(crate::specs::Calls::encode_rule))]
pub fn encode(message: Message) -> Result<Codeword, Refusal>
    ensures { encode_answer result ≡ encode_rule message.0 }
{
    let m = message.0;
    if m >= MESSAGES {
        return Err(Refusal::MessageAbove);
    }
    Ok(Codeword(codeword_of(m)))
}

// The message of a codeword. Refuses 4, then 5.
#[tactic(auto, unfolding(crate::specs::Calls::read_rule))]
pub fn read(word: u32) -> Result<Message, Refusal>
    ensures { read_answer result ≡ read_rule word }
{
    if word >= WORDS {
        return Err(Refusal::WordAbove);
    }
    if !is_codeword(word) {
        return Err(Refusal::NotCodeword);
    }
    Ok(Message(message_of(word)))
}

// The syndrome of any word. Refuses 4.
#[tactic(auto, unfolding(crate::specs::Calls::syndrome_rule))]
pub fn syndrome(word: u32) -> Result<Syndrome, Refusal>
    ensures { syndrome_answer result ≡ syndrome_rule word }
{
    if word >= WORDS {
        return Err(Refusal::WordAbove);
    }
    Ok(Syndrome(syndrome_of(word)))
}

// How many ones a number of 32 bits has (rule 15.7).
pub fn ones(number: u32) -> u32
    ensures { result ≡ binary.ones 32 number }
{
    u32::count_ones(number)
}

// In how many positions two words differ. Refuses 4.
#[tactic(auto, unfolding(crate::specs::Calls::distance_rule))]
pub fn distance(a: u32, b: u32) -> Result<u32, Refusal>
    ensures { distance_answer result ≡ distance_rule a b }
{
    if a >= WORDS {
        return Err(Refusal::WordAbove);
    }
    if b >= WORDS {
        return Err(Refusal::WordAbove);
    }
    Ok(ones(a ^ b))
}
