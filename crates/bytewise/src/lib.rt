// Codewords as three bytes (rules 10.1 to 10.3). Each call answers for every input, and its promise decides the whole answer and what the
// buffer holds.
#![tactic(auto)]

ghost use Rattle.std.specs.Prelude.{◌≡◌};
ghost use Rattle.bytewise.specs.Answers.{write_bytes_answer, read_bytes_answer};
ghost use Rattle.bytewise.specs.Calls.{read_bytes_rule, WritesBytes};

use golay::WORDS;
use golay::kinds::{Codeword, Refusal};
use rows::is_codeword;

// Writes a codeword to three bytes, position 1 most significant. Refuses 1, then 4, then 5, and then no byte changes.
#[tactic(auto, unfolding(crate::specs::Calls::write_bytes_rule))]
pub fn write_bytes(word: u32, bytes: &mut [u8]) -> Result<(), Refusal>
    ensures { WritesBytes word bytes.old (write_bytes_answer result) bytes.new }
{
    if bytes.len() != 3 {
        return Err(Refusal::WrongLength);
    }
    if word >= WORDS {
        return Err(Refusal::WordAbove);
    }
    if is_codeword(word) {
        [_, bytes[0], bytes[1], bytes[2]] = word.to_be_bytes();
        return Ok(());
    }
    Err(Refusal::NotCodeword)
}

// The codeword that three bytes hold. Refuses 1, then 5.
#[tactic(auto, unfolding(crate::specs::Calls::read_bytes_rule))]
pub fn read_bytes(bytes: &[u8]) -> Result<Codeword, Refusal>
    ensures { read_bytes_answer result ≡ read_bytes_rule bytes.now }
{
    let [first, second, third] = bytes else {
        return Err(Refusal::WrongLength);
    };
    let word = u32::from_be_bytes([0, *first, *second, *third]);
    if !is_codeword(word) {
        return Err(Refusal::NotCodeword);
    }
    Ok(Codeword(word))
}
