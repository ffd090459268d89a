// The calls on words, as C is handed them: what a call of a room below answers, as a status and outputs.
// Stays: calls that differ in the call below and the output alone are a function each: the C interface has a call for each.
#![tactic(auto)]

ghost use Rattle.golay.specs.Calls.{encode_rule, read_rule, syndrome_rule};
ghost use Rattle.bytewise.specs.Bytes.{bytes_of};
ghost use Rattle.bytewise.specs.Calls.{write_bytes_rule, read_bytes_rule};
ghost use Rattle.hard.specs.Calls.{Finds, apply_rule, Corrects};
ghost use Rattle.hands.specs.Hands.{HandsBack, HandsBackOne, itself};
ghost use Rattle.onwords.specs.Outputs.{finding, correction, HandsBackCandidates};

use golay::kinds::Message;
use hands::{hand_back, status};
use hard::kinds::Pattern;

pub fn encode(message: u32, codeword: &mut u32) -> u8
    ensures { HandsBack (encode_rule message) itself codeword.old codeword.new result }
{
    hand_back(golay::encode(Message(message)).map(|c| c.0), codeword)
}

pub fn read(word: u32, message: &mut u32) -> u8
    ensures { HandsBack (read_rule word) itself message.old message.new result }
{
    hand_back(golay::read(word).map(|m| m.0), message)
}

pub fn syndrome(word: u32, syndrome: &mut u32) -> u8
    ensures { HandsBack (syndrome_rule word) itself syndrome.old syndrome.new result }
{
    hand_back(golay::syndrome(word).map(|s| s.0), syndrome)
}

pub fn write_bytes(codeword: u32, bytes: &mut [u8]) -> u8
    ensures { HandsBack (write_bytes_rule codeword bytes.old) (λ x. bytes_of codeword) bytes.old bytes.new result }
{
    status(bytewise::write_bytes(codeword, bytes))
}

pub fn read_bytes(bytes: &[u8], codeword: &mut u32) -> u8
    ensures { HandsBack (read_bytes_rule bytes.now) itself codeword.old codeword.new result }
{
    hand_back(bytewise::read_bytes(bytes).map(|c| c.0), codeword)
}

pub fn find(word: u32, pattern: &mut u32, distance: &mut u32) -> u8
    ensures { HandsBackOne (Finds word) itself (finding pattern.old distance.old) (finding pattern.new distance.new) result }
{
    let answer = hard::find(word);
    if let Ok(found) = answer {
        *pattern = found.pattern.0;
        *distance = found.distance;
    }
    status(answer)
}

pub fn apply(word: u32, pattern: u32, applied: &mut u32) -> u8
    ensures { HandsBack (apply_rule word pattern) itself applied.old applied.new result }
{
    hand_back(hard::apply(word, Pattern(pattern)), applied)
}

pub fn correct(word: u32, codeword: &mut u32, distance: &mut u32) -> u8
    ensures { HandsBackOne (Corrects word) itself (correction codeword.old distance.old) (correction codeword.new distance.new) result }
{
    let answer = hard::correct(word);
    if let Ok(corrected) = answer {
        *codeword = corrected.codeword.0;
        *distance = corrected.distance;
    }
    status(answer)
}

pub fn candidates(word: u32, slots: &mut [u32]) -> u8
    ensures { HandsBackCandidates word slots.old slots.new result }
{
    status(candidates::candidates(word, slots))
}
