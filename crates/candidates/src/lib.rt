// The candidate call (rules 5.7 and 5.8), by the table of error patterns. It answers for every input, and its promise decides the whole answer
// and what the slots hold.
#![tactic(auto)]

ghost use Rattle.std.specs.Prelude.{◌≡◌, ◌<◌, length};
ghost use Rattle.std.specs.Int.Bits.{bit_xor};
ghost use Rattle.code.specs.Code.{words};
ghost use Rattle.candidates.specs.Answers.{candidates_answer};
ghost use Rattle.candidates.specs.Calls.{WritesCandidates};
ghost use Rattle.candidates.specs.Candidates.{Candidates, AtFour};

use golay::kinds::Refusal;
use hard::kinds::Pattern;
use rows::SYNDROMES;

// An error applied to a word.
fn applied(word: u32, error: u32) -> u32
    requires { (word < words) × (error < words) }
    ensures { result ≡ bit_xor word error }
{
    hard::apply(word, Pattern(error)).unwrap()
}

// Writes the six codewords at distance four from a word of syndrome s. Each differs from the word by an error of four ones: its highest place,
// and the pattern of what syndrome is left. Going down the places, the codeword found at one stands before all that follow if the word has a
// one there, and after them if not: so the slots fill from both ends.
fn fill(word: u32, s: u32, slots: &mut [u32])
    requires at_four { AtFour word s }
    requires slots_len { length slots.old ≡ 6 }
    ensures { Candidates word slots.new }
{
    let mut first: usize = 0;
    let mut end: usize = 6;
    for i in (0..24u32).rev() {
        let place: u32 = 1 << i;
        let rest = lookup::pattern(s ^ SYNDROMES[i as usize]);
        if rest < place {
            let candidate = applied(word, place + rest);
            if (word >> i) % 2 == 1 {
                slots[first] = candidate;
                first += 1;
            } else {
                end -= 1;
                slots[end] = candidate;
            }
        }
    }
}

// Writes the six codewords at distance four from a word to six slots, the least first. Refuses 1, then 4, then 8, and then no slot changes.
// Stays: word and slots are two parameters, as the C interface hands them in; `fill` writes where the call does.
pub fn candidates(word: u32, slots: &mut [u32]) -> Result<(), Refusal>
    ensures { WritesCandidates word slots.old (candidates_answer result) slots.new }
{
    if slots.len() != 6 {
        return Err(Refusal::WrongLength);
    }
    let found = hard::find(word)?;
    if found.distance != 4 {
        return Err(Refusal::NotDistanceFour);
    }
    fill(word, rows::syndrome_of(word), slots);
    Ok(())
}
