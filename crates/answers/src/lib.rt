// The line of a record. What it tells of the reading is what the soft decoder answers.
// Stays: out and at are two parameters, as in `texts`.
#![tactic(auto)]

ghost use Rattle.answers.specs.Telling.{Tells};

use sequence::kinds::Follows;

// A line that does not fit is not begun, as in `lines`.
pub fn write_answer(reading: &[i32], follows: Follows, out: &mut [u8], at: usize) -> usize
    ensures { Tells reading.now follows out.old at out.new result }
{
    match soft::soft(reading) {
        Ok(values) => {
            let reserve = signed::size(values.reserve);
            lines::write_accepted(values.message.0, reserve, follows, out, at)
        }
        Err(reason) => lines::write_refused(u8::from(reason), follows, out, at),
    }
}
