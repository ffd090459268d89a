// Which of its two interpretations a column favours in a class, and how strongly. The call answers for every input, and its promise decides the
// whole answer.
#![tactic(auto)]

ghost use Rattle.std.specs.Prelude.{◌≡◌};
ghost use Rattle.favours.specs.Answers.{column_figure_answer};
ghost use Rattle.favours.specs.Calls.{column_figure_rule};

use columns::{CLASSES, class_column};
use golay::kinds::Refusal;

// The figure of a column in a class, with its sign: positive where top bit 0 is favoured. Refuses 1, then 2, then 11, then 18.
// Stays: reading, class and column stand apart, as the C interface hands them.
pub fn column_figure(reading: &[i32], class: u32, column: u32) -> Result<i64, Refusal>
    ensures { column_figure_answer result ≡ column_figure_rule reading.now class column }
{
    reading::check(reading)?;
    if class >= CLASSES {
        return Err(Refusal::ClassAbove);
    }
    match column {
        1..=6 => Ok(class_column(reading, class, (column - 1) as usize)),
        _ => Err(Refusal::NoColumn),
    }
}
