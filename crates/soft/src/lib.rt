// The soft decoder: the codeword whose correlation no other reaches, with its reserve; and the figure of a class. Each call answers for every
// reading, and its promise decides the whole answer.
#![tactic(auto)]

ghost use Rattle.std.specs.Prelude.{◌≡◌, List, ℤ, length};
ghost use Rattle.contest.specs.Readings.{Reading, scores};
ghost use Rattle.code.specs.Code.{messages, positions};
ghost use Rattle.classes.specs.Codewords.{word};
ghost use Rattle.columns.specs.Columns.{Sums};
ghost use Rattle.details.specs.Details.{Tops};
ghost use Rattle.soft.specs.Answers.{soft_answer, class_figure_answer};
ghost use Rattle.soft.specs.Calls.{Decides, SoftRule, ClassFigureRule};
ghost use Rattle.soft.specs.Keepers.{Wide};

pub mod kinds;

use columns::{CLASSES, ColumnSums, column_sums};
use contest::Keeper;
use details::class_best;
use figures::largest_figures;
use golay::kinds::{Message, Refusal};
use kinds::Soft;

// The two largest of all. The runner-up has the next figure, or it is the winner's neighbour in its own class: one class alone is looked into.
fn two_largest(sums: &ColumnSums) -> Keeper
    ensures { (xs : List ℤ) → length xs ≡ positions → Sums xs sums.now.values → Tops (scores word xs) 0 messages result }
{
    let figures = largest_figures(sums);
    let own = class_best(sums, figures.at);
    Keeper {
        second: own.second.max(figures.second),
        ..own
    }
}

// The answer, by the two largest: tied where the first does not lead, else with half its lead as the reserve.
fn answered(t: Keeper) -> Result<Soft, Refusal>
    requires { Wide t }
    ensures { (xs : List ℤ) → Reading 2147483647 positions xs → Tops (scores word xs) 0 messages t → Decides xs (soft_answer result) }
{
    if t.best <= t.second {
        return Err(Refusal::Tied);
    }
    let message = Message(t.at);
    Ok(Soft {
        message,
        codeword: golay::encode(message)?,
        correlation: t.best,
        reserve: (t.best - t.second) / 2,
    })
}

// Refuses 1, then 2, then 6.
pub fn soft(reading: &[i32]) -> Result<Soft, Refusal>
    ensures { SoftRule reading.now (soft_answer result) }
{
    reading::check(reading)?; // before any sum
    let sums = column_sums(reading);
    answered(two_largest(&sums))
}

// The largest correlation among the 32 codewords of a class. Refuses 1, then 2, then 11.
// Stays: reading and class stand apart, as the C interface hands them.
pub fn class_figure(reading: &[i32], class: u32) -> Result<i64, Refusal>
    ensures { ClassFigureRule reading.now class (class_figure_answer result) }
{
    reading::check(reading)?;
    if class >= CLASSES {
        return Err(Refusal::ClassAbove);
    }
    let columns = column_sums(reading);
    Ok(class_best(&columns, class).best)
}
