// The calls on readings, as C is handed them: what a call of a room below answers, as a status and outputs.
// Stays: calls that differ in the call below alone are a function each, with an output for each number: the C interface has them so.
#![tactic(auto)]

ghost use Rattle.favours.specs.Calls.{column_figure_rule};
ghost use Rattle.soft.specs.Calls.{ClassFigureRule, SoftRule};
ghost use Rattle.quick.specs.Quick.{QuickRule};
ghost use Rattle.receivers.specs.Calls.{Chooses};
ghost use Rattle.hands.specs.Hands.{HandsBack, HandsBackOne, itself};
ghost use Rattle.onreadings.specs.Outputs.{values};

use hands::{hand_back, status};

pub fn soft(
    reading: &[i32],
    message: &mut u32,
    codeword: &mut u32,
    correlation: &mut i64,
    reserve: &mut i64,
) -> u8
    ensures { HandsBackOne (SoftRule reading.now) itself (values message.old codeword.old correlation.old reserve.old) (values message.new codeword.new correlation.new reserve.new) result }
{
    let answer = soft::soft(reading);
    if let Ok(s) = answer {
        *message = s.message.0;
        *codeword = s.codeword.0;
        *correlation = s.correlation;
        *reserve = s.reserve;
    }
    status(answer)
}

pub fn quick(reading: &[i32], codeword: &mut u32) -> u8
    ensures { HandsBackOne (QuickRule reading.now) itself codeword.old codeword.new result }
{
    hand_back(quick::quick(reading).map(|c| c.0), codeword)
}

pub fn class_figure(reading: &[i32], class_number: u32, figure: &mut i64) -> u8
    ensures { HandsBackOne (ClassFigureRule reading.now class_number) itself figure.old figure.new result }
{
    hand_back(soft::class_figure(reading, class_number), figure)
}

pub fn column_figure(reading: &[i32], class_number: u32, column: u32, figure: &mut i64) -> u8
    ensures { HandsBack (column_figure_rule reading.now class_number column) itself figure.old figure.new result }
{
    hand_back(
        favours::column_figure(reading, class_number, column),
        figure,
    )
}

// The choice itself, and no status: nothing is refused.
pub fn better(first: &[i32], second: &[i32], number: usize) -> u8
    ensures { Chooses first.now second.now number result }
{
    u8::from(receivers::choice(first, second, number))
}
