// The entry points for C. Each is a thin call of a room below; include/garthumor.h declares them.
// Stays: an entry point for each call, which only passes on: the C interface has them, and a static library exports functions of its own crate alone.
#![tactic(auto)]

ghost use Rattle.golay.specs.Calls.{encode_rule, read_rule, syndrome_rule};
ghost use Rattle.bytewise.specs.Bytes.{bytes_of};
ghost use Rattle.bytewise.specs.Calls.{write_bytes_rule, read_bytes_rule};
ghost use Rattle.hard.specs.Calls.{Finds, apply_rule, Corrects};
ghost use Rattle.favours.specs.Calls.{column_figure_rule};
ghost use Rattle.soft.specs.Calls.{ClassFigureRule, SoftRule};
ghost use Rattle.quick.specs.Quick.{QuickRule};
ghost use Rattle.receivers.specs.Calls.{Chooses};
ghost use Rattle.totals.specs.Totals.{totals};
ghost use Rattle.tally.specs.Counts.{Counts};
ghost use Rattle.hands.specs.Hands.{HandsBack, HandsBackOne, itself};
ghost use Rattle.onwords.specs.Outputs.{finding, correction, HandsBackCandidates};
ghost use Rattle.onreadings.specs.Outputs.{values};

use totals::kinds::Tally;

#[unsafe(no_mangle)]
pub extern "C" fn garthumor_encode(message: u32, codeword: &mut u32) -> u8
    ensures { HandsBack (encode_rule message) itself codeword.old codeword.new result }
{
    onwords::encode(message, codeword)
}

#[unsafe(no_mangle)]
pub extern "C" fn garthumor_read(word: u32, message: &mut u32) -> u8
    ensures { HandsBack (read_rule word) itself message.old message.new result }
{
    onwords::read(word, message)
}

#[unsafe(no_mangle)]
pub extern "C" fn garthumor_syndrome(word: u32, syndrome: &mut u32) -> u8
    ensures { HandsBack (syndrome_rule word) itself syndrome.old syndrome.new result }
{
    onwords::syndrome(word, syndrome)
}

#[unsafe(no_mangle)]
pub extern "C" fn garthumor_find(word: u32, pattern: &mut u32, distance: &mut u32) -> u8
    ensures { HandsBackOne (Finds word) itself (finding pattern.old distance.old) (finding pattern.new distance.new) result }
{
    onwords::find(word, pattern, distance)
}

#[unsafe(no_mangle)]
pub extern "C" fn garthumor_apply(word: u32, pattern: u32, applied: &mut u32) -> u8
    ensures { HandsBack (apply_rule word pattern) itself applied.old applied.new result }
{
    onwords::apply(word, pattern, applied)
}

#[unsafe(no_mangle)]
pub extern "C" fn garthumor_correct(word: u32, codeword: &mut u32, distance: &mut u32) -> u8
    ensures { HandsBackOne (Corrects word) itself (correction codeword.old distance.old) (correction codeword.new distance.new) result }
{
    onwords::correct(word, codeword, distance)
}

#[unsafe(no_mangle)]
pub extern "C" fn garthumor_candidates(word: u32, slots: &mut [u32]) -> u8
    ensures { HandsBackCandidates word slots.old slots.new result }
{
    onwords::candidates(word, slots)
}

#[unsafe(no_mangle)]
pub extern "C" fn garthumor_class_figure(reading: &[i32], class_number: u32, figure: &mut i64) -> u8
    ensures { HandsBackOne (ClassFigureRule reading.now class_number) itself figure.old figure.new result }
{
    onreadings::class_figure(reading, class_number, figure)
}

#[unsafe(no_mangle)]
pub extern "C" fn garthumor_column_figure(
    reading: &[i32],
    class_number: u32,
    column: u32,
    figure: &mut i64,
) -> u8
    ensures { HandsBack (column_figure_rule reading.now class_number column) itself figure.old figure.new result }
{
    onreadings::column_figure(reading, class_number, column, figure)
}

#[unsafe(no_mangle)]
pub extern "C" fn garthumor_soft(
    reading: &[i32],
    message: &mut u32,
    codeword: &mut u32,
    correlation: &mut i64,
    reserve: &mut i64,
) -> u8
    ensures { HandsBackOne (SoftRule reading.now) itself (values message.old codeword.old correlation.old reserve.old) (values message.new codeword.new correlation.new reserve.new) result }
{
    onreadings::soft(reading, message, codeword, correlation, reserve)
}

#[unsafe(no_mangle)]
pub extern "C" fn garthumor_quick(reading: &[i32], codeword: &mut u32) -> u8
    ensures { HandsBackOne (QuickRule reading.now) itself codeword.old codeword.new result }
{
    onreadings::quick(reading, codeword)
}

#[unsafe(no_mangle)]
pub extern "C" fn garthumor_better(first: &[i32], second: &[i32], number: usize) -> u8
    ensures { Chooses first.now second.now number result }
{
    onreadings::better(first, second, number)
}

#[unsafe(no_mangle)]
pub extern "C" fn garthumor_count(tally: &mut Tally, counts: &mut [u32], reading: &[i32]) -> u8
    ensures { Counts reading.now (totals tally.old counts.old) (totals tally.new counts.new) result }
{
    tally::count(tally, counts, reading)
}

#[unsafe(no_mangle)]
pub extern "C" fn garthumor_write_bytes(codeword: u32, bytes: &mut [u8]) -> u8
    ensures { HandsBack (write_bytes_rule codeword bytes.old) (λ x. bytes_of codeword) bytes.old bytes.new result }
{
    onwords::write_bytes(codeword, bytes)
}

#[unsafe(no_mangle)]
pub extern "C" fn garthumor_read_bytes(bytes: &[u8], codeword: &mut u32) -> u8
    ensures { HandsBack (read_bytes_rule bytes.now) itself codeword.old codeword.new result }
{
    onwords::read_bytes(bytes, codeword)
}
