// For the tests alone: prints the part that `better` hands back, a line for each case on standard input (tests/second/parts.rs has the format).
#![tactic(auto)]

use golay::POSITIONS;
use records::OLD_RECORD;
use std::array;
use std::io::Read;

// A buffer's readings, each a record.
const READINGS: usize = 6;

// A case: the reading's number in eight bytes, the two buffers' lengths in a byte each, six records for the first, six for the second.
const FIRST: usize = 10;

const SECOND: usize = FIRST + READINGS * OLD_RECORD;

const CASE: usize = SECOND + READINGS * OLD_RECORD;

// No run has so many cases; the loop needs a bound to be proved to end.
const MOST_CASES: u32 = 1_000_000;

// The readings of the first records.
fn readings(records: &[u8]) -> [[i32; POSITIONS]; READINGS] {
    array::from_fn(|i| contents::confidences(records, OLD_RECORD * i))
}

fn print_part(rt: &impl Print, part: &[i32]) {
    let length = part.len();
    let _ = print!(rt; "{length}");
    for confidence in part {
        let _ = print!(rt; " {confidence}");
    }
    let _ = println!(rt);
}

// Of buffers that have the first n and the first m of these confidences.
fn print_better(rt: &impl Print, first: &[i32], n: usize, second: &[i32], m: usize, number: usize) {
    if let (Some(first), Some(second)) = (first.get(..n), second.get(..m)) {
        print_part(rt, receivers::better(first, second, number));
    }
}

fn print_case(rt: &impl Print, case: &[u8; CASE]) {
    let [a, b, c, d, e, f, g, h, n, m, ..] = *case;
    let number = usize::from_be_bytes([a, b, c, d, e, f, g, h]);
    let first = readings(&case[FIRST..]);
    let second = readings(&case[SECOND..]);
    print_better(
        rt,
        first.as_flattened(),
        usize::from(n),
        second.as_flattened(),
        usize::from(m),
        number,
    );
}

fn main(rt: HostRuntime) {
    for _ in 0..MOST_CASES {
        let mut case = [0u8; CASE];
        if rt.stdin().read_exact(&mut case).is_err() {
            return;
        }
        print_case(&rt, &case);
    }
}
