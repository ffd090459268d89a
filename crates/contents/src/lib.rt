// What a record of a capture holds: its number and its confidences. Each call answers for every slice and every place.
#![tactic(auto)]

ghost use Rattle.std.specs.Prelude.{◌≡◌, ◌+◌, ◌≤◌, length, take, drop};
ghost use Rattle.code.specs.Code.{positions};
ghost use Rattle.golay.specs.Bytes.{word_of};
ghost use Rattle.records.specs.Records.{twos_complement, confidence_of, confidences_of, stands_at, number_of, reading_of};

pub mod walk;

use records::kinds::Stands;
use records::{OLD_RECORD, stands_at};
use std::array;

// The 24 confidences.
const READING: usize = 96;

// Stays: bytes and from: tried as the bytes from there on alone (`&bytes[4 * i..]`), the proofs of `reading`, `confidences` and `number` did
// not close.

// The confidence that four bytes from a place on hold.
#[tactic(auto, using(crate::proofs::Readings::confidence_from))]
fn confidence(bytes: &[u8], from: usize) -> i32
    requires { from + 4 ≤ length bytes.now }
    ensures { result ≡ confidence_of (drop from bytes.now) }
{
    i32::from_be_bytes([
        bytes[from],
        bytes[from + 1],
        bytes[from + 2],
        bytes[from + 3],
    ])
}

// The 24 confidences from a place on.
fn reading(bytes: &[u8], from: usize) -> [i32; 24]
    requires { from + 96 ≤ length bytes.now }
    ensures { result ≡ confidences_of positions (drop from bytes.now) }
{
    array::from_fn(|i| confidence(bytes, from + 4 * i))
}

// The confidences of the record at a place, which are its last bytes; zeros where no whole record stands there.
// Stays: what could not fail still cannot: `reading_of` has zeros there.
pub fn confidences(bytes: &[u8], at: usize) -> [i32; 24]
    ensures { result ≡ reading_of (stands_at bytes.now at) }
{
    match stands_at(bytes, at, true) {
        Stands::Record(next) => reading(bytes, next - READING),
        Stands::End | Stands::Stopped(_) => [0i32; 24],
    }
}

// The number that two bytes from a place on hold.
fn number_from(bytes: &[u8], from: usize) -> u16
    requires { from + 2 ≤ length bytes.now }
    ensures { result ≡ word_of (take 2 (drop from bytes.now)) }
{
    u16::from_be_bytes([bytes[from], bytes[from + 1]])
}

// The number of the record at a place; none where it is an old one, or no whole record stands there.
pub fn number(bytes: &[u8], at: usize) -> Option<u16>
    ensures { result ≡ number_of (stands_at bytes.now at) }
{
    match stands_at(bytes, at, true) {
        Stands::Record(next) if next - at != OLD_RECORD => Some(number_from(bytes, at + 2)),
        _ => None,
    }
}
