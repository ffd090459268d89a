// What is counted of readings.

// The counts of a link (rule 18.1). By default it is empty.
// Stays: a smallest reserve of 0 is none, as in C, where it is a struct too.
#[repr(C)]
#[derive(Clone, Copy, Default)]
pub struct Tally {
    pub read: u32,
    pub accepted: u32,
    pub refused_2: u32,
    pub refused_6: u32,
    pub smallest: u64,
    pub total: u64,
}
