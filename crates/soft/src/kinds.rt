// What the soft decoder answers.
use golay::kinds::{Codeword, Message};

// What is accepted (rules 7.1 and 7.2): a message and its codeword, its correlation and its reserve.
#[derive(Clone, Copy)]
pub struct Soft {
    pub message: Message,
    pub codeword: Codeword,
    pub correlation: i64,
    pub reserve: i64,
}
