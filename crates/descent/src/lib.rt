// Reading by recursive descent: a reader for each category of the language (crate grammar), which call each other.
#![tactic(auto)]

mod readers;

pub use readers::read_rule;

// Progress after a number, and the number.
#[derive(Clone, Copy)]
pub struct NumberRead {
    pub progress: u64,
    pub number: u8,
}
