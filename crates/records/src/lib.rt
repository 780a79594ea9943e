// A board as a record of bytes: reading it and writing it.
#![tactic(auto)]

mod encoding;

pub use encoding::{RECORD, read_board, write_board};
