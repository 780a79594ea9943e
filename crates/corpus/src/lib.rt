// The corpus that the case programs read from standard input, how it is run, and the counts that they print. A corpus is the number of its records and then
// their blocks. A number has 16 bits, low byte first; a block is a number and as many bytes. reference/README.md says which blocks a record has.
#![tactic(auto)]

mod numbers;
mod outputs;
mod records;
mod reports;

pub use numbers::{answer_at, at, byte_at, long_answer_at, number_at};
pub use outputs::{FRESH, all_bytes, all_numbers, left_by, lent, written};
pub use records::{Progress, begin, behind, read_block, read_number, run};
pub use reports::{add, end, report, settle, show};
