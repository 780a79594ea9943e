// The calls of the board that make it, put a table on and take one off.
#![tactic(auto)]

mod calls;
mod errors;

pub use board_checks::TargetError;
pub use calls::{new_board, put_on, take_off};
pub use errors::{MakeError, PutError, TakeError};
pub use table::LoadError;
