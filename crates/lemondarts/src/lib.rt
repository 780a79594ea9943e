// The public calls: numbers and byte slices only, a board as a record of bytes, an answer as one number. The crate lemondarts_c exports them for C, as
// include/lemondarts.h declares them.
#![tactic(auto)]

mod calls;
mod compiling;
mod explanations;
mod joins;
mod texts;
mod version;

pub use calls::{
    lemondarts_action, lemondarts_load, lemondarts_new_board, lemondarts_put_on,
    lemondarts_take_off,
};
pub use compiling::lemondarts_compile;
pub use explanations::lemondarts_explain;
pub use joins::lemondarts_join;
pub use texts::lemondarts_read_text;
pub use version::lemondarts_version;
