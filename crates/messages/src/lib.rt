// Messages written into a lent area, with the text as a definition: specs/Message.antt. What has no room is cut off (specs/Adding.antt).
#![tactic(auto)]

mod filling;
mod numbers;
mod quoting;
mod writing;

pub use filling::fill;
pub use numbers::add_number;
pub use quoting::add_quoted;
pub use writing::{add, put};
