// One pass over the places of a board: check 25, each rule under an action, and the places that deny it or that it fulfils.
#![tactic(auto)]

mod pass;
mod survey;

pub use pass::{Scanned, scan};
pub use survey::admits;
