// Checks 1 to 7 of a rule sheet in bytes, in their order: the sheet with the types of its nodes, or the first fault.
#![tactic(auto)]

use syntax::{Fault, NodeType, Sheet};
use trace::Mode;

mod checks;

pub use checks::judge;

// What checks 1 to 7 find, the mode of the policy or the first fault, with the sheet and the types of its nodes; beside a fault, those before it.
#[derive(Clone, Copy)]
pub struct JudgedSheet {
    pub found: Result<Mode, Fault>,
    pub sheet: Sheet,
    pub types: [NodeType; 64],
}
