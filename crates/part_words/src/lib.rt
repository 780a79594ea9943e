// From a node of a rule sheet to the words that say it: the word of its kind, the words of the part of the rule that it is, where its word stands
// in the text, and the line that names the node that denied. Definitions are in specs/.
#![tactic(auto)]

mod denier;
mod kinds;
mod parts;
mod places;
mod propositions;
mod reading;

pub use denier::add_denier;
pub use kinds::add_kind;
pub use parts::add_part;
pub use places::words_before;
pub use propositions::unheld;
