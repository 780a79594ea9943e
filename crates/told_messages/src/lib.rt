// What an operator is told of a rule, a list of actions or a sheet: texts as definitions (specs/Told.antt), written into a lent area (crate messages) from
// the messages of crate catalogue.
#![tactic(auto)]

mod misfits;
mod told;

pub use told::{
    add_denied, add_of_rule, add_of_sheet, add_of_word, add_refused, add_unreadable,
    add_wrong_action, add_wrong_listed, following,
};
