// Action lists (specs/ActionLists.antt), and lists of actions that are asked about (specs/AskedLists.antt).
#![tactic(auto)]

mod actions;
mod asked;
mod names;
mod sets;

pub use actions::read_actions;
pub use asked::{first_outside, read_list};
pub use names::{action_name, action_named, is_name, name_at};

// Why a list is no action list: it has no words, more than 16, a word that is no action, or one that has the name of an earlier one.
#[derive(Clone, Copy)]
pub enum ListError {
    Nothing,
    TooMany,
    WrongAt(usize),
    DoubledAt(usize),
}
