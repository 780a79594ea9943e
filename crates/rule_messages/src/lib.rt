// What an operator is told of a rule: texts as definitions (specs/Told.antt), written into a lent area (crate messages).
#![tactic(auto)]

mod expected;
mod misfits;
mod reasons;
mod told;

pub use expected::add_expected;
pub use misfits::{any_between, misfit_of, strange};
pub use reasons::add_misfit;
pub use told::{add_place, add_refused};

// Why a word does not fit where it stands.
#[derive(Clone, Copy)]
pub enum Misfit {
    Missing,
    Separator,
    Whole,
    Return,
    Tab,
    Mark,
    WideSpace,
    Bracket,
    Capital,
    Named,
    WatchedOnly,
    EnforcedOnly,
    Unknown,
    Misplaced,
}
