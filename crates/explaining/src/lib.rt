// Explaining a denial: the first denied action of a list, and the part of the rule that denies it. Definitions of what it gives are in
// specs/Explains.antt.
#![tactic(auto)]

ghost use Rattle.std.specs.Prelude.{◌≡◌};
ghost use Rattle.explaining.specs.declared.ExplainError.TheVariants.{Refused};

mod call;
mod reading;

pub use call::explain;
use compiler::Refusal;

// The first denied action of a list: its place, from 0, and the node that is named for it.
#[derive(Clone, Copy)]
pub struct Denial {
    pub place: usize,
    pub node: usize,
}

// Why nothing is explained: an area is too short, what the compiler refuses, a watched sheet, or a number that is no action.
#[derive(Clone, Copy)]
pub enum ExplainError {
    ShortArea,
    Refused(Refusal),
    WatchedSheet,
    NoAction,
}

impl From<Refusal> for ExplainError {
    ghost from_gives = { λ refusal e. e ≡ Refused refusal };

    fn from(refusal: Refusal) -> ExplainError {
        ExplainError::Refused(refusal)
    }
}
