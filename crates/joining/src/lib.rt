// Joining: one table for several, which denies exactly where at least one of them denies. Definitions of what it gives are in specs/Joins.antt.
#![tactic(auto)]

mod call;
mod reading;

ghost use Rattle.std.specs.Prelude.{◌≡◌};
ghost use Rattle.joining.specs.Calling.{over_of};

pub use call::join;
use machine_rows::OverLimit;

// Why tables are not joined.
#[derive(Clone, Copy, PartialEq, Eq)]
pub enum JoinError {
    ShortArea,
    WrongCount,
    Malformed,
    NotCanonical,
    WatchedTable,
    OtherActions,
    TooManyValues,
    TooManyRows,
}

impl From<OverLimit> for JoinError {
    ghost from_gives = { λ limit error. error ≡ over_of limit };

    fn from(limit: OverLimit) -> JoinError {
        match limit {
            OverLimit::Values => JoinError::TooManyValues,
            OverLimit::Rows => JoinError::TooManyRows,
        }
    }
}
