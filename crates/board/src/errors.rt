// Why the calls of the board refuse. specs/Replies.antt gives the number and values of docs/FORMATS.md, "Refusals", for each case.
ghost use Rattle.std.specs.Prelude.{◌≡◌};
ghost use Rattle.board.specs.declared.errors.PutError.TheVariants as put;
ghost use Rattle.board.specs.declared.errors.TakeError.TheVariants as take;

use board_checks::TargetError;
use table::LoadError;

// A new board.
#[derive(Clone, Copy, PartialEq, Eq)]
pub enum MakeError {
    ShortArea,
}

// Putting a table on: what is found at the place, what the loader finds, and what is found of both.
#[derive(Clone, Copy, PartialEq, Eq)]
pub enum PutError {
    Target(TargetError),
    Taken,
    Load(LoadError),
    OtherActions,
}

// Taking a table off.
#[derive(Clone, Copy, PartialEq, Eq)]
pub enum TakeError {
    Target(TargetError),
    EmptyPlace,
}

impl From<TargetError> for PutError {
    ghost from_gives = { λ error e. e ≡ put.Target error };

    fn from(error: TargetError) -> PutError {
        PutError::Target(error)
    }
}

impl From<LoadError> for PutError {
    ghost from_gives = { λ error e. e ≡ put.Load error };

    fn from(error: LoadError) -> PutError {
        PutError::Load(error)
    }
}

impl From<TargetError> for TakeError {
    ghost from_gives = { λ error e. e ≡ take.Target error };

    fn from(error: TargetError) -> TakeError {
        TakeError::Target(error)
    }
}
