// The answers of the board's calls, each as one number of 64 bits. specs/Numbers.antt says which field means what.
#![tactic(auto)]

ghost use Rattle.std.specs.Prelude.{◌≡◌};
ghost use Rattle.board.specs.Replies.{made_reply, target_reply, load_reply, put_reply, take_reply};
ghost use Rattle.board_actions.specs.Replies.{act_reply};
ghost use Rattle.board_answers.specs.Numbers.{packed_reply, AnswerIs};

use base::pack;
use board::{LoadError, MakeError, PutError, TakeError, TargetError};
use board_actions::{AskError, Verdict};

// An answer: its number, and whether it changes the board.
#[derive(Clone, Copy)]
pub struct NumberedReply {
    pub number: u64,
    pub changes: bool,
}

pub fn made_answer(made: Result<(), MakeError>) -> NumberedReply
    ensures { AnswerIs (made_reply made) result.number result.changes }
{
    let number = match made {
        Ok(()) => 0,
        Err(MakeError::ShortArea) => 14,
    };
    NumberedReply {
        number,
        changes: made.is_ok(),
    }
}

// What is found at a place.
fn target_number(error: TargetError) -> u64
    ensures { result ≡ packed_reply (target_reply error) }
{
    match error {
        TargetError::ShortArea => 14,
        TargetError::NoPlace => 13,
        TargetError::Impossible => 25,
    }
}

// What the loader finds.
fn load_number(error: LoadError) -> u64
    ensures { result ≡ packed_reply (load_reply error) }
{
    match error {
        LoadError::Malformed => 10,
        LoadError::NotCanonical => 11,
    }
}

pub fn put_answer(put: Result<(), PutError>) -> NumberedReply
    ensures { AnswerIs (put_reply put) result.number result.changes }
{
    let number = match put {
        Ok(()) => 0,
        Err(PutError::Target(error)) => target_number(error),
        Err(PutError::Taken) => 22,
        Err(PutError::Load(error)) => load_number(error),
        Err(PutError::OtherActions) => 23,
    };
    NumberedReply {
        number,
        changes: put.is_ok(),
    }
}

pub fn take_answer(taken: Result<(), TakeError>) -> NumberedReply
    ensures { AnswerIs (take_reply taken) result.number result.changes }
{
    let number = match taken {
        Ok(()) => 0,
        Err(TakeError::Target(error)) => target_number(error),
        Err(TakeError::EmptyPlace) => 21,
    };
    NumberedReply {
        number,
        changes: taken.is_ok(),
    }
}

pub fn act_answer(acted: Result<Verdict, AskError>) -> NumberedReply
    ensures { AnswerIs (act_reply acted) result.number result.changes }
{
    let number = match acted {
        Ok(Verdict::Permitted(fulfilled)) => pack(0, usize::from(fulfilled), 0, 0),
        Ok(Verdict::Denied(place)) => pack(255, place, 0, 0),
        Err(AskError::ShortArea) => 14,
        Err(AskError::Impossible) => 25,
        Err(AskError::EmptyBoard) => 24,
        Err(AskError::NoAction) => 12,
    };
    NumberedReply {
        number,
        changes: matches!(acted, Ok(Verdict::Permitted(_))),
    }
}
