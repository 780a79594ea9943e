// The answers of joining as numbers.
ghost use Rattle.std.specs.Prelude.{◌≡◌};
ghost use Rattle.joining.specs.Calling.{answer_of};
ghost use Rattle.answers.specs.Numbers.{packed_answer};

use crate::tables::table_number;
use joining::JoinError;
use table::Header;

pub fn join_number(answer: Result<Header, JoinError>) -> u64
    ensures { result ≡ packed_answer (answer_of answer) }
{
    match answer {
        Ok(header) => table_number(header),
        Err(JoinError::ShortArea) => 14,
        Err(JoinError::WrongCount) => 2,
        Err(JoinError::Malformed) => 10,
        Err(JoinError::NotCanonical) => 11,
        Err(JoinError::WatchedTable) => 34,
        Err(JoinError::OtherActions) => 23,
        Err(JoinError::TooManyValues) => 8,
        Err(JoinError::TooManyRows) => 9,
    }
}
