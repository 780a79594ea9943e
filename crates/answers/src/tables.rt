// The answers of the loader as numbers, and the number of a table.
ghost use Rattle.std.specs.Prelude.{◌≡◌};
ghost use Rattle.table.specs.Answer.{answer_of, mode_number};
ghost use Rattle.answers.specs.Numbers.{pack as packed, packed_answer};

use base::pack;
use table::{Header, LoadError, mode_number};

// A table's type, actions and rows.
pub fn table_number(header: Header) -> u64
    ensures { result ≡ packed 0 (mode_number header.mode) header.actions header.rows }
{
    let mode = usize::from(mode_number(header.mode));
    pack(0, mode, header.actions, header.rows)
}

pub fn load_number(answer: Result<Header, LoadError>) -> u64
    ensures { result ≡ packed_answer (answer_of answer) }
{
    match answer {
        Ok(header) => table_number(header),
        Err(LoadError::Malformed) => 10,
        Err(LoadError::NotCanonical) => 11,
    }
}
