// The compiler's answers as numbers, and what it refuses, in explaining too.
ghost use Rattle.std.specs.Prelude.{◌≡◌};
ghost use Rattle.compiler.specs.Refusals.{number_of_refusal, spot_of_refusal};
ghost use Rattle.compiler.specs.Calling.{answer_of};
ghost use Rattle.answers.specs.Numbers.{pack as packed, packed_answer};

use crate::tables::table_number;
use base::pack;
use compiler::{CompileError, Refusal};
use table::Header;

pub fn refused_number(refusal: Refusal) -> u64
    ensures { result ≡ packed (number_of_refusal refusal) (spot_of_refusal refusal) 0 0 }
{
    pack(refusal.number(), refusal.spot(), 0, 0)
}

pub fn compile_number(answer: Result<Header, CompileError>) -> u64
    ensures { result ≡ packed_answer (answer_of answer) }
{
    match answer {
        Ok(header) => table_number(header),
        Err(CompileError::ShortArea) => 14,
        Err(CompileError::Refused(refusal)) => refused_number(refusal),
    }
}
