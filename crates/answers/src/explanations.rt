// The answers of explaining as numbers.
ghost use Rattle.std.specs.Prelude.{◌≡◌};
ghost use Rattle.explaining.specs.Calling.{answer_of};
ghost use Rattle.answers.specs.Explanations.{packed_explanation};

use crate::compiling::refused_number;
use base::pack;
use explaining::{Denial, ExplainError};

pub fn explain_number(answer: Result<Option<Denial>, ExplainError>) -> u64
    ensures { result ≡ packed_explanation (answer_of answer) }
{
    match answer {
        Ok(None) => 0,
        Ok(Some(denial)) => pack(255, denial.node, 0, 0),
        Err(ExplainError::ShortArea) => 14,
        Err(ExplainError::Refused(refusal)) => refused_number(refusal),
        Err(ExplainError::WatchedSheet) => 34,
        Err(ExplainError::NoAction) => 12,
    }
}
