// The answers of the reader of rule texts as numbers.
ghost use Rattle.std.specs.Prelude.{◌≡◌};
ghost use Rattle.parser.specs.Calling.{answer_of};
ghost use Rattle.answers.specs.Texts.{packed_text};

use base::pack;
use parser::{SheetRead, TextError};

pub fn text_number(answer: Result<SheetRead, TextError>) -> u64
    ensures { result ≡ packed_text (answer_of answer) }
{
    match answer {
        Ok(sheet) => pack(0, sheet.length, sheet.actions, sheet.nodes),
        Err(TextError::ShortArea) => 14,
        Err(TextError::Actions) => 2,
        Err(TextError::LongText) => 31,
        Err(TextError::Unreadable(spot, _)) => pack(32, spot, 0, 0),
        Err(TextError::TooManyNodes) => 33,
    }
}
