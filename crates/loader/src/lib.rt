// The table loader: checks 10 and 11.
#![tactic(auto)]

mod rows;

ghost use Rattle.table.specs.Answer.{Loads, answer_of};

pub use rows::canonical;
use table::{Header, LoadError};
use well_formed::check;

// Loads any bytes: an accepted table's header, or refusal 10 or 11.
pub fn load(bytes: &[u8]) -> Result<Header, LoadError>
    ensures { Loads bytes.now (answer_of result) }
{
    let Some(header) = check(bytes) else {
        return Err(LoadError::Malformed);
    };
    if canonical(&bytes[8..], header.rows, header.actions) {
        Ok(header)
    } else {
        Err(LoadError::NotCanonical)
    }
}
