// The text of a table and of a refusal: made in a scratch array, and given where it fits.
#![tactic(auto)]

ghost use Rattle.std.specs.Prelude.{◌≡◌, [], ◌*◌, ◌<◌, length, take};
ghost use Rattle.printed_lines.specs.Text.{table_text, refusal_text};
ghost use Rattle.printing.specs.Printing.{outcome_of, TableInRange, GivesText, PrintsTable, PrintsRefusal, count_of};

use printed_lines::{put_counts, put_mode, put_rows};
use text_writer::Text;
use trace::Mode;

// Why nothing is written: a value is out of its range, or the text area is too short. specs/Printing.antt gives the number of each.
#[derive(Clone, Copy, Debug, PartialEq, Eq)]
pub enum PrintError {
    OutOfRange,
    ShortText,
}

// Room for the largest text: 64 rows of 16 entries, and the first line.
pub fn room() -> [u8; 4352]
    ensures { length result ≡ 4352 }
{
    [0u8; 4352]
}

// Copies a text to the front of the area where it fits, and answers how many bytes it has.
fn give(written: &[u8], text: &mut [u8]) -> Result<usize, PrintError>
    ensures { GivesText written.now text.old (outcome_of result) text.new }
{
    if text.len() < written.len() {
        return Err(PrintError::ShortText);
    }
    text[..written.len()].copy_from_slice(written);
    Ok(written.len())
}

fn table_text(mode: Mode, actions: usize, rows: usize, entries: &[u8]) -> Text<4352>
    requires { TableInRange actions rows entries.now }
    ensures { result ≡ table_text mode actions rows entries.now }
{
    let mut made = Text::new();
    put_mode(mode, &mut made);
    put_counts(actions, rows, &mut made);
    put_rows(actions, rows, entries, &mut made);
    made
}

fn refusal_text(number: usize, spot: usize) -> Text<4352>
    requires number_bound { number < 1000 }
    requires spot_bound { spot < 1000 }
    ensures { result ≡ refusal_text number spot }
{
    let mut made = Text::new();
    made.put_word(b"refused");
    put_counts(number, spot, &mut made);
    made
}

// Writes the text of a table to the front of `text`, and answers how many bytes it has: 1 to 16 actions, 1 to 64 rows, and the rows' entries one
// behind the other.
pub fn print_table(
    mode: Mode,
    actions: usize,
    rows: usize,
    entries: &[u8],
    text: &mut [u8],
) -> Result<usize, PrintError>
    ensures { PrintsTable mode actions rows entries.now text.old (outcome_of result) text.new }
{
    if actions < 1 || 16 < actions || rows < 1 || 64 < rows || entries.len() < rows * actions {
        return Err(PrintError::OutOfRange);
    }
    give(table_text(mode, actions, rows, entries).written(), text)
}

// Writes the text of a refusal to the front of `text`, and answers how many bytes it has. Both numbers are below 1,000.
pub fn print_refusal(number: usize, spot: usize, text: &mut [u8]) -> Result<usize, PrintError>
    ensures { PrintsRefusal number spot text.old (outcome_of result) text.new }
{
    if 999 < number || 999 < spot {
        return Err(PrintError::OutOfRange);
    }
    give(refusal_text(number, spot).written(), text)
}

// The text that was written, at the front of its area.
pub fn written(printed: Result<usize, PrintError>, text: &[u8]) -> &[u8]
    ensures { result.now ≡ take (count_of printed) text.now }
{
    let count = printed.unwrap_or(0);
    &text[..count.min(text.len())]
}
