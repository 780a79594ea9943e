// The public call.
ghost use Rattle.sheet_writer.specs.Bytes.{largest_sheet};
ghost use Rattle.sheet_writer.specs.Sheets.{SomeActions};
ghost use Rattle.parser_state.specs.Progress.{longest_text};
ghost use Rattle.parser.specs.Calling.{answer_of, ReadsAs, ReadsInto, Tells};
ghost use Rattle.std.specs.Prelude.{◌≤◌, length};

use crate::{SheetRead, TextError};
use descent::read_rule;
use parser_state::{LONGEST_TEXT, Progress, unpack};
use sheet_writer::{LARGEST_SHEET, NODE_ROOM, write_sheet};

// Reads a text that is not too long, and writes its sheet.
fn read_short(text: &[u8], actions: &[u16], out: &mut [u8]) -> Result<SheetRead, TextError>
    requires text_len_bound { length text.now ≤ longest_text }
    requires some_actions { SomeActions actions.now }
    requires largest_sheet_in_bounds { largest_sheet ≤ length out.old }
    ensures { ReadsAs text.now actions.now out.old (answer_of result) out.new × Tells text.now result }
{
    let mut written: [u8; NODE_ROOM] = base::room(0);
    let nodes = match unpack(read_rule(text, &mut written)) {
        Progress::Going { nodes, .. } => nodes,
        Progress::Stuck { words, expected } => return Err(TextError::Unreadable(words, expected)),
    };
    if 64 < nodes {
        return Err(TextError::TooManyNodes);
    }
    Ok(SheetRead {
        length: write_sheet(actions, nodes, &written, out),
        actions: actions.len(),
        nodes,
    })
}

// Reads a rule text as a sheet, with a lent action list, into the front of `out`. A refusal leaves `out` as it was.
pub fn read_text(text: &[u8], actions: &[u16], out: &mut [u8]) -> Result<SheetRead, TextError>
    ensures { ReadsInto text.now actions.now out.old (answer_of result) out.new × Tells text.now result }
{
    if out.len() < LARGEST_SHEET {
        return Err(TextError::ShortArea);
    }
    if actions.is_empty() || 16 < actions.len() {
        return Err(TextError::Actions);
    }
    if LONGEST_TEXT < text.len() {
        return Err(TextError::LongText);
    }
    read_short(text, actions, out)
}
