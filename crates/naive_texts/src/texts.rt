// Reading a text, with the checks in their order.
ghost use Rattle.naive_texts.specs.Answers.{AnswersText};

use crate::layout::write_sheet;
use crate::words::read_words;
use crate::{Listed, Refusal, Sheet};
use naive::room;

// Reads a text into a sheet, with the actions, which have two bytes each.
pub fn read_text(text: &[u8], actions: &[u8], sheet: &mut [u8]) -> Result<Sheet, Refusal>
    ensures { AnswersText sheet.old sheet.new result }
{
    let listed = actions.len() / 2;
    if sheet.len() < 362 {
        return Err(Refusal::ShortOutput);
    }
    if listed == 0 || 16 < listed {
        return Err(Refusal::Actions);
    }
    if 1024 < text.len() {
        return Err(Refusal::LongText);
    }
    let mut nodes = room::<Listed, 64>(Listed {
        kind: 0,
        argument: 0,
        parts: 0,
    });
    let count = match read_words(text, &mut nodes) {
        Ok(count) => count,
        Err(words) => return Err(Refusal::Unreadable(words)),
    };
    if 64 < count {
        return Err(Refusal::TooManyNodes);
    }
    write_sheet(actions, listed, &nodes[..count], sheet);
    Ok(Sheet {
        length: 10 + 2 * listed + 5 * count,
        actions: listed,
        nodes: count,
    })
}
