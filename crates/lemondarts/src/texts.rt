// The reader's call.
ghost use Rattle.lemondarts.specs.Texts.{TextReturns};

use answers::text_number;

// Reads a rule text as a sheet into `sheet`: the sheet's length, actions and nodes, or a refusal.
pub fn lemondarts_read_text(text: &[u8], actions: &[u16], sheet: &mut [u8]) -> u64
    ensures { TextReturns text.now actions.now sheet.old result sheet.new }
{
    text_number(parser::read_text(text, actions, sheet))
}
