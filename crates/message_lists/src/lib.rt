// One of several messages that stand in one text, each with a `|` after it.
#![tactic(auto)]

ghost use Rattle.std.specs.Prelude.{[], get_or};
ghost use Rattle.fields.specs.Fields.{split_by};
ghost use Rattle.messages.specs.Adding.{Adds};
ghost use Rattle.messages.specs.Message.{filled};

use fields::field;
use messages::fill;

// Adds the message of this number, from 0, with its holes filled; nothing where there is none.
pub fn fill_listed(
    messages: &[u8],
    number: usize,
    first: usize,
    second: usize,
    word: &[u8],
    text: &mut [u8],
    at: usize,
) -> usize
    ensures { Adds text.old at (filled (get_or (split_by 124 messages.now) number []) first second word.now) text.new result }
{
    let message = field(messages, b'|', number);
    fill(message, first, second, word, text, at)
}
