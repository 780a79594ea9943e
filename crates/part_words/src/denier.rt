// The line that says which node denied, where it stands, and the words of the part that it is.
ghost use Rattle.std.specs.Prelude.{[]};
ghost use Rattle.messages.specs.Adding.{Adds};
ghost use Rattle.messages.specs.Message.{filled};
ghost use Rattle.catalogue.specs.Numbers.{text_of};
ghost use Rattle.part_words.specs.Denier.{head_text, denier_rule, denier_place, shown_text, denier_text};

use crate::kinds::add_kind;
use crate::parts::add_part;
use catalogue::{Message, add_message};

// A message that has no word in it.
fn say(message: Message, first: usize, second: usize, text: &mut [u8], at: usize) -> usize
    ensures { Adds text.old at (filled (text_of message) first second []) text.new result }
{
    add_message(message, first, second, b"", text, at)
}

// The node by its number, and the word of its kind.
fn add_head(sheet: &[u8], node: usize, text: &mut [u8], at: usize) -> usize
    ensures { Adds text.old at (head_text sheet.now node) text.new result }
{
    let kind = say(Message::Denier, node, 0, text, at);
    let next = add_kind(sheet, node, text, kind);
    say(Message::DenierEnd, 0, 0, text, next)
}

// The rule by its number, where there are several; 0 where there is one.
fn add_rule(rule: usize, text: &mut [u8], at: usize) -> usize
    ensures { Adds text.old at (denier_rule rule) text.new result }
{
    if rule == 0 {
        return at;
    }
    say(Message::OfRule, rule, 0, text, at)
}

// Where the node's word stands, for a rule that was written as words; line 0 where it was not.
fn add_place(rule: usize, line: usize, word: usize, text: &mut [u8], at: usize) -> usize
    ensures { Adds text.old at (denier_place rule line word) text.new result }
{
    if line == 0 {
        return at;
    }
    let next = add_rule(rule, text, at);
    say(Message::AtWord, line, word, text, next)
}

// The words of the part.
fn add_shown(sheet: &[u8], node: usize, text: &mut [u8], at: usize) -> usize
    ensures { Adds text.old at (shown_text sheet.now node) text.new result }
{
    let words = say(Message::Part, 0, 0, text, at);
    let next = add_part(sheet, node, text, words);
    say(Message::LineEnd, 0, 0, text, next)
}

// Adds the line of the node that denied.
pub fn add_denier(
    sheet: &[u8],
    node: usize,
    rule: usize,
    line: usize,
    word: usize,
    text: &mut [u8],
    at: usize,
) -> usize
    ensures { Adds text.old at (denier_text sheet.now node rule line word) text.new result }
{
    let place = add_head(sheet, node, text, at);
    let shown = add_place(rule, line, word, text, place);
    add_shown(sheet, node, text, shown)
}
