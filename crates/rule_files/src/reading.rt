// From a rule's text to its sheet.
use crate::output::say_refusal;
use crate::parts::RuleText;
use crate::refusals::{tell_long, tell_nodes, tell_unreadable};
use crate::rooms::front;
use parser::TextError;

// What is refused of a text, and why.
fn refuse_text(rt: &impl Print, error: TextError, rule: RuleText<'_>, list: &[u8]) {
    match error {
        TextError::ShortArea => say_refusal(rt, 14, 0),
        TextError::Actions => say_refusal(rt, 2, 0),
        TextError::LongText => {
            say_refusal(rt, 31, 0);
            tell_long(rt, rule.text.len(), rule.place);
        }
        TextError::Unreadable(words, expected) => {
            say_refusal(rt, 32, words);
            tell_unreadable(rt, rule, words, expected, list);
        }
        TextError::TooManyNodes => {
            say_refusal(rt, 33, 0);
            tell_nodes(rt, rule.place);
        }
    }
}

// Reads a text under an action list of 1 to 16 actions, which is written in a line, to a sheet at the front of `sheet`, and answers the sheet. Where
// the text is refused tells why.
pub fn read_rule<'a>(
    rt: &impl Print,
    rule: RuleText<'_>,
    actions: &[u16],
    list: &[u8],
    sheet: &'a mut [u8],
) -> Option<&'a [u8]> {
    match parser::read_text(rule.text, actions, sheet) {
        Ok(read) => Some(front(sheet, read.length)),
        Err(error) => {
            refuse_text(rt, error, rule, list);
            None
        }
    }
}
