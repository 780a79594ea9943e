// From a rule of a file to its sheet.
ghost use Rattle.std.specs.Prelude.{◌≤◌, length};

use crate::told::{tell_of_rule, tell_of_sheet, tell_of_word, tell_refused, tell_unreadable};
use action_lists::{action_named, is_name};
use catalogue::Message;
use compiler::Refusal;
use fields::{front, part};
use grammar::Category;
use parser::TextError;
use part_words::words_before;
use positions::{word_at, word_of};
use rule_lines::{line_of, rule_end, trimmed};
use told_messages::following;

// A rule of a file: its number, 0 where it is the only one, and where its text stands.
#[derive(Clone, Copy)]
pub(crate) struct Rule {
    pub number: usize,
    pub from: usize,
    pub to: usize,
}

pub(crate) fn text_of(file: &[u8], rule: Rule) -> &[u8] {
    part(file, rule.from, rule.to)
}

// The rule that begins here, the one of this number in its file.
pub(crate) fn rule_at(file: &[u8], from: usize, number: usize) -> Rule
    requires { from ≤ length file.now }
    ensures { result.to ≤ length file.now }
{
    let to = rule_end(file, from);
    let alone = number == 1 && to == file.len();
    Rule {
        number: if alone { 0 } else { number },
        from,
        to,
    }
}

// The line of a word; where there is no such word, that of the last one before it.
pub(crate) fn word_line(file: &[u8], rule: Rule, words: usize) -> usize {
    let span = word_at(text_of(file, rule), words);
    if span.is_empty() {
        return line_of(file, trimmed(front(file, rule.to)));
    }
    line_of(file, rule.from.saturating_add(span.from))
}

// The word of the action list that has this name; nothing where none has it.
fn listed_word<'a>(list: &'a [u8], word: &[u8]) -> &'a [u8] {
    if is_name(word) {
        return word_of(list, action_named(list, word));
    }
    &[]
}

// 32, after so many words.
fn tell_misfit(
    rt: &HostRuntime,
    file: &[u8],
    rule: Rule,
    words: usize,
    expected: Category,
    list: &[u8],
) {
    let word = word_of(text_of(file, rule), words);
    let listed = listed_word(list, word);
    let line = word_line(file, rule, words);
    tell_unreadable(
        rt,
        rule.number,
        line,
        following(words),
        word,
        expected,
        listed,
    );
}

// What a refusal of a text says.
fn tell_error(rt: &HostRuntime, error: TextError, file: &[u8], rule: Rule, list: &[u8]) {
    let line = word_line(file, rule, 0);
    match error {
        TextError::ShortArea => tell_refused(rt, 14, 0),
        TextError::Actions => tell_refused(rt, 2, 0),
        TextError::LongText => {
            tell_refused(rt, 31, 0);
            let length = text_of(file, rule).len();
            tell_of_rule(rt, rule.number, Message::LongRule, line, length);
        }
        TextError::Unreadable(spot, expected) => {
            tell_refused(rt, 32, spot);
            tell_misfit(rt, file, rule, spot, expected, list);
        }
        TextError::TooManyNodes => {
            tell_refused(rt, 33, 0);
            tell_of_rule(rt, rule.number, Message::ManyNodes, line, 0);
        }
    }
}

// Reads a rule to a sheet at the front of `sheet`, and answers its length. The action list is given as it stands in the file too. Tells why where the
// rule is refused.
pub(crate) fn read_rule(
    rt: &HostRuntime,
    file: &[u8],
    rule: Rule,
    actions: &[u16],
    list: &[u8],
    sheet: &mut [u8],
) -> Option<usize> {
    match parser::read_text(text_of(file, rule), actions, sheet) {
        Ok(read) => Some(read.length),
        Err(error) => {
            tell_error(rt, error, file, rule, list);
            None
        }
    }
}

// 8 and 9 of a rule: the word of the node that grows too large.
fn tell_size(rt: &HostRuntime, file: &[u8], rule: Rule, words: usize, message: Message) {
    let line = word_line(file, rule, words);
    tell_of_word(
        rt,
        rule.number,
        line,
        following(words),
        message,
        word_of(text_of(file, rule), words),
    );
}

// What the compiler refuses of the sheet of a rule.
pub(crate) fn tell_refusal(
    rt: &HostRuntime,
    refusal: Refusal,
    file: &[u8],
    rule: Rule,
    sheet: &[u8],
) {
    let number = refusal.number();
    let spot = refusal.spot();
    tell_refused(rt, number, spot);
    match refusal {
        Refusal::Faulty(_) => tell_of_sheet(rt, number, spot),
        Refusal::TooManyValues(node) => {
            let words = words_before(sheet, node);
            tell_size(rt, file, rule, words, Message::ManyValues);
        }
        Refusal::TooManyRows(node) => {
            let words = words_before(sheet, node);
            tell_size(rt, file, rule, words, Message::ManyRows);
        }
    }
}
