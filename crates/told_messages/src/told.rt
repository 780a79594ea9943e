// What an operator is told. Each function adds to a text and answers the position after what it wrote.
ghost use Rattle.std.specs.Prelude.{◌≡◌, [], ◌+◌, min, get_or};
ghost use Rattle.messages.specs.Adding.{Adds};
ghost use Rattle.catalogue.specs.Numbers.{text_of};
ghost use Rattle.told_messages.specs.Told.{refused_text, rule_text, of_rule_text, place_text, of_word_text, expected_message, with_word, unreadable_text, wrong_action_text, sheet_messages, sheet_text, wrong_listed_text, denied_text};

use crate::misfits::{misfit_message, strange_message};
use catalogue::{Message, Numbered, add_message};
use grammar::Category;
use rule_messages::any_between;

// The number of what comes after so many, from 1; the last that is told is 999,999.
pub fn following(count: usize) -> usize
    ensures { result ≡ min (count + 1) 999999 }
{
    count.min(999998) + 1
}

// The line of a refusal, as print_table has it.
pub fn add_refused(number: usize, spot: usize, text: &mut [u8], at: usize) -> usize
    ensures { Adds text.old at (refused_text number spot) text.new result }
{
    add_message(Message::RefusedLine, number, spot, b"", text, at)
}

// A rule by its number, where there are several; 0 where there is one.
fn add_rule(rule: usize, text: &mut [u8], at: usize) -> usize
    ensures { Adds text.old at (rule_text rule) text.new result }
{
    if rule == 0 {
        return at;
    }
    add_message(Message::RuleNumber, rule, 0, b"", text, at)
}

// A message about a rule.
pub fn add_of_rule<M: Numbered>(
    rule: usize,
    message: M,
    first: usize,
    second: usize,
    text: &mut [u8],
    at: usize,
) -> usize
    ensures { Adds text.old at (of_rule_text rule (M.number message) first second) text.new result }
{
    let next = add_rule(rule, text, at);
    add_message(message, first, second, b"", text, next)
}

// A message about a word of a rule: where it stands, and the message.
pub fn add_of_word<M: Numbered>(
    rule: usize,
    line: usize,
    number: usize,
    message: M,
    word: &[u8],
    text: &mut [u8],
    at: usize,
) -> usize
    ensures { Adds text.old at (of_word_text rule line number (M.number message) word.now) text.new result }
{
    let next = add_of_rule(rule, Message::LineAndWord, line, number, text, at);
    add_message(message, 0, 0, word, text, next)
}

// A message with a word, nothing where there is no word.
fn add_with_word(message: Message, word: &[u8], text: &mut [u8], at: usize) -> usize
    ensures { Adds text.old at (with_word (text_of message) word.now) text.new result }
{
    if word.is_empty() {
        return at;
    }
    add_message(message, 0, 0, word, text, at)
}

// What comes at a place.
#[tactic(auto, unfolding(crate::specs::Told::expected_message))]
fn expected_message(expected: Category) -> Message
    ensures { text_of result ≡ expected_message expected }
{
    match expected {
        Category::Text => Message::RuleBegins,
        Category::Watched => Message::WatchedComes,
        Category::Enforced => Message::EnforcedComes,
        Category::Formula => Message::FormulaComes,
        Category::Number => Message::NumberComes,
        Category::End => Message::NothingComes,
    }
}

// 32: a word of a rule does not fit. What the action list has for it, where it is the name of an action.
pub fn add_unreadable(
    rule: usize,
    line: usize,
    number: usize,
    word: &[u8],
    expected: Category,
    listed: &[u8],
    text: &mut [u8],
    at: usize,
) -> usize
    ensures { Adds text.old at (unreadable_text rule line number word.now expected listed.now) text.new result }
{
    let message = misfit_message(word, expected, !listed.is_empty());
    let reason = add_of_word(rule, line, number, message, word, text, at);
    let next = add_message(expected_message(expected), 0, 0, b"", text, reason);
    add_with_word(Message::NamedWord, listed, text, next)
}

// 2: a word of the action list is no action.
pub fn add_wrong_action(number: usize, word: &[u8], text: &mut [u8], at: usize) -> usize
    ensures { Adds text.old at (wrong_action_text number word.now) text.new result }
{
    let first = add_message(Message::WrongAction, number, 0, word, text, at);
    let second = add_message(strange_message(word), 0, 0, word, text, first);
    let third = add_message(Message::ActionForm, 0, 0, b"", text, second);
    let last = if any_between(word, b'=', b'=') {
        Message::NameForm
    } else {
        Message::NothingComes
    };
    add_message(last, 0, 0, b"", text, third)
}

// 1 to 9: what is refused of a sheet.
fn sheet_message(number: usize) -> Message
    ensures { text_of result ≡ get_or sheet_messages number [] }
{
    match number {
        1 => Message::WrongLength,
        2 => Message::WrongCounts,
        3 => Message::WrongAreas,
        4 => Message::UnknownKind,
        5 => Message::WrongField,
        6 => Message::WrongType,
        7 => Message::LongBound,
        8 => Message::NodeValues,
        9 => Message::NodeRows,
        _ => Message::NothingComes,
    }
}

pub fn add_of_sheet(number: usize, spot: usize, text: &mut [u8], at: usize) -> usize
    ensures { Adds text.old at (sheet_text number spot) text.new result }
{
    add_message(sheet_message(number), spot, 0, b"", text, at)
}

// 12: a word of a list is no action of so many. The list of these, nothing where they have no list.
pub fn add_wrong_listed(
    number: usize,
    word: &[u8],
    actions: usize,
    list: &[u8],
    text: &mut [u8],
    at: usize,
) -> usize
    ensures { Adds text.old at (wrong_listed_text number word.now actions list.now) text.new result }
{
    let first = add_message(Message::WrongListed, number, 0, word, text, at);
    let second = add_message(strange_message(word), 0, 0, word, text, first);
    let last = if list.is_empty() {
        Message::ListedNumbers
    } else {
        Message::ListedNames
    };
    add_message(last, actions, 0, list, text, second)
}

// A denial: its place and node, and the action, with its name, if it has one.
pub fn add_denied(
    place: usize,
    node: usize,
    action: usize,
    name: &[u8],
    text: &mut [u8],
    at: usize,
) -> usize
    ensures { Adds text.old at (denied_text place node action name.now) text.new result }
{
    let first = add_message(Message::DeniedAt, place, node, b"", text, at);
    let second = add_message(Message::ActionNumber, action, 0, b"", text, first);
    let third = add_with_word(Message::ActionName, name, text, second);
    add_message(
        Message::DeniedWord,
        following(place),
        place,
        b"",
        text,
        third,
    )
}
