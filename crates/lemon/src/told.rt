// What is told, written to standard output. The texts are definitions of crates told_messages and part_words.
use crate::rooms::TEXT_LENGTH;
use base::room;
use catalogue::{Message, add_message};
use fields::front;
use grammar::Category;
use part_words::add_denier;
use told_messages::{
    add_denied, add_of_rule, add_of_sheet, add_of_word, add_refused, add_unreadable,
    add_wrong_action, add_wrong_listed,
};

// Writes what is added to an empty text, which answers where it ends.
fn say<F: FnOnce(&mut [u8]) -> usize>(rt: &HostRuntime, add: F)
    requires { F.IsAlwaysCallable add }
{
    let mut text = room::<u8, TEXT_LENGTH>(0);
    let end = add(&mut text);
    standard_streams::write_all(rt, front(&text, end));
}

// A message of the catalogue.
pub(crate) fn tell(rt: &HostRuntime, message: Message, first: usize, second: usize, word: &[u8]) {
    say(
        rt,
        |text| add_message(message, first, second, word, text, 0),
    );
}

// The same without a word.
pub(crate) fn tell_number(rt: &HostRuntime, message: Message, first: usize, second: usize) {
    tell(rt, message, first, second, b"");
}

// The same on standard error, for notes and for commands that are wrong.
pub(crate) fn warn(rt: &HostRuntime, message: Message, first: usize, word: &[u8]) {
    let mut text = room::<u8, TEXT_LENGTH>(0);
    let end = add_message(message, first, 0, word, &mut text, 0);
    let _ = rt.stderr().write_all(front(&text, end));
}

pub(crate) fn warn_number(rt: &HostRuntime, message: Message, first: usize) {
    warn(rt, message, first, b"");
}

pub(crate) fn tell_refused(rt: &HostRuntime, number: usize, spot: usize) {
    say(rt, |text| add_refused(number, spot, text, 0));
}

pub(crate) fn tell_of_rule(
    rt: &HostRuntime,
    rule: usize,
    message: Message,
    first: usize,
    second: usize,
) {
    say(
        rt,
        |text| add_of_rule(rule, message, first, second, text, 0),
    );
}

pub(crate) fn tell_of_word(
    rt: &HostRuntime,
    rule: usize,
    line: usize,
    number: usize,
    message: Message,
    word: &[u8],
) {
    say(
        rt,
        |text| add_of_word(rule, line, number, message, word, text, 0),
    );
}

pub(crate) fn tell_unreadable(
    rt: &HostRuntime,
    rule: usize,
    line: usize,
    number: usize,
    word: &[u8],
    expected: Category,
    listed: &[u8],
) {
    say(
        rt,
        |text| add_unreadable(rule, line, number, word, expected, listed, text, 0),
    );
}

pub(crate) fn tell_wrong_action(rt: &HostRuntime, number: usize, word: &[u8]) {
    say(rt, |text| add_wrong_action(number, word, text, 0));
}

pub(crate) fn tell_of_sheet(rt: &HostRuntime, number: usize, spot: usize) {
    say(rt, |text| add_of_sheet(number, spot, text, 0));
}

pub(crate) fn tell_wrong_listed(
    rt: &HostRuntime,
    number: usize,
    word: &[u8],
    actions: usize,
    list: &[u8],
) {
    say(
        rt,
        |text| add_wrong_listed(number, word, actions, list, text, 0),
    );
}

pub(crate) fn tell_denied(rt: &HostRuntime, place: usize, node: usize, action: usize, name: &[u8]) {
    say(rt, |text| add_denied(place, node, action, name, text, 0));
}

pub(crate) fn tell_denier(
    rt: &HostRuntime,
    sheet: &[u8],
    node: usize,
    rule: usize,
    line: usize,
    word: usize,
) {
    say(
        rt,
        |text| add_denier(sheet, node, rule, line, word, text, 0),
    );
}
