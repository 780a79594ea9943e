// A list of actions asked of a sheet, or of the rules of a file.
ghost use Rattle.std.specs.Prelude.{◌≤◌, length};

use crate::compiling::{WatchedRule, list_of, open_file, refuse_many};
use crate::rooms::LIST_LENGTH;
use crate::rule::{Rule, read_rule, rule_at, tell_refusal, word_line};
use crate::told::{
    tell_denied, tell_denier, tell_number, tell_of_rule, tell_of_sheet, tell_refused,
    tell_wrong_listed,
};
use action_lists::{action_name, first_outside, read_list};
use base::room;
use catalogue::Message;
use explaining::{Denial, ExplainError};
use fields::front;
use limits::{NUMBERS_LENGTH, WORK_LENGTH};
use part_words::words_before;
use positions::word_of;
use rule_lines::{is_sheet, next_line};
use sheet_writer::LARGEST_SHEET;
use told_messages::following;

// Explains with areas of its own.
fn ask(sheet: &[u8], list: &[u8]) -> Result<Option<Denial>, ExplainError> {
    let mut place = room::<u64, 1>(0);
    let mut work = room::<u8, WORK_LENGTH>(0);
    let mut values = room::<u64, NUMBERS_LENGTH>(0);
    explaining::explain(sheet, list, &mut place, &mut work, &mut values)
}

fn number_at(list: &[u8], place: usize) -> usize {
    if place < list.len() {
        usize::from(list[place])
    } else {
        0
    }
}

// The denied action, with its name in the action list.
fn tell_action(rt: &HostRuntime, list: &[u8], names: &[u8], denial: Denial) {
    let action = number_at(list, denial.place);
    let name = action_name(names, action);
    tell_denied(rt, denial.place, denial.node, action, name);
}

// 12: the first word of the line that is no action of so many.
fn refuse_list(rt: &HostRuntime, line: &[u8], list: &[u8], names: &[u8], actions: usize) {
    let place = first_outside(list, actions);
    tell_refused(rt, 12, 0);
    tell_wrong_listed(rt, following(place), word_of(line, place), actions, names);
}

// What is refused of a sheet.
pub(crate) fn refuse_sheet(rt: &HostRuntime, number: usize, spot: usize) {
    tell_refused(rt, number, spot);
    tell_of_sheet(rt, number, spot);
}

fn explain_sheet(rt: &HostRuntime, sheet: &[u8], line: &[u8], list: &[u8]) {
    match ask(sheet, list) {
        Ok(None) => tell_number(rt, Message::NoneDenied, list.len(), 0),
        Ok(Some(denial)) => {
            tell_action(rt, list, b"", denial);
            tell_denier(rt, sheet, denial.node, 0, 0, 0);
        }
        Err(ExplainError::NoAction) => refuse_list(rt, line, list, b"", number_at(sheet, 0)),
        Err(ExplainError::Refused(refusal)) => {
            refuse_sheet(rt, refusal.number(), refusal.spot());
        }
        Err(ExplainError::WatchedSheet) => {
            refuse_sheet(rt, 34, 0);
            tell_number(rt, Message::WatchedSheet, 0, 0);
        }
        Err(ExplainError::ShortArea) => refuse_sheet(rt, 14, 0),
    }
}

// A denial by a rule.
#[derive(Clone, Copy)]
struct RuleDenial {
    denial: Denial,
    rule: Rule,
}

// What is found of the rules so far: the first watched one, that the list has a number that is no action, and the first denial.
#[derive(Clone, Copy)]
struct Found {
    watched: Option<WatchedRule>,
    wrong_list: bool,
    denied: Option<RuleDenial>,
}

// What is found with a watched rule more.
fn found_watched(found: Found, file: &[u8], rule: Rule) -> Found {
    if found.watched.is_some() {
        return found;
    }
    let watched = Some(WatchedRule {
        rule: rule.number,
        line: word_line(file, rule, 0),
    });
    Found { watched, ..found }
}

// What is found with a denial more. It is the earliest one; of two at one place that of the rule before.
fn found_denied(found: Found, denial: Denial, rule: Rule) -> Found {
    if let Some(first) = found.denied {
        if first.denial.place <= denial.place {
            return found;
        }
    }
    Found {
        denied: Some(RuleDenial { denial, rule }),
        ..found
    }
}

// What is found with the sheet of one rule more. Tells why where the rule is refused.
fn ask_sheet(
    rt: &HostRuntime,
    found: Found,
    file: &[u8],
    rule: Rule,
    sheet: &[u8],
    list: &[u8],
) -> Option<Found> {
    match ask(sheet, list) {
        Ok(None) => Some(found),
        Ok(Some(denial)) => Some(found_denied(found, denial, rule)),
        Err(ExplainError::WatchedSheet) => Some(found_watched(found, file, rule)),
        Err(ExplainError::NoAction) => Some(Found {
            wrong_list: true,
            ..found
        }),
        Err(ExplainError::Refused(refusal)) => {
            tell_refusal(rt, refusal, file, rule, sheet);
            None
        }
        Err(ExplainError::ShortArea) => None,
    }
}

// The same with the rule.
fn ask_rule(
    rt: &HostRuntime,
    found: Found,
    file: &[u8],
    rule: Rule,
    actions: &[u16],
    list: &[u8],
    names: &[u8],
) -> Option<Found> {
    let mut area = room::<u8, LARGEST_SHEET>(0);
    let length = read_rule(rt, file, rule, actions, names, &mut area)?;
    ask_sheet(rt, found, file, rule, front(&area, length), list)
}

// Asks the rules of a file one after the other. Tells why where one is refused. A loop shared with make_rules is no plainer: both end it by `?`.
fn ask_rules(
    rt: &HostRuntime,
    file: &[u8],
    actions: &[u16],
    list: &[u8],
    names: &[u8],
) -> Option<Found> {
    let mut found = Found {
        watched: None,
        wrong_list: false,
        denied: None,
    };
    let mut from = next_line(file, 0);
    for number in 1..9 {
        let rule = rule_at(file, from, number);
        found = ask_rule(rt, found, file, rule, actions, list, names)?;
        if rule.to == file.len() {
            return Some(found);
        }
        from = next_line(file, rule.to);
    }
    refuse_many(rt);
    None
}

// The node that denies, by the words of the rule's text.
fn tell_node(
    rt: &HostRuntime,
    file: &[u8],
    rule: Rule,
    actions: &[u16],
    names: &[u8],
    node: usize,
) {
    let mut area = room::<u8, LARGEST_SHEET>(0);
    let length = read_rule(rt, file, rule, actions, names, &mut area).unwrap_or(0);
    let sheet = front(&area, length);
    let words = words_before(sheet, node);
    let line = word_line(file, rule, words);
    tell_denier(rt, sheet, node, rule.number, line, following(words));
}

fn tell_found(
    rt: &HostRuntime,
    found: Found,
    file: &[u8],
    actions: &[u16],
    line: &[u8],
    list: &[u8],
    names: &[u8],
) {
    if let Some(watched) = found.watched {
        tell_refused(rt, 34, 0);
        tell_of_rule(rt, watched.rule, Message::WatchedAsked, watched.line, 0);
        return;
    }
    if found.wrong_list {
        refuse_list(rt, line, list, names, actions.len());
        return;
    }
    match found.denied {
        None => tell_number(rt, Message::NoneDenied, list.len(), 0),
        Some(first) => {
            tell_action(rt, list, names, first.denial);
            tell_node(rt, file, first.rule, actions, names, first.denial.node);
        }
    }
}

// A list, of which this is the line, asked of a rule file.
fn explain_rules(rt: &HostRuntime, file: &[u8], line: &[u8]) {
    let Some(actions) = open_file(rt, file) else {
        return;
    };
    let names = list_of(file);
    let mut area = room::<u8, LIST_LENGTH>(0);
    let length = read_list(line, names, &mut area);
    let list = front(&area, length);
    if let Some(found) = ask_rules(rt, file, actions.sets(), list, names) {
        tell_found(rt, found, file, actions.sets(), line, list, names);
    }
}

// Prints which action of a list is denied first, and by which part of a file's rules or of a sheet.
pub(crate) fn explain_file(rt: &HostRuntime, file: &[u8], line: &[u8]) {
    if 65535 < line.len() {
        tell_refused(rt, 31, 0);
        tell_number(rt, Message::LongList, 0, 0);
        return;
    }
    if !is_sheet(file) {
        explain_rules(rt, file, line);
        return;
    }
    let mut area = room::<u8, LIST_LENGTH>(0);
    let length = read_list(line, b"", &mut area);
    explain_sheet(rt, file, line, front(&area, length));
}
