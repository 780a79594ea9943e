// From the rules of files to their tables, one after the other.
ghost use Rattle.std.specs.Prelude.{◌≡◌, ◌+◌, ◌*◌, ◌≤◌, length, IfSome};

use crate::head::{Actions, read_head, refuse_long_file};
use crate::rule::{Rule, read_rule, rule_at, tell_refusal, word_line};
use crate::told::{tell_number, tell_refused, warn_number};
use base::room;
use catalogue::Message;
use compiler::CompileError;
use fields::{find, front, part};
use limits::{NUMBERS_LENGTH, WORK_LENGTH};
use part_words::unheld;
use rule_lines::next_line;
use sheet_writer::LARGEST_SHEET;
use table::Header;

// A watched rule: its number in its file, and its line.
#[derive(Clone, Copy)]
pub(crate) struct WatchedRule {
    pub rule: usize,
    pub line: usize,
}

// Tables made so far: how many, where they end, and the first watched rule.
#[derive(Clone, Copy)]
pub(crate) struct Made {
    pub count: usize,
    pub end: usize,
    pub watched: Option<WatchedRule>,
    ghost few: { count ≤ 8 },
    ghost ended: { end ≤ 1032 * count },
}

impl Made {
    pub(crate) fn nothing() -> Made
        ensures { (result.count ≡ 0) × (result.end ≡ 0) }
    {
        Made {
            count: 0,
            end: 0,
            watched: None,
        }
    }
}

// The length of a table.
fn table_length(header: Header) -> usize
    ensures { result ≤ 1032 }
{
    let rows = header.rows.min(64);
    let actions = header.actions.min(16);
    8 + rows * actions
}

// Notes the propositions of a rule that no action has: it is then about nothing that happens.
fn note_unheld(rt: &HostRuntime, sheet: &[u8], actions: &[u16]) {
    for p in 0..16 {
        if unheld(sheet, actions, p) {
            warn_number(rt, Message::NoActionHas, p);
        }
    }
}

// Compiles a sheet to the front of `out`, with work areas of its own.
pub(crate) fn compile_to(sheet: &[u8], out: &mut [u8]) -> Result<Header, CompileError> {
    let mut work = room::<u8, WORK_LENGTH>(0);
    let mut values = room::<u64, NUMBERS_LENGTH>(0);
    compiler::compile(sheet, out, &mut work, &mut values)
}

// Compiles a rule's sheet to the front of `out`, and answers the length of the table. Tells why where it is refused.
fn make_sheet(
    rt: &HostRuntime,
    file: &[u8],
    rule: Rule,
    sheet: &[u8],
    out: &mut [u8],
) -> Option<usize>
    ensures { IfSome result (λ n. n ≤ 1032) }
{
    match compile_to(sheet, out) {
        Ok(header) => Some(table_length(header)),
        Err(CompileError::Refused(refusal)) => {
            tell_refusal(rt, refusal, file, rule, sheet);
            None
        }
        Err(CompileError::ShortArea) => None,
    }
}

// The same from the rule.
fn make_rule(
    rt: &HostRuntime,
    file: &[u8],
    rule: Rule,
    actions: &[u16],
    list: &[u8],
    out: &mut [u8],
) -> Option<usize>
    ensures { IfSome result (λ n. n ≤ 1032) }
{
    let mut area = room::<u8, LARGEST_SHEET>(0);
    let length = read_rule(rt, file, rule, actions, list, &mut area)?;
    let sheet = front(&area, length);
    note_unheld(rt, sheet, actions);
    make_sheet(rt, file, rule, sheet, out)
}

// Makes the table of one rule more, after those that are made.
fn make_next(
    rt: &HostRuntime,
    file: &[u8],
    rule: Rule,
    actions: &[u16],
    list: &[u8],
    tables: &mut [u8],
    made: Made,
) -> Option<Made>
    requires { (8256 ≡ length tables.old) × (made.count ≤ 7) }
    ensures { IfSome result (λ next. next.count ≡ made.count + 1) }
{
    let end = made.end;
    let length = make_rule(rt, file, rule, actions, list, &mut tables[end..])?;
    let mut watched = made.watched;
    if watched.is_none() && tables[end] == 2 {
        watched = Some(WatchedRule {
            rule: rule.number,
            line: word_line(file, rule, 0),
        });
    }
    Some(Made {
        count: made.count + 1,
        end: end + length,
        watched,
    })
}

// 2: more rules than can be joined.
pub(crate) fn refuse_many(rt: &HostRuntime) {
    tell_refused(rt, 2, 0);
    tell_number(rt, Message::ManyRules, 0, 0);
}

// Makes the tables of the rules of a file that begin here, after those that are made.
fn make_rules(
    rt: &HostRuntime,
    file: &[u8],
    start: usize,
    actions: &[u16],
    list: &[u8],
    tables: &mut [u8],
    before: Made,
) -> Option<Made>
    requires { (start ≤ length file.now) × (8256 ≡ length tables.old) }
{
    let mut made = before;
    let mut from = start;
    for number in 1..9 - before.count {
        let rule = rule_at(file, from, number);
        made = make_next(rt, file, rule, actions, list, tables, made)?;
        if rule.to == file.len() {
            return Some(made);
        }
        from = next_line(file, rule.to);
    }
    refuse_many(rt);
    None
}

// The action list of a rule file: its first line.
pub(crate) fn list_of(file: &[u8]) -> &[u8] {
    part(file, 0, find(file, 0, b'\n'))
}

// Makes the tables of a rule file over its actions, after those that are made.
pub(crate) fn make_file(
    rt: &HostRuntime,
    file: &[u8],
    actions: &[u16],
    tables: &mut [u8],
    before: Made,
) -> Option<Made>
    requires { 8256 ≡ length tables.old }
{
    let start = next_line(file, 0);
    make_rules(rt, file, start, actions, list_of(file), tables, before)
}

// Reads the action list of a rule file that is not too long. Tells why where it is refused.
pub(crate) fn open_file(rt: &HostRuntime, file: &[u8]) -> Option<Actions> {
    if 65535 < file.len() {
        refuse_long_file(rt);
        return None;
    }
    read_head(rt, list_of(file))
}
