// A list asked of the rules of a file: the rule that denies first answers, the lowest-numbered one of several that deny at one place.
ghost use Rattle.std.specs.Prelude.{◌≤◌, length};

use crate::denials::{ask, say_denier, say_quoted, tell_denied, tell_permitted};
use crate::list::refuse_list;
use compiler::Refusal;
use explaining::{Denial, ExplainError};
use rule_files::{
    Place, RuleText, first_watched, line_behind, part_from, read_rule, say_refusal, say_spot,
    tell_rules, tell_size, tell_watched, words_before,
};

// A rule that denies.
#[derive(Clone, Copy)]
struct Denying<'a> {
    rule: RuleText<'a>,
    denial: Denial,
}

// What is found of the rules so far: the first watched one, whether the list has a number that is no action, and the first denial.
#[derive(Clone, Copy)]
struct Found<'a> {
    watched: Option<Place>,
    wrong_list: bool,
    denying: Option<Denying<'a>>,
}

// What asking a rule finds.
#[derive(Clone, Copy)]
enum Asked {
    Watched,
    WrongList,
    Permitted,
    Denied(Denial),
}

// What the compiler refuses of the sheet of a text: 8 or 9.
fn tell_refused(rt: &impl Print, refusal: Refusal, rule: RuleText<'_>, sheet: &[u8]) {
    match refusal {
        Refusal::Faulty(_) => {}
        Refusal::TooManyValues(node) => tell_size(
            rt,
            rule,
            sheet,
            node,
            b" remembers more than 1024 values\n",
        ),
        Refusal::TooManyRows(node) => {
            tell_size(rt, rule, sheet, node, b" needs more than 64 rows\n");
        }
    }
}

// Asks the sheet of a text; nothing is found where it is refused, which is told.
fn ask_sheet(rt: &impl Print, rule: RuleText<'_>, sheet: &[u8], list: &[u8]) -> Option<Asked> {
    match ask(sheet, list) {
        Ok(None) => Some(Asked::Permitted),
        Ok(Some(denial)) => Some(Asked::Denied(denial)),
        Err(ExplainError::WatchedSheet) => Some(Asked::Watched),
        Err(ExplainError::NoAction) => Some(Asked::WrongList),
        Err(ExplainError::ShortArea) => {
            say_refusal(rt, 14, 0);
            None
        }
        Err(ExplainError::Refused(refusal)) => {
            say_refusal(rt, refusal.number(), refusal.spot());
            tell_refused(rt, refusal, rule, sheet);
            None
        }
    }
}

// The same from a text under an action list.
fn ask_rule(
    rt: &impl Print,
    rule: RuleText<'_>,
    actions: &[u16],
    list: &[u8],
    names: &[u8],
) -> Option<Asked> {
    let mut room: [u8; 362] = base::room(0);
    let sheet = read_rule(rt, rule, actions, names, &mut room)?;
    ask_sheet(rt, rule, sheet, list)
}

// What is found with one rule more.
fn found_with<'a>(found: Found<'a>, asked: Asked, rule: RuleText<'a>) -> Found<'a> {
    let mut next = found;
    match asked {
        Asked::Watched => next.watched = first_watched(found.watched, true, rule),
        Asked::WrongList => next.wrong_list = true,
        Asked::Permitted => {}
        Asked::Denied(denial) => {
            if found
                .denying
                .is_none_or(|first| denial.place < first.denial.place)
            {
                next.denying = Some(Denying { rule, denial });
            }
        }
    }
    next
}

// Asks the rules of a file one after the other; nothing is found where one is refused, which is told.
fn ask_rules<'a>(
    rt: &impl Print,
    file: &'a [u8],
    actions: &[u16],
    list: &[u8],
    names: &[u8],
) -> Option<Found<'a>>
    requires { length file.now ≤ 65535 }
{
    let mut found = Found {
        watched: None,
        wrong_list: false,
        denying: None,
    };
    let mut from = line_behind(file, 0);
    for number in 1..=8usize {
        let part = part_from(file, from, number);
        let asked = ask_rule(rt, part.rule, actions, list, names)?;
        found = found_with(found, asked, part.rule);
        if part.last {
            return Some(found);
        }
        from = line_behind(file, part.to);
    }
    say_refusal(rt, 2, 0);
    tell_rules(rt);
    None
}

// The part of a rule that denies, by the words of its text.
fn tell_part(rt: &impl Print, rule: RuleText<'_>, actions: &[u16], node: usize) {
    let mut room: [u8; 362] = base::room(0);
    if let Some(sheet) = read_rule(rt, rule, actions, b"", &mut room) {
        say_denier(rt, sheet, node);
        say_spot(rt, rule, words_before(sheet, node));
        say_quoted(rt, sheet, node);
    }
}

// 34: the first watched rule.
fn refuse_watched(rt: &impl Print, watched: Place) {
    say_refusal(rt, 34, 0);
    tell_watched(rt, watched, b": ask of rules that begin with enforce\n");
}

// Prints the answer to a list, of which this is the line, asked of the rules of a file. The actions have these names.
pub(crate) fn answer_rules(
    rt: &impl Print,
    file: &[u8],
    actions: &[u16],
    line: &[u8],
    list: &[u8],
    names: &[u8],
)
    requires { length file.now ≤ 65535 }
{
    let Some(found) = ask_rules(rt, file, actions, list, names) else {
        return;
    };
    if let Some(watched) = found.watched {
        refuse_watched(rt, watched);
    } else if found.wrong_list {
        refuse_list(rt, line, list, names, actions.len());
    } else if let Some(Denying { rule, denial }) = found.denying {
        tell_denied(rt, list, names, denial);
        tell_part(rt, rule, actions, denial.node);
    } else {
        tell_permitted(rt, list.len());
    }
}
