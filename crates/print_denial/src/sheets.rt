// A list asked of a sheet.
use crate::denials::{ask, say_denier, say_quoted, tell_denied, tell_permitted};
use crate::list::refuse_list;
use compiler::Refusal;
use explaining::ExplainError;
use rule_files::{byte_at, say, say_number, say_refusal};
use syntax::Fault;

// 4 to 9: the node, and what is wrong with it.
fn tell_node(rt: &impl Print, node: usize, wrong: &[u8]) {
    say(rt, b"node ");
    say_number(rt, node);
    say(rt, wrong);
}

// 1 to 7.
fn tell_fault(rt: &impl Print, fault: Fault) {
    match fault {
        Fault::Length => say(
            rt,
            b"the sheet has fewer than 10 bytes, or its header says another length: give the whole sheet\n",
        ),
        Fault::Counts => say(
            rt,
            b"the sheet has not 1 to 16 actions, or not 1 to 64 nodes: correct the counts\n",
        ),
        Fault::Areas => say(
            rt,
            b"a list of the sheet is in the header, over the end or over the other: correct the offsets\n",
        ),
        Fault::UnknownKindAt(node) => tell_node(rt, node, b" is of no known kind: correct it\n"),
        Fault::WrongFieldAt(node) => tell_node(
            rt,
            node,
            b" has a part that is no earlier node, an argument outside its range, or an unused field that is not 0: correct it\n",
        ),
        Fault::WrongTypeAt(node) => tell_node(
            rt,
            node,
            b" has a part of the wrong type, or is the last one and a formula: rewrite the rule\n",
        ),
        Fault::BoundAt(node) => tell_node(
            rt,
            node,
            b" has a finite bound above 65534: shorten the rule\n",
        ),
    }
}

// 1 to 9: what the compiler refuses.
fn tell_refused(rt: &impl Print, refusal: Refusal) {
    match refusal {
        Refusal::Faulty(fault) => tell_fault(rt, fault),
        Refusal::TooManyValues(node) => tell_node(
            rt,
            node,
            b" remembers more than 1024 values: simplify it\n",
        ),
        Refusal::TooManyRows(node) => tell_node(
            rt,
            node,
            b" needs more than 64 rows: simplify it\n",
        ),
    }
}

// Prints the answer to a list, of which this is the line, asked of a sheet whose actions have these names.
pub(crate) fn answer_sheet(rt: &impl Print, sheet: &[u8], line: &[u8], list: &[u8], names: &[u8]) {
    match ask(sheet, list) {
        Ok(None) => tell_permitted(rt, list.len()),
        Ok(Some(denial)) => {
            tell_denied(rt, list, names, denial);
            say_denier(rt, sheet, denial.node);
            say_quoted(rt, sheet, denial.node);
        }
        Err(ExplainError::ShortArea) => say_refusal(rt, 14, 0),
        Err(ExplainError::Refused(refusal)) => {
            say_refusal(rt, refusal.number(), refusal.spot());
            tell_refused(rt, refusal);
        }
        Err(ExplainError::WatchedSheet) => {
            say_refusal(rt, 34, 0);
            say(
                rt,
                b"a watched sheet denies nothing: ask of an enforced one\n",
            );
        }
        Err(ExplainError::NoAction) => refuse_list(rt, line, list, names, byte_at(sheet, 0)),
    }
}
