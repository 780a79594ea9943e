// From a rule's text to its table.
ghost use Rattle.std.specs.Prelude.{◌≤◌, length, IfSome};

use compiler::{CompileError, Refusal};
use rule_files::{RuleText, front, read_rule, say, tell_size};
use rule_messages::any_between;

// The bytes of the largest table.
pub(crate) const TABLE_ROOM: usize = 1032;

// The length of a table of so many rows and actions.
fn table_length(actions: usize, rows: usize) -> usize
    ensures { (8 ≤ result) × (result ≤ TABLE_ROOM) }
{
    8 + rows.min(64) * actions.min(16)
}

// What is refused of the sheet of a text: 8 or 9.
fn tell_refused(rt: &impl Print, error: CompileError, rule: RuleText<'_>, sheet: &[u8]) {
    match error {
        CompileError::ShortArea | CompileError::Refused(Refusal::Faulty(_)) => {}
        CompileError::Refused(Refusal::TooManyValues(node)) => tell_size(
            rt,
            rule,
            sheet,
            node,
            b" remembers more than 1024 values\n",
        ),
        CompileError::Refused(Refusal::TooManyRows(node)) => {
            tell_size(rt, rule, sheet, node, b" needs more than 64 rows\n");
        }
    }
}

// Notes on standard error of a table without trip: its rule denies nothing, or is never reported.
pub(crate) fn tell_idle(rt: &impl Eprint, watched: bool, entries: &[u8]) {
    if any_between(entries, 255, 255) {
        return;
    }
    let note = if watched {
        "note: this rule is never reported\n"
    } else {
        "note: this rule denies nothing\n"
    };
    standard_streams::write_error(rt, note);
}

// Compiles a text's sheet to the front of `out`, and answers the length of the table. Prints a refusal, and the table of an only rule.
fn answer_sheet(
    rt: &(impl Print + Eprint),
    rule: RuleText<'_>,
    sheet: &[u8],
    out: &mut [u8],
) -> Option<usize>
    requires { TABLE_ROOM ≤ length out.old }
    ensures { IfSome result (λ n. (8 ≤ n) × (n ≤ TABLE_ROOM)) }
{
    let mut work: [u8; 65536] = base::room(0);
    let mut values: [u64; 1024] = base::room(0);
    let compiled = compiler::compile(sheet, out, &mut work, &mut values);
    let only = rule.place.rule.is_none();
    if only || compiled.is_err() {
        let mut text = printing::room();
        let printed = sheet_printing::print_answer(compiled, &out[8..], &mut text);
        say(rt, printing::written(printed, &text));
    }
    match compiled {
        Ok(header) => {
            let length = table_length(header.actions, header.rows);
            if only {
                tell_idle(rt, out[0] == 2, front(&out[8..], length - 8));
            }
            Some(length)
        }
        Err(error) => {
            tell_refused(rt, error, rule, sheet);
            None
        }
    }
}

// The same from a text under an action list, which is written in a line.
pub(crate) fn answer_text(
    rt: &(impl Print + Eprint),
    rule: RuleText<'_>,
    actions: &[u16],
    list: &[u8],
    out: &mut [u8],
) -> Option<usize>
    requires { TABLE_ROOM ≤ length out.old }
    ensures { IfSome result (λ n. (8 ≤ n) × (n ≤ TABLE_ROOM)) }
{
    let mut room: [u8; 362] = base::room(0);
    let sheet = read_rule(rt, rule, actions, list, &mut room)?;
    answer_sheet(rt, rule, sheet, out)
}
