// Check 25: whether a rule can be, over how many actions, and whether it can stand beside others.
ghost use Rattle.std.specs.Prelude.{◌≡◌};
ghost use Rattle.table.specs.Answer.{mode_number};
ghost use Rattle.table.specs.Table.{front_table};
ghost use Rattle.view.specs.View.{held};
ghost use Rattle.scan.specs.Survey.{ReadsRule, ReadsPlace, admitted};

use places::Case;
use trace::Mode;

// A rule that can be, read for an action: over how many actions it is, and the action's entry in its row, where it is in the list.
#[derive(Clone, Copy)]
pub struct RuleRead {
    pub actions: usize,
    pub entry: u8,
}

// The rule of a type at a row, by the bytes of its place, where it can be.
fn rule_in(part: &[u8], mode: Mode, row: u8, action: usize) -> Option<RuleRead>
    ensures { ReadsRule (front_table part.now) (mode_number mode) row action result }
{
    let header = well_formed::check_front(part)?;
    let at_row = usize::from(row);
    if header.mode != mode || header.rows <= at_row {
        return None;
    }
    let actions = header.actions;
    if actions <= action {
        return Some(RuleRead { actions, entry: 0 });
    }
    let at = 8 + at_row * actions + action;
    Some(RuleRead {
        actions,
        entry: part[at],
    })
}

// The rule of a taken place, by its case and bytes, where it can be. The bytes of an empty place are not read; a fulfilled rule is a watched one at
// any row.
pub fn see(case: Case, part: &[u8], action: usize) -> Option<RuleRead>
    ensures { ReadsPlace (held case (front_table part.now)) case action result }
{
    match case {
        Case::Empty => None,
        Case::Enforced(row) => rule_in(part, Mode::Enforced, row, action),
        Case::Watched(row) => rule_in(part, Mode::Watched, row, action),
        Case::Fulfilled => rule_in(part, Mode::Watched, 0, action),
    }
}

// Whether a rule over so many actions can join those on the board, which are over `known`; none: no rule is on.
pub fn admits(known: Option<usize>, actions: usize) -> bool
    ensures { result ≡ admitted known actions }
{
    known.is_none_or(|known| known == actions)
}
