// The public call.
ghost use Rattle.std.specs.Prelude.{◌≡◌, ◌++◌, ◌≤◌, length, drop};
ghost use Rattle.limits.specs.Lengths.{work_length, numbers_length};
ghost use Rattle.limits.specs.Limits.{largest};
ghost use Rattle.making.specs.Making.{Workable, Zeroed, WritesTo};
ghost use Rattle.explaining.specs.Explains.{Explains};
ghost use Rattle.explaining.specs.Calling.{answer_of, place_of, ExplainsInto};
ghost use Rattle.explaining.specs.Reading.{FindsBy, Standing};

use crate::reading::{all_actions, first_trip, lowest_tripped};
use crate::{Denial, ExplainError};
use compiler::{BuiltSheet, build_sheet};
use limits::{LARGEST, Limits, NUMBERS_LENGTH, WORK_LENGTH};
use making::long_enough;
use reached::reached_by_and;
use rules::PartRows;
use table::is_watched;

// Finds the first denied action of a list and the node that is named for it, by the rows of the sheet's nodes.
fn find_denial(built: &BuiltSheet, list: &[u8], work: &[u8]) -> Result<Option<Denial>, ExplainError>
    requires { Standing built.now.mode built.now.sheet work.now }
    ensures { FindsBy built.now.mode built.now.sheet list.now (answer_of result) (place_of result) }
{
    let actions = built.sheet.actions;
    let watched = is_watched(built.mode);
    let outside = !all_actions(list, actions);
    if watched {
        return Err(ExplainError::WatchedSheet);
    }
    if outside {
        return Err(ExplainError::NoAction);
    }
    let policy = built.sheet.count - 1;
    let last = policy as u8;
    let parts = PartRows { work, actions };
    let Some(place) = first_trip(parts, last, list) else {
        return Ok(None);
    };
    let set = reached_by_and(built.sheet.nodes, policy);
    let end = place + 1;
    let node = lowest_tripped(parts, set, last, &list[..end]);
    Ok(Some(Denial {
        place,
        node: usize::from(node),
    }))
}

// Explains with any limits. The areas stay slices of their own down to here: `explain` is lent them so by C, and its clause is over each.
fn explain_with(
    sheet: &[u8],
    list: &[u8],
    work: &mut [u8],
    values: &mut [u64],
    limits: Limits,
) -> Result<Option<Denial>, ExplainError>
    requires { Workable limits work.old values.old }
    ensures { Explains sheet.now list.now limits (answer_of result) (place_of result) }
{
    let built = build_sheet(sheet, work, values, limits)?;
    find_denial(&built, list, work)
}

// Writes the place of a denial.
fn write_place(explained: Result<Option<Denial>, ExplainError>, out: &mut [u64])
    requires { 1 ≤ length out.old }
    ensures { out.new ≡ place_of explained ++ drop (length (place_of explained)) out.old }
{
    if let Ok(Some(denial)) = explained {
        out[0] = denial.place as u64;
    }
}

// Explains in work areas of their exact lengths, and zeroes them.
fn explain_in(
    sheet: &[u8],
    list: &[u8],
    out: &mut [u64],
    work: &mut [u8],
    values: &mut [u64],
) -> Result<Option<Denial>, ExplainError>
    requires in_bounds { 1 ≤ length out.old }
    requires work_len { length work.old ≡ work_length }
    requires values_len { length values.old ≡ numbers_length }
    ensures writes_to { WritesTo (Explains sheet.now list.now largest) (answer_of result) out.old out.new }
    ensures zeroed { Zeroed work.old work.new }
    ensures zeroed_2 { Zeroed values.old values.new }
{
    let explained = explain_with(sheet, list, work, values, LARGEST);
    work.fill(0);
    values.fill(0);
    write_place(explained, out);
    explained
}

// Explains: names the first denied action of a list, and the node that denies it; its place is written to the front of `out` too. No table is written.
// Both work areas are zero on return.
pub fn explain(
    sheet: &[u8],
    list: &[u8],
    out: &mut [u64],
    work: &mut [u8],
    values: &mut [u64],
) -> Result<Option<Denial>, ExplainError>
    ensures { ExplainsInto sheet.now list.now out.old work.old values.old (answer_of result) out.new work.new values.new }
{
    if !long_enough(1, out.len(), work.len(), values.len()) {
        return Err(ExplainError::ShortArea);
    }
    explain_in(
        sheet,
        list,
        out,
        &mut work[..WORK_LENGTH],
        &mut values[..NUMBERS_LENGTH],
    )
}
