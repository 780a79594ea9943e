// A table's verdict beside the policy's, after every sequence that is judged.
ghost use Rattle.std.specs.Prelude.{◌≤◌};

use crate::bytes::{at, room};
use crate::checks::judge;
use crate::meanings::evaluate;
use crate::sequences::{judged, spell, times};
use crate::truths::TRUTHS;
use crate::{Compared, Mode, Sheet};

// The entry of a trip.
const TRIP: usize = 255;

// Whether a sequence trips the table.
fn table_trips(table: &[u8], actions: usize, sequence: &[u8]) -> bool {
    let mut row = 0;
    for action in sequence {
        row = at(table, 8 + times(row, actions) + usize::from(*action));
        if row == TRIP {
            return true;
        }
    }
    false
}

// Whether the sequence s trips the policy of a sheet, its last node: satisfied where it is watched, violated where it is enforced.
fn policy_trips(truths: &[bool], sheet: &Sheet, s: usize) -> bool {
    let last = sheet.areas.nodes.saturating_sub(1);
    let satisfied = truths.get(2048 * (last % 64) + s % 2048) == Some(&true);
    satisfied == (sheet.mode == Mode::Watched)
}

// Compares after each sequence.
fn compare_each(table: &[u8], truths: &[bool], sheet: &Sheet) -> Compared
    ensures { (result.differing ≤ result.sequences) × (result.sequences ≤ 2048) }
{
    let actions = sheet.areas.actions;
    let sequences = judged(actions);
    let mut letters = room::<u8, 130>(0);
    let mut differing = 0;
    for s in 0..sequences {
        let sequence = spell(s, actions, &mut letters);
        if table_trips(table, actions, sequence) != policy_trips(truths, sheet, s) {
            differing += 1;
        }
    }
    Compared {
        sequences,
        differing,
    }
}

// Compares a table with the policy of a sheet that was judged.
pub fn compare_sheet(bytes: &[u8], sheet: &Sheet, table: &[u8]) -> Compared
    ensures { (result.differing ≤ result.sequences) × (result.sequences ≤ 2048) }
{
    let mut truths = room::<bool, TRUTHS>(false);
    evaluate(bytes, sheet, &mut truths);
    compare_each(table, &truths, sheet)
}

// Compares a table with the policy of a sheet that passes checks 1 to 7, of the mode with this number. On other bytes no sequence is judged.
pub fn compare(bytes: &[u8], mode: usize, table: &[u8]) -> Compared
    ensures { (result.differing ≤ result.sequences) × (result.sequences ≤ 2048) }
{
    let Ok(mut sheet) = judge(bytes) else {
        return Compared {
            sequences: 0,
            differing: 0,
        };
    };
    sheet.mode = if mode == Mode::Watched.number() {
        Mode::Watched
    } else {
        Mode::Enforced
    };
    compare_sheet(bytes, &sheet, table)
}
