// Tables one behind the other: whether each can be joined, whether they have one number of actions, and their rows in the slots of the work area.
ghost use Rattle.std.specs.Prelude.{◌≡◌, ◌++◌, ◌-◌, ◌≤◌, ◌<◌, length, replicate};
ghost use Rattle.limits.specs.Lengths.{work_length};
ghost use Rattle.joining.specs.Tables.{FitBefore};
ghost use Rattle.joining.specs.Reading.{FrontChecked, AllChecked, LaidOut};

use crate::JoinError;
use base::{copy, word};
use limits::SLOT_LENGTH;
use trace::Mode;
use well_formed::check_front;

// Checks 10, 11 and 34 of the table at the front of some bytes: where it ends, or the refusal.
fn check_table(bytes: &[u8]) -> Result<usize, JoinError>
    ensures { FrontChecked bytes.now result }
{
    let header = check_front(bytes).ok_or(JoinError::Malformed)?;
    let end = 8 + header.rows * header.actions;
    if !loader::canonical(&bytes[8..end], header.rows, header.actions) {
        return Err(JoinError::NotCanonical);
    }
    match header.mode {
        Mode::Watched => Err(JoinError::WatchedTable),
        Mode::Enforced => Ok(end),
    }
}

// The same table by table, up to the first that is not fit.
pub fn check_tables(count: usize, tables: &[u8]) -> Result<usize, JoinError>
    ensures { AllChecked count tables.now result }
{
    let mut at = 0;
    for _ in 0..count {
        at += check_table(&tables[at..])?;
    }
    Ok(at)
}

// The rows of a table at the front of a slot, and 255 behind them.
fn lay(entries: &[u8], slot: &mut [u8])
    requires { length entries.now ≤ length slot.old }
    ensures { slot.new ≡ entries.now ++ replicate (length slot.old - length entries.now) 255 }
{
    slot.fill(255);
    copy(entries, slot);
}

// Lays the rows of each table into the slot of its number, while all have the number of actions of the first. Gives that number, or none where
// they differ in it.
pub fn lay_out(count: usize, tables: &[u8], work: &mut [u8]) -> Option<usize>
    requires { FitBefore tables.now count × (0 < count) × (count ≤ 8) × (work_length ≤ length work.old) }
    ensures { LaidOut count tables.now result work.new }
{
    let actions = word(tables, 2);
    let mut at = 0;
    for i in 0..count {
        let rest = &tables[at..];
        if word(rest, 2) != actions {
            return None;
        }
        let end = 8 + word(rest, 4) * actions;
        let from = i * SLOT_LENGTH;
        lay(&rest[8..end], &mut work[from..from + SLOT_LENGTH]);
        at += end;
    }
    Some(actions)
}
