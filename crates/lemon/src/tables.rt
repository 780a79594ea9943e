// Tables printed, with notes on standard error where a table says less than its rule seems to.
use crate::told::warn_number;
use catalogue::Message;
use fields::{front, part};
use trace::Mode;

fn byte_at(bytes: &[u8], at: usize) -> u8 {
    if at < bytes.len() { bytes[at] } else { 0 }
}

fn mode_of(table: &[u8]) -> Mode {
    if byte_at(table, 0) == 2 {
        Mode::Watched
    } else {
        Mode::Enforced
    }
}

// Notes of a table that has no trip, or that trips at the first action, whatever it is.
fn note_table(rt: &HostRuntime, mode: Mode, first_row: &[u8], entries: &[u8]) {
    let watched = mode == Mode::Watched;
    if !entries.contains(&255) {
        let note = if watched {
            Message::NeverReported
        } else {
            Message::DeniesNothing
        };
        warn_number(rt, note, 0);
        return;
    }
    if first_row.iter().all(|entry| *entry == 255) {
        let note = if watched {
            Message::ReportedAtOnce
        } else {
            Message::DeniesAll
        };
        warn_number(rt, note, 0);
    }
}

// Prints a table, which its bytes are.
pub(crate) fn print_table(rt: &HostRuntime, table: &[u8]) {
    let mode = mode_of(table);
    let actions = usize::from(byte_at(table, 2));
    let rows = usize::from(byte_at(table, 4));
    let entries = part(table, 8, table.len());
    let mut text = printing::room();
    let printed = printing::print_table(mode, actions, rows, entries, &mut text);
    standard_streams::write_all(rt, printing::written(printed, &text));
    note_table(rt, mode, front(entries, actions), entries);
}
