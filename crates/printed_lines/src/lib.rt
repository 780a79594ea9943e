// The lines of a printed text, as defined in specs/Text.antt, written one piece after the other.
#![tactic(auto)]

ghost use Rattle.std.specs.Prelude.{◌≡◌, ◌++◌, ◌+◌, ◌*◌, ◌≤◌, ◌<◌, length};
ghost use Rattle.printed_lines.specs.Text.{mode_word, spaced, counts, entry_text, next_text, entries_text, row_line, row_lines};

use text_writer::Text;
use trace::Mode;

// The word for a mode.
pub fn put_mode<const N: usize>(mode: Mode, text: &mut Text<N>)
    requires { length text.old + 3 ≤ N }
    ensures { text.new ≡ text.old ++ mode_word mode }
{
    match mode {
        Mode::Enforced => text.put_word(b"enf"),
        Mode::Watched => text.put_word(b"mon"),
    }
}

// A blank and a number.
fn put_spaced<const N: usize>(n: usize, text: &mut Text<N>)
    requires n_bound { n < 1000 }
    requires room { length text.old + 4 ≤ N }
    ensures { text.new ≡ text.old ++ spaced n }
{
    text.put(b' ');
    text.put_number(n);
}

// The two numbers that end a first line.
#[tactic(auto, using(crate::proofs::Lengths::counted))]
pub fn put_counts<const N: usize>(first: usize, second: usize, text: &mut Text<N>)
    requires first_bound { first < 1000 }
    requires second_bound { second < 1000 }
    requires room { length text.old + 9 ≤ N }
    ensures written { text.new ≡ text.old ++ counts first second }
    ensures longer { length text.new ≤ length text.old + 9 }
{
    put_spaced(first, text);
    put_spaced(second, text);
    text.put(b'\n');
}

// An entry.
fn put_entry<const N: usize>(entry: u8, text: &mut Text<N>)
    requires { length text.old + 3 ≤ N }
    ensures { text.new ≡ text.old ++ entry_text entry }
{
    let e = usize::from(entry);
    let trips = e == 255;
    if trips {
        text.put(b'-');
    } else {
        text.put_number(e);
    }
}

// Entry k of a row, behind a blank where it is not the first.
fn put_next<const N: usize>(k: usize, entry: u8, text: &mut Text<N>)
    requires { length text.old + 4 ≤ N }
    ensures { text.new ≡ text.old ++ next_text k entry }
{
    let first = k == 0;
    if !first {
        text.put(b' ');
    }
    put_entry(entry, text);
}

// The entries of a row.
#[tactic(auto, using(crate::proofs::Lengths::lengths))]
fn put_entries<const N: usize>(row: &[u8], text: &mut Text<N>)
    requires { length text.old + 4 * length row.now ≤ N }
    ensures { text.new ≡ text.old ++ entries_text row.now (length row.now) }
{
    for (k, entry) in row.iter().enumerate() {
        put_next(k, *entry, text);
    }
}

// A row's line.
#[tactic(auto, using(crate::proofs::Lengths::lengths))]
fn put_row<const N: usize>(row: &[u8], text: &mut Text<N>)
    requires { length text.old + (4 * length row.now + 1) ≤ N }
    ensures { text.new ≡ text.old ++ row_line row.now }
{
    put_entries(row, text);
    text.put(b'\n');
}

// The lines of all rows.
#[tactic(auto, using(crate::proofs::Lengths::lengths))]
pub fn put_rows<const N: usize>(actions: usize, rows: usize, entries: &[u8], text: &mut Text<N>)
    requires actions_bound { actions ≤ 16 }
    requires actions_in_bounds { rows * actions ≤ length entries.now }
    requires rows_in_bounds { length text.old + 65 * rows ≤ N }
    ensures { text.new ≡ text.old ++ row_lines actions rows entries.now }
{
    for row in 0..rows {
        let from = row * actions;
        let to = from + actions;
        put_row(&entries[from..to], text);
    }
}
