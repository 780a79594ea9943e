// Whether the entries of a table are in their range, by the largest of them.
#![tactic(auto)]

ghost use Rattle.std.specs.Prelude.{◌≡◌, ℕ, ◌≤◌, ◌<◌, length, get_or};
ghost use Rattle.base.specs.Build.{Decides};
ghost use Rattle.table.specs.Table.{EntryFits};
ghost use Rattle.entry_range.specs.Largest.{one_past, Largest};

// One past an entry: 0 for a trip, so that the entry fits exactly when this is at most the count of rows.
fn one_past(e: u8) -> u8
    ensures { result ≡ one_past e }
{
    if e == 255 { 0 } else { e + 1 }
}

// The largest of one past each entry, by one plain pass.
fn top_of(entries: &[u8]) -> u8
    ensures { Largest entries.now (length entries.now) result }
{
    let mut top = 0u8;
    for entry in entries {
        top = top.max(one_past(*entry));
    }
    top
}

// The same of 64 entries or more, by one pass over both halves, each of them a multiple of 32 entries, so that where they meet some are read twice. The
// compiler makes vectors of it, with no rest, and twice as much a turn as of the plain pass.
fn top_of_halves(entries: &[u8]) -> u8
    requires { 64 ≤ length entries.now }
    ensures { Largest entries.now (length entries.now) result }
{
    let half = (entries.len() - 1) / 64 * 32 + 32;
    let second = entries.len() - half;
    let mut top = 0u8;
    for k in 0..half {
        let both = one_past(entries[k]).max(one_past(entries[second + k]));
        top = top.max(both);
    }
    top
}

// The largest of one past each entry.
fn top_of_any(entries: &[u8]) -> u8
    ensures { Largest entries.now (length entries.now) result }
{
    if entries.len() < 64 {
        top_of(entries)
    } else {
        top_of_halves(entries)
    }
}

// Whether every entry is below the count of rows, or 255.
pub fn entries_fit(entries: &[u8], rows: usize) -> bool
    ensures { Decides ((k : ℕ) → k < length entries.now → EntryFits rows (get_or entries.now k 255)) result }
{
    usize::from(top_of_any(entries)) <= rows
}
