// Check 10: the header of a table, its length and its entries.
#![tactic(auto)]

ghost use Rattle.table.specs.Table.{front_table};
ghost use Rattle.table.specs.Answer.{HeaderRead, Checked};

use base::word;
use entry_range::entries_fit;
use table::Header;
use trace::Mode;

// The header's fields, where they are in their ranges.
fn header_of(bytes: &[u8]) -> Option<Header>
    ensures { HeaderRead bytes.now result }
{
    if bytes.len() < 8 {
        return None;
    }
    let mode = match word(bytes, 0) {
        1 => Mode::Enforced,
        2 => Mode::Watched,
        _ => return None,
    };
    let actions = word(bytes, 2);
    let rows = word(bytes, 4);
    let offset = word(bytes, 6);
    if (1..=16).contains(&actions) && (1..=64).contains(&rows) && offset == 8 {
        return Some(Header {
            mode,
            actions,
            rows,
        });
    }
    None
}

// Check 10 on the table at the front of some bytes, as long as its header gives: the header's fields, where it passes.
pub fn check_front(bytes: &[u8]) -> Option<Header>
    ensures { Checked (front_table bytes.now) result }
{
    let header = header_of(bytes)?;
    let entries = bytes.get(8..8 + header.rows * header.actions)?;
    if entries_fit(entries, header.rows) {
        Some(header)
    } else {
        None
    }
}

// Check 10: the header's fields, where length, header and entries are right.
pub fn check(bytes: &[u8]) -> Option<Header>
    ensures { Checked bytes.now result }
{
    let header = check_front(bytes)?;
    if bytes.len() != 8 + header.rows * header.actions {
        return None;
    }
    Some(header)
}
