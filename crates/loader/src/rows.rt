// Check 11: the numbering of the rows, and whether two are alike.
ghost use Rattle.std.specs.Prelude.{◌≡◌, length};
ghost use Rattle.base.specs.Build.{Decides};
ghost use Rattle.automaton.specs.Machine.{Distinct};
ghost use Rattle.table.specs.Table.{RowsFit, CanonicalRows};

use base::room;
use numbering::numbered;
use refinement::refine;

// The entries as next states.
fn widen(entries: &[u8], next: &mut [u16])
    requires { length next.old ≡ length entries.now }
    ensures { next.new ≡ entries.now }
{
    for (k, entry) in entries.iter().enumerate() {
        next[k] = u16::from(*entry);
    }
}

// Whether no two rows are alike: every row keeps a class of its own.
fn distinct(entries: &[u8], rows: usize, actions: usize) -> bool
    requires { RowsFit rows actions entries.now }
    ensures { Decides (Distinct 255 rows actions entries.now) result }
{
    let mut next: [u16; 1024] = room(0);
    let mut classes: [u8; 64] = room(0);
    let mut other: [u8; 64] = room(0);
    let mut firsts: [usize; 64] = room(0);
    let n = entries.len();
    widen(entries, &mut next[..n]);
    let found = refine(
        &next[..n],
        actions,
        rows,
        &mut classes[..rows],
        &mut other[..rows],
        &mut firsts,
    );
    found == Some(rows)
}

// Check 11: whether the rows are in the stated numbering and no two are alike.
pub fn canonical(entries: &[u8], rows: usize, actions: usize) -> bool
    requires { RowsFit rows actions entries.now }
    ensures { Decides (CanonicalRows rows actions entries.now) result }
{
    numbered(entries, rows, actions) && distinct(entries, rows, actions)
}
