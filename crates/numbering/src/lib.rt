// Whether the rows of a table are in the stated numbering.
#![tactic(auto)]

ghost use Rattle.base.specs.Build.{Decides};
ghost use Rattle.automaton.specs.Machine.{Numbered};
ghost use Rattle.table.specs.Table.{RowsFit};

// Whether the rows are in the stated numbering, each met, and met before it is read.
pub fn numbered(entries: &[u8], rows: usize, actions: usize) -> bool
    requires { RowsFit rows actions entries.now }
    ensures { Decides (Numbered 255 rows actions entries.now) result }
{
    let mut met = 1;
    for (k, entry) in entries.iter().enumerate() {
        let e = usize::from(*entry);
        if e != 255 {
            if met < e {
                return false;
            }
            if e == met {
                if met * actions <= k {
                    return false;
                }
                met += 1;
            }
        }
    }
    rows <= met
}
