// Sets of rows as numbers: all copies of a part moved by an action.
ghost use Rattle.std.specs.Prelude.{◌≡◌, ◌<◌};
ghost use Rattle.policy.specs.Value.{insert, move_all};
ghost use Rattle.rules.specs.Rules.{part_at, move_of, Readable};

use crate::PartRows;
use crate::parts::part_move;

// A set with one row more.
fn with_row(set: u64, row: u64) -> u64
    requires { row < 64 }
    ensures { result ≡ insert row set }
{
    set | (1u64 << row)
}

impl PartRows<'_> {
    // All copies moved by an action, and a copy beginning now. The lowest row left is found by trailing zeros.
    pub fn move_copies(self, i: u8, set: u64, action: usize) -> Option<u64>
        requires { Readable self.work.now i × (action < self.actions) }
        ensures { move_of result ≡ move_all (part_at self.entry.actions self.entry.work.now i) set action }
    {
        let mut moved = 1;
        let mut rest = set;
        while rest != 0 {
            let row = rest.trailing_zeros() as usize;
            let Some(next) = part_move(self.work, self.actions, i, row, action) else {
                return None;
            };
            moved = with_row(moved, next);
            rest &= rest - 1;
        }
        Some(moved)
    }
}
