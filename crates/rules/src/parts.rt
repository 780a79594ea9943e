// A part's move, read from its rows in the work area.
ghost use Rattle.std.specs.Prelude.{◌≡◌, ◌*◌, ◌+◌, ◌≤◌, ◌<◌, length, get_or};
ghost use Rattle.limits.specs.Lengths.{work_length};
ghost use Rattle.rules.specs.Rules.{slot_at, part_at, move_of};

use limits::SLOT_LENGTH;

// Entry k of the rows of node i, 255 where there is none.
pub fn entry_at(work: &[u8], i: u8, k: usize) -> u8
    requires { (work_length ≤ length work.now) × (i < 64) }
    ensures { result ≡ get_or (slot_at work.now i) k 255 }
{
    if k < SLOT_LENGTH {
        work[usize::from(i) * SLOT_LENGTH + k]
    } else {
        255
    }
}

// Where an action leads from a row of node i: to the next row, or to none, a trip.
pub fn part_move(work: &[u8], actions: usize, i: u8, row: usize, action: usize) -> Option<u64>
    requires { (work_length ≤ length work.now) × (i < 64) × (row * actions + action < 65536) }
    ensures { move_of result ≡ part_at actions work.now i row action }
{
    let e = entry_at(work, i, row * actions + action);
    if e == 255 { None } else { Some(u64::from(e)) }
}
