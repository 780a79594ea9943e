// A call with an output and two work areas: the lengths of what it is lent; and the bytes of a table.
#![tactic(auto)]

ghost use Rattle.std.specs.Prelude.{◌≡◌, ◌++◌, ◌+◌, ◌≤◌, length, drop};
ghost use Rattle.base.specs.Build.{Decides};
ghost use Rattle.table.specs.Answer.{mode_number};
ghost use Rattle.making.specs.Making.{table_bytes, Lengths};

use base::copy;
use limits::{NUMBERS_LENGTH, WORK_LENGTH};
use table::{Header, mode_number};

// Whether an output and two work areas of these lengths are long enough, where the output takes `least`.
pub fn long_enough(least: usize, out: usize, work: usize, values: usize) -> bool
    ensures { Decides (Lengths least out work values) result }
{
    least <= out && WORK_LENGTH <= work && NUMBERS_LENGTH <= values
}

// Writes a table to the front of `out`.
pub fn write_table(header: Header, entries: &[u8], out: &mut [u8])
    requires actions_bound { header.actions ≤ 255 }
    requires rows_bound { header.rows ≤ 255 }
    requires entries_in_bounds { 8 + length entries.now ≤ length out.old }
    ensures { out.new ≡ table_bytes (mode_number header.mode) header.actions header.rows entries.now ++ drop (8 + length entries.now) out.old }
{
    let fields = [
        mode_number(header.mode),
        0,
        header.actions as u8,
        0,
        header.rows as u8,
        0,
        8,
        0,
    ];
    copy(&fields, out);
    copy(entries, &mut out[8..]);
}
