// The public call.
ghost use Rattle.std.specs.Prelude.{◌≡◌, ◌≤◌, length};
ghost use Rattle.limits.specs.Lengths.{work_length, numbers_length};
ghost use Rattle.limits.specs.Limits.{largest};
ghost use Rattle.table.specs.Table.{largest_table};
ghost use Rattle.making.specs.Making.{Lent, Zeroed, WritesTo};
ghost use Rattle.steppers.specs.Tuples.{tuple_step, parts_from, TablesReadable};
ghost use Rattle.machine_tables.specs.Makes.{MachineMakes};
ghost use Rattle.joining.specs.Reading.{Acting};
ghost use Rattle.joining.specs.Joins.{Joins};
ghost use Rattle.joining.specs.Calling.{answer_of, JoinsInto};

use crate::JoinError;
use crate::reading::{check_tables, lay_out};
use limits::{LARGEST, Limits, NUMBERS_LENGTH, WORK_LENGTH};
use machine_rows::Plan;
use machine_tables::make_table;
use making::long_enough;
use steppers::Tables;
use table::{Header, LARGEST_TABLE};
use trace::Mode;

// Makes the table of the tables in the first slots, read together. Its rows are built in the slot behind those of eight tables.
fn build_joined(
    count: usize,
    actions: usize,
    out: &mut [u8],
    work: &mut [u8],
    values: &mut [u64],
    limits: Limits,
) -> Result<Header, JoinError>
    requires tables_readable { TablesReadable work.old count × Acting actions }
    requires lent { Lent limits out.old work.old values.old }
    ensures { WritesTo (MachineMakes 1 actions (tuple_step (parts_from actions work.old 0 count)) 0 limits) (answer_of result) out.old out.new }
{
    let plan = Plan {
        slot: 8,
        actions,
        limits,
    };
    let joined = Tables { count: count as u8 };
    Ok(make_table(Mode::Enforced, joined, plan, out, work, values)?)
}

// Joins tables with any limits.
fn join_with(
    count: usize,
    tables: &[u8],
    out: &mut [u8],
    work: &mut [u8],
    values: &mut [u64],
    limits: Limits,
) -> Result<Header, JoinError>
    requires { Lent limits out.old work.old values.old }
    ensures { WritesTo (Joins count tables.now limits) (answer_of result) out.old out.new }
{
    if count < 2 || 8 < count {
        return Err(JoinError::WrongCount);
    }
    let end = check_tables(count, tables)?;
    if end != tables.len() {
        return Err(JoinError::Malformed);
    }
    let actions = lay_out(count, tables, work).ok_or(JoinError::OtherActions)?;
    build_joined(count, actions, out, work, values, limits)
}

// Joins tables in work areas of their exact lengths, and zeroes them.
fn join_in(
    count: usize,
    tables: &[u8],
    out: &mut [u8],
    work: &mut [u8],
    values: &mut [u64],
) -> Result<Header, JoinError>
    requires largest_table_in_bounds { largest_table ≤ length out.old }
    requires work_len { length work.old ≡ work_length }
    requires values_len { length values.old ≡ numbers_length }
    ensures writes_to { WritesTo (Joins count tables.now largest) (answer_of result) out.old out.new }
    ensures zeroed { Zeroed work.old work.new }
    ensures zeroed_2 { Zeroed values.old values.new }
{
    let joined = join_with(count, tables, out, work, values, LARGEST);
    work.fill(0);
    values.fill(0);
    joined
}

// Joins as many tables as `count` says, one behind the other in `tables`: answers, and writes the joined table to the front of `out`. Both work
// areas are zero on return.
pub fn join(
    count: usize,
    tables: &[u8],
    out: &mut [u8],
    work: &mut [u8],
    values: &mut [u64],
) -> Result<Header, JoinError>
    ensures { JoinsInto count tables.now out.old work.old values.old (answer_of result) out.new work.new values.new }
{
    if !long_enough(LARGEST_TABLE, out.len(), work.len(), values.len()) {
        return Err(JoinError::ShortArea);
    }
    join_in(
        count,
        tables,
        out,
        &mut work[..WORK_LENGTH],
        &mut values[..NUMBERS_LENGTH],
    )
}
