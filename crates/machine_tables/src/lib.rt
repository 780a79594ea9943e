// From a machine on numbers to the bytes of a table: its rows built in a slot of the work area, and written behind a header of any type.
#![tactic(auto)]

ghost use Rattle.std.specs.Prelude.{◌≡◌, ◌++◌, length, drop};
ghost use Rattle.table.specs.Answer.{mode_number};
ghost use Rattle.making.specs.Making.{WritesTo};
ghost use Rattle.machine_tables.specs.Slots.{slot_table, RowsWritable};
ghost use Rattle.machine_tables.specs.Makes.{answer_of, PlanMakes, Makable};

use limits::SLOT_LENGTH;
use machine_rows::{OverLimit, Plan, build_large};
use making::write_table;
use steppers::Stepper;
use table::Header;
use trace::Mode;

// Writes the rows at the front of a slot as a table to the front of `out`.
pub fn write_rows(header: Header, slot: usize, work: &[u8], out: &mut [u8])
    requires { RowsWritable header.actions header.rows slot work.now out.old }
    ensures { let table = slot_table (mode_number header.mode) header.actions header.rows slot work.now in out.new ≡ table ++ drop (length table) out.old }
{
    let from = slot * SLOT_LENGTH;
    let to = from + header.rows * header.actions;
    write_table(header, &work[from..to], out);
}

// Builds the rows of a machine, in the large scratch lists, and writes its table to the front of `out`. A refusal writes nothing.
pub fn make_table<S: Stepper>(
    mode: Mode,
    stepper: S,
    plan: Plan,
    out: &mut [u8],
    work: &mut [u8],
    values: &mut [u64],
) -> Result<Header, OverLimit>
    requires { S.can_step stepper work.old × Makable plan out.old work.old values.old }
    ensures { WritesTo (PlanMakes mode plan (S.moves stepper plan.actions work.old) (S.first stepper plan.actions work.old)) (answer_of result) out.old out.new }
{
    let rows = build_large(stepper, plan, work, values)?;
    let header = Header {
        mode,
        actions: plan.actions,
        rows,
    };
    write_rows(header, plan.slot, work, out);
    Ok(header)
}
