// The public call.
ghost use Rattle.std.specs.Prelude.{◌≡◌, ◌≤◌, length};
ghost use Rattle.limits.specs.Lengths.{work_length, numbers_length};
ghost use Rattle.limits.specs.Limits.{largest};
ghost use Rattle.table.specs.Table.{largest_table};
ghost use Rattle.making.specs.Making.{Lent, Zeroed};
ghost use Rattle.compiler.specs.Calling.{answer_of, CompilesTo, CompilesInto};

use crate::CompileError;
use crate::building::build_sheet;
use limits::{LARGEST, Limits, NUMBERS_LENGTH, WORK_LENGTH};
use machine_tables::write_rows;
use making::long_enough;
use table::{Header, LARGEST_TABLE};

// Compiles a sheet with any limits. The areas stay slices of their own down to here: `compile` is lent them so by C, and its clause is over each.
fn compile_with(
    sheet: &[u8],
    out: &mut [u8],
    work: &mut [u8],
    values: &mut [u64],
    limits: Limits,
) -> Result<Header, CompileError>
    requires { Lent limits out.old work.old values.old }
    ensures { CompilesTo sheet.now limits (answer_of result) out.old out.new }
{
    let built = build_sheet(sheet, work, values, limits)?;
    let header = Header {
        mode: built.mode,
        actions: built.sheet.actions,
        rows: built.rows,
    };
    write_rows(header, built.sheet.count - 1, work, out);
    Ok(header)
}

// Compiles a sheet in work areas of their exact lengths, and zeroes them.
fn compile_in(
    sheet: &[u8],
    out: &mut [u8],
    work: &mut [u8],
    values: &mut [u64],
) -> Result<Header, CompileError>
    requires largest_table_in_bounds { largest_table ≤ length out.old }
    requires work_len { length work.old ≡ work_length }
    requires values_len { length values.old ≡ numbers_length }
    ensures compiles_to { CompilesTo sheet.now largest (answer_of result) out.old out.new }
    ensures zeroed { Zeroed work.old work.new }
    ensures zeroed_2 { Zeroed values.old values.new }
{
    let compiled = compile_with(sheet, out, work, values, LARGEST);
    work.fill(0);
    values.fill(0);
    compiled
}

// Compiles a sheet: answers, and writes the table to the front of `out`. Both work areas are zero on return.
pub fn compile(
    sheet: &[u8],
    out: &mut [u8],
    work: &mut [u8],
    values: &mut [u64],
) -> Result<Header, CompileError>
    ensures { CompilesInto sheet.now out.old work.old values.old (answer_of result) out.new work.new values.new }
{
    if !long_enough(LARGEST_TABLE, out.len(), work.len(), values.len()) {
        return Err(CompileError::ShortArea);
    }
    compile_in(
        sheet,
        out,
        &mut work[..WORK_LENGTH],
        &mut values[..NUMBERS_LENGTH],
    )
}
