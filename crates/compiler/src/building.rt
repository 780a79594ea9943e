// From a sheet's bytes to the rows of its nodes, each in its slot of the work area.
ghost use Rattle.making.specs.Making.{Workable};
ghost use Rattle.compiler.specs.Building.{SheetTo};

use crate::{BuiltSheet, Refusal};
use limits::Limits;
use node_rules::{formula_sets, rules_of};
use rule_rows::build_all;
use sheet_judge::judge;

// Judges a sheet, works out the sets of its formulas, and builds the rows of its policy nodes, which know the formulas by their sets alone.
pub fn build_sheet(
    sheet: &[u8],
    work: &mut [u8],
    values: &mut [u64],
    limits: Limits,
) -> Result<BuiltSheet, Refusal>
    requires { Workable limits work.old values.old }
    ensures { SheetTo sheet.now limits result work.new }
{
    let judged = judge(sheet);
    let mode = judged.found?;
    let read = &judged.sheet;
    let sets = formula_sets(read, &judged.types);
    let rules = rules_of(read, &judged.types, &sets);
    let rows = build_all(rules, read.count, read.actions, limits, work, values)?;
    Ok(BuiltSheet {
        mode,
        rows,
        sheet: judged.sheet,
    })
}
