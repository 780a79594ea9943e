// The rows of a machine on numbers, in a slot of the work area: its values explored, refined, and divided by alikeness.
#![tactic(auto)]

mod divide;
mod sizes;

ghost use Rattle.machine_rows.specs.Builds.{PlanTo, Buildable};

use limits::Limits;
use sizes::build_in;
use steppers::Stepper;

// What is to be built of a machine: its slot, the number of actions, and the most values and rows that it may have.
#[derive(Clone, Copy)]
pub struct Plan {
    pub slot: usize,
    pub actions: usize,
    pub limits: Limits,
}

// The limit that a machine is over.
#[derive(Clone, Copy, PartialEq, Eq)]
pub enum OverLimit {
    Values,
    Rows,
}

// Builds as build_slot does, in scratch lists for as many values as any machine may have: 36 KiB of stack.
pub fn build_large<S: Stepper>(
    stepper: S,
    plan: Plan,
    work: &mut [u8],
    values: &mut [u64],
) -> Result<usize, OverLimit>
    requires { S.can_step stepper work.old × Buildable plan work.old values.old }
    ensures { PlanTo plan (S.moves stepper plan.actions work.old) (S.first stepper plan.actions work.old) result work.old work.new }
{
    build_in::<S, 1024, 16384>(stepper, plan, work, values)
}

// Builds the rows of a machine and writes them to its slot of the work area; the rest of the slot becomes 255. Where a limit is
// exceeded, the work area is left as it was. Most machines have few values, so scratch lists for 64 are tried first: 2,304 bytes of stack.
pub fn build_slot<S: Stepper>(
    stepper: S,
    plan: Plan,
    work: &mut [u8],
    values: &mut [u64],
) -> Result<usize, OverLimit>
    requires { S.can_step stepper work.old × Buildable plan work.old values.old }
    ensures { PlanTo plan (S.moves stepper plan.actions work.old) (S.first stepper plan.actions work.old) result work.old work.new }
{
    if plan.limits.values <= 64 {
        return build_in::<S, 64, 1024>(stepper, plan, work, values);
    }
    let limits = Limits {
        values: 64,
        ..plan.limits
    };
    match build_in::<S, 64, 1024>(stepper, Plan { limits, ..plan }, work, values) {
        Ok(rows) => Ok(rows),
        Err(OverLimit::Rows) => Err(OverLimit::Rows),
        Err(OverLimit::Values) => build_large(stepper, plan, work, values),
    }
}
