// The quotient of a machine by alikeness, in a slot.
ghost use Rattle.std.specs.Prelude.{length};
ghost use Rattle.machine_rows.specs.Minimises.{MinimisesTo, Minimisable};

// Minimises a machine in the stated numbering: writes its rows to the front of the slot and 255 behind them. None where there are more rows than
// the limit. Classes are scratch.
pub fn minimise(
    next: &[u16],
    actions: usize,
    limit: usize,
    classes: &mut [u8],
    other: &mut [u8],
    slot: &mut [u8],
) -> Option<usize>
    requires { Minimisable actions limit next.now classes.old other.old slot.old }
    ensures { MinimisesTo (length classes.old) actions next.now limit result slot.old slot.new }
{
    let mut firsts = base::room::<usize, 64>(0);
    let count = refinement::refine(next, actions, limit, classes, other, &mut firsts)?;
    slot.fill(255);
    quotient::quotient(next, classes, &firsts, actions, count, slot);
    Some(count)
}
