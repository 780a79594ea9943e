// The quotient of a machine by its classes.
#![tactic(auto)]

ghost use Rattle.std.specs.Prelude.{◌≡◌, ◌++◌, ◌*◌, drop};
ghost use Rattle.automaton.specs.Quotient.{quotient_rows, Divisible};

use signatures::{Transitions, class_of};

// Writes a row for each class: the classes behind its first member, 255 for a trip.
pub fn quotient(
    next: &[u16],
    classes: &[u8],
    firsts: &[usize],
    actions: usize,
    count: usize,
    out: &mut [u8],
)
    requires { Divisible actions count next.now firsts.now out.old }
    ensures { out.new ≡ quotient_rows actions count next.now classes.now firsts.now ++ drop (count * actions) out.old }
{
    let machine = Transitions { next, actions };
    for row in 0..count {
        let first = firsts[row];
        for action in 0..actions {
            out[row * actions + action] = class_of(classes, machine.target(first, action));
        }
    }
}
