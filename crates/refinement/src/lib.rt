// Partition refinement, pass by pass, until a pass finds no class more.
#![tactic(auto)]

ghost use Rattle.std.specs.Prelude.{◌≡◌, ℕ, length};
ghost use Rattle.automaton.specs.Machine.{Machine, AlikeStates};
ghost use Rattle.refinement.specs.Refining.{BeginsWith};
ghost use Rattle.automaton.specs.Partition.{SameSignature, SplitsTo, Refinable, RestrictedGrowth};

use base::copy;
use distances::{measure, split};
use signatures::{Transitions, find_class};

// One pass: splits the states by their signatures under the classes so far. The number of classes, or none where there are more than the limit.
fn pass(
    machine: Transitions<'_>,
    classes: &[u8],
    finer: &mut [u8],
    firsts: &mut [usize],
    limit: usize,
) -> Option<usize>
    requires refinable { Refinable machine.actions limit machine.next.now classes.now finer.old firsts.old }
    requires restricted_growth { RestrictedGrowth classes.now }
    ensures { SplitsTo (SameSignature machine.entry.actions machine.entry.next.now classes.now) (length classes.now) limit result finer.new firsts.new }
{
    let mut count = 0;
    for s in 0..classes.len() {
        let class = match find_class(machine, classes, firsts, count, s) {
            Some(class) => class,
            None => {
                if count == limit {
                    return None;
                }
                let class = count;
                firsts[class] = s;
                count += 1;
                class
            }
        };
        finer[s] = class as u8;
    }
    Some(count)
}

// The classes to begin with: one of all states, or of more than eight states those of one distance from a trip. None where there are more than the
// limit. Both lists behind them are scratch.
fn begin(
    machine: Transitions<'_>,
    limit: usize,
    classes: &mut [u8],
    far: &mut [u8],
    firsts: &mut [usize],
) -> Option<usize>
    requires { Refinable machine.actions limit machine.next.now classes.old far.old firsts.old }
    ensures { BeginsWith (length classes.old) machine.entry.actions limit machine.entry.next.now result classes.new }
{
    if 8 < classes.len() && measure(machine, far) {
        return split(far, classes, firsts, limit);
    }
    classes.fill(0);
    Some(1)
}

// The classes of alike states, with their first members: the number of them, or none where there are more than the limit. `other` is scratch.
pub fn refine(
    next: &[u16],
    actions: usize,
    limit: usize,
    classes: &mut [u8],
    other: &mut [u8],
    firsts: &mut [usize],
) -> Option<usize>
    requires { Refinable actions limit next.now classes.old other.old firsts.old }
    ensures { (mark : ℕ) → Machine mark (length classes.old) actions next.now → SplitsTo (AlikeStates mark actions next.now) (length classes.old) limit result classes.new firsts.new }
{
    let machine = Transitions { next, actions };
    let mut count = begin(machine, limit, classes, other, firsts)?;
    loop {
        let finer = pass(machine, classes, other, firsts, limit)?;
        copy(other, classes);
        if finer == count {
            return Some(count);
        }
        count = finer;
    }
}
