// How far each state is from a trip, and the states split by it.
#![tactic(auto)]

ghost use Rattle.std.specs.Prelude.{◌≡◌, true, ℕ, ◌+◌, ◌*◌, ◌≤◌, ◌<◌, length};
ghost use Rattle.distances.specs.Distances.{behind_entry, OneFurther, NotBelow, NotAbove, Distances, SameNumber};
ghost use Rattle.automaton.specs.Partition.{SplitsTo};

use signatures::Transitions;

// The distance behind an action of a state, 0 for a trip.
fn behind_action(machine: Transitions<'_>, far: &[u8], s: usize, a: usize) -> u8
    requires { s * machine.actions + a < length machine.next.now }
    ensures { result ≡ behind_entry machine.entry.next.now far.now (s * machine.entry.actions + a) }
{
    let target = machine.target(s, a);
    if target < far.len() { far[target] } else { 0 }
}

// One more than the least distance behind a state's actions; at most 255, which is no case apart: the sweeps take the least of such numbers.
fn one_further(machine: Transitions<'_>, far: &[u8], s: usize) -> u8
    requires { s * machine.actions + machine.actions ≤ length machine.next.now }
    ensures { OneFurther machine.entry.next.now far.now (s * machine.entry.actions) machine.entry.actions result }
{
    let mut least = 254u8;
    for a in 0..machine.actions {
        least = least.min(behind_action(machine, far, s, a));
    }
    least + 1
}

// Puts each state one further than the nearest behind it, the last state first. Answers whether all stood so before.
fn sweep(machine: Transitions<'_>, far: &mut [u8]) -> bool
    requires next_len { length machine.next.now ≡ length far.old * machine.actions }
    requires not_below { NotBelow machine.actions machine.next.now far.old }
    ensures not_below_2 { NotBelow machine.entry.actions machine.entry.next.now far.new }
    ensures not_above { result ≡ true → (s : ℕ) → s < length far.new → NotAbove machine.entry.actions machine.entry.next.now far.new s }
{
    let mut settled = true;
    for s in (0..far.len()).rev() {
        let further = one_further(machine, far, s);
        settled &= far[s] == further;
        far[s] = further;
    }
    settled
}

// Measures the distances. Answers whether they are found: a few sweeps are enough for most machines, and no more are made.
pub fn measure(machine: Transitions<'_>, far: &mut [u8]) -> bool
    requires { length machine.next.now ≡ length far.old * machine.actions }
    ensures { result ≡ true → Distances machine.entry.actions machine.entry.next.now far.new }
{
    far.fill(255);
    for _ in 0..8 {
        if sweep(machine, far) {
            return true;
        }
    }
    false
}

// Splits the states by a number of each: the number of classes, or none where there are more than the limit.
pub fn split(
    numbers: &[u8],
    classes: &mut [u8],
    firsts: &mut [usize],
    limit: usize,
) -> Option<usize>
    requires { (length classes.old ≡ length numbers.now) × (limit ≤ 64) × (limit ≤ length firsts.old) }
    ensures { SplitsTo (SameNumber numbers.now) (length numbers.now) limit result classes.new firsts.new }
{
    let mut known = [None; 256];
    let mut count = 0;
    for (s, number) in numbers.iter().enumerate() {
        let number = usize::from(*number);
        let class = match known[number] {
            Some(class) => class,
            None => {
                if count == limit {
                    return None;
                }
                let class = count as u8;
                known[number] = Some(class);
                firsts[count] = s;
                count += 1;
                class
            }
        };
        classes[s] = class;
    }
    Some(count)
}
