// Signatures of states: the class of a state and the classes behind its entries, and the search for a class by them; and a machine's list of next
// states as one value.
#![tactic(auto)]

ghost use Rattle.std.specs.Prelude.{◌≡◌, ◌+◌, ◌*◌, ◌<◌, length, get_or};
ghost use Rattle.automaton.specs.Partition.{class_of, FindsClass, Searchable};

// A machine as a flat list of next states, entry s * actions + a for action a in state s. An entry that is no state's number is a trip.
#[derive(Clone, Copy)]
pub struct Transitions<'a> {
    pub next: &'a [u16],
    pub actions: usize,
}

impl Transitions<'_> {
    // Where an action leads from a state.
    pub fn target(self, s: usize, a: usize) -> usize
        requires { s * self.actions + a < length self.next.now }
        ensures { result ≡ get_or self.entry.next.now (s * self.entry.actions + a) 0 }
    {
        usize::from(self.next[s * self.actions + a])
    }
}

// The class of a state, 255 for what is no state: no Option, since the quotient's entries are these bytes (`quotient_entry`).
pub fn class_of(classes: &[u8], s: usize) -> u8
    ensures { result ≡ class_of classes.now s }
{
    if s < classes.len() { classes[s] } else { 255 }
}

// The lowest class whose first member has the signature of s, or none where no first member has it. The search begins at the class of s so far.
// A first member is left for the next, by label, at the first difference.
pub fn find_class(
    machine: Transitions<'_>,
    classes: &[u8],
    firsts: &[usize],
    count: usize,
    s: usize,
) -> Option<usize>
    requires { Searchable machine.actions count s machine.next.now classes.now firsts.now }
    ensures { FindsClass machine.entry.actions machine.entry.next.now classes.now firsts.now count s result }
{
    let class = class_of(classes, s);
    let lowest = usize::from(class);
    'rows: for c in lowest..count {
        let first = firsts[c];
        if class_of(classes, first) != class {
            continue 'rows;
        }
        for a in 0..machine.actions {
            let behind = class_of(classes, machine.target(s, a));
            if class_of(classes, machine.target(first, a)) != behind {
                continue 'rows;
            }
        }
        return Some(c);
    }
    None
}
