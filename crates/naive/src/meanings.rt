// The meanings of docs/FORMATS.md, "Policies", on sequences. A node's truths are found from those of its parts, which have lower numbers, and on
// sequences that are no longer. Only used nodes get theirs; their parts are used too.
ghost use Rattle.std.specs.Prelude.{◌≤◌, length, IfSome};

use crate::bytes::{number_at, room};
use crate::nodes::used_of;
use crate::sequences::{judged, spell, step};
use crate::truths::{Truths, keep};
use crate::{Formula, Mode, Node, Policy, Sheet};

impl Truths<'_> {
    // The length of the first fulfilment of n: the shortest prefix that satisfies it.
    fn first_fulfilment(self, n: usize, sequence: &[u8]) -> Option<usize>
        ensures { IfSome result (λ l. l ≤ length sequence.now) }
    {
        for l in 0..=sequence.len() {
            if self.satisfies(n, &sequence[..l]) {
                return Some(l);
            }
        }
        None
    }

    // Whether some suffix, the whole and the empty one among them, is judged so by n.
    fn some_suffix(self, n: usize, sequence: &[u8], so: bool) -> bool {
        for cut in 0..=sequence.len() {
            if self.satisfies(n, &sequence[cut..]) == so {
                return true;
            }
        }
        false
    }

    // Before: the prefix up to and with the first fulfilment of a, or the whole, satisfies b.
    fn before(self, a: usize, b: usize, sequence: &[u8]) -> bool {
        match self.first_fulfilment(a, sequence) {
            Some(l) => self.satisfies(b, &sequence[..l]),
            None => self.satisfies(b, sequence),
        }
    }

    // After: what follows the first fulfilment of a satisfies b; `none` where a is not fulfilled.
    fn after(self, a: usize, b: usize, sequence: &[u8], none: bool) -> bool {
        match self.first_fulfilment(a, sequence) {
            Some(l) => self.satisfies(b, &sequence[l..]),
            None => none,
        }
    }

    // Fulfilling: a first fulfilled within k actions, and then b; else, once k actions have passed, c; else satisfied.
    fn fulfilling(self, k: usize, a: usize, b: usize, c: usize, sequence: &[u8]) -> bool {
        match self.first_fulfilment(a, sequence) {
            Some(l) if l <= k => self.satisfies(b, &sequence[l..]),
            _ if k <= sequence.len() => self.satisfies(c, &sequence[k..]),
            _ => true,
        }
    }

    // Ignoring: the sequence without the actions that satisfy formula a satisfies b.
    fn ignoring(self, a: usize, b: usize, sequence: &[u8]) -> bool {
        let mut s = 0;
        for action in sequence {
            let action = usize::from(*action);
            if !self.holds(a, action) {
                s = step(s, action, self.actions);
            }
        }
        self.holds(b, s)
    }

    // Whether the first action of a sequence satisfies formula a; `none` where there is none.
    fn first(self, a: usize, sequence: &[u8], none: bool) -> bool {
        match sequence.first() {
            Some(action) => self.holds(a, usize::from(*action)),
            None => none,
        }
    }

    // Whether a sequence satisfies a policy.
    fn meaning(self, policy: Policy, sequence: &[u8]) -> bool {
        match policy {
            Policy::Now(a) => self.first(a, sequence, false),
            Policy::Holds(a) => self.first(a, sequence, true),
            Policy::Count(k) => k <= sequence.len(),
            Policy::Not(a) => !self.satisfies(a, sequence),
            Policy::And(a, b) => self.satisfies(a, sequence) && self.satisfies(b, sequence),
            Policy::Or(a, b) => self.satisfies(a, sequence) || self.satisfies(b, sequence),
            Policy::Eventually(a) => self.some_suffix(a, sequence, true),
            Policy::Always(a) => !self.some_suffix(a, sequence, false),
            Policy::Before(_, a, b) => self.before(a, b, sequence),
            Policy::After(mode, a, b) => self.after(a, b, sequence, mode == Mode::Enforced),
            Policy::Fulfilling(k, a, b, c) => self.fulfilling(k, a, b, c, sequence),
            Policy::Ignoring(a, b) => self.ignoring(a, b, sequence),
        }
    }

    // Whether an action with these propositions satisfies a formula.
    fn formula(self, formula: Formula, action: usize, propositions: usize) -> bool {
        match formula {
            Formula::True => true,
            Formula::False => false,
            Formula::Proposition(p) => (propositions >> (p % 16)) % 2 == 1,
            Formula::Not(a) => !self.holds(a, action),
            Formula::And(a, b) => self.holds(a, action) && self.holds(b, action),
            Formula::Or(a, b) => self.holds(a, action) || self.holds(b, action),
        }
    }
}

// The truths of a formula, node n, on each action.
fn evaluate_formula(bytes: &[u8], sheet: &Sheet, formula: Formula, n: usize, truths: &mut [bool]) {
    let actions = sheet.areas.actions;
    let from = sheet.areas.actions_at % 65536;
    for action in 0..actions {
        let propositions = number_at(bytes, from + 2 * (action % 65536));
        let holds = Truths {
            kept: truths,
            actions,
        }
        .formula(formula, action, propositions);
        keep(truths, n, action, holds);
    }
}

// The truths of a policy, node n, on each sequence that is judged.
fn evaluate_policy(actions: usize, policy: Policy, n: usize, truths: &mut [bool]) {
    let mut letters = room::<u8, 130>(0);
    for s in 0..judged(actions) {
        let sequence = spell(s, actions, &mut letters);
        let holds = Truths {
            kept: truths,
            actions,
        }
        .meaning(policy, sequence);
        keep(truths, n, s, holds);
    }
}

// The truths of every used node of a sheet, in their order.
pub fn evaluate(bytes: &[u8], sheet: &Sheet, truths: &mut [bool]) {
    let nodes = &sheet.nodes[..sheet.areas.nodes.min(64)];
    let used = used_of(nodes);
    for n in 0..nodes.len() {
        if used[n] {
            match nodes[n] {
                Node::Formula(formula) => evaluate_formula(bytes, sheet, formula, n, truths),
                Node::Policy(policy) => evaluate_policy(sheet.areas.actions, policy, n, truths),
            }
        }
    }
}
