// The sets of actions that satisfy the formulas of a sheet.
ghost use Rattle.std.specs.Prelude.{◌≡◌, ◌^◌, ◌≤◌, ◌<◌, length};
ghost use Rattle.base.specs.Sets.{every_below, others_below};
ghost use Rattle.trace.specs.declared.Mode.{Mode};
ghost use Rattle.syntax.specs.Formed.{ArgumentFits};
ghost use Rattle.typing.specs.Typed.{SoundSheet};
ghost use Rattle.node_rules.specs.FormulaSets.{proposition_set, set_from, sets_of};
ghost use Rattle.node_rules.specs.Lowering.{set_at};

use syntax::{Node, NodeType, Sheet};

// The set of one action.
fn only(action: usize) -> u16
    requires { action < 16 }
    ensures { result ≡ 2 ^ action }
{
    1u16 << action
}

// The set of all actions.
fn every_action(actions: usize) -> u16
    requires { actions ≤ 16 }
    ensures { result ≡ every_below actions }
{
    ((1u32 << actions) - 1) as u16
}

// The actions that are not in a set.
pub fn others(actions: usize, set: u16) -> u16
    requires { actions ≤ 16 }
    ensures { result ≡ others_below actions set }
{
    every_action(actions) & !set
}

// The actions that satisfy proposition p.
fn proposition_set(sheet: &Sheet, p: u8) -> u16
    requires { (sheet.now.actions ≤ 16) × (p < 16) }
    ensures { result ≡ proposition_set sheet.now.propositions sheet.now.actions p }
{
    let mut set = 0;
    for a in 0..sheet.actions {
        if (sheet.propositions[a] >> p) % 2 == 1 {
            set += only(a);
        }
    }
    set
}

// The set of node i, empty past the end of the list.
pub fn set_at(sets: &[u16; 64], i: u8) -> u16
    requires { length sets.now ≡ 64 }
    ensures { result ≡ set_at sets.now i }
{
    sets.get(usize::from(i)).copied().unwrap_or(0)
}

// The set of a node, from those of the nodes before it. A policy has none.
fn formula_set(node: Node, sheet: &Sheet, sets: &[u16; 64]) -> u16
    requires actions_bound { (sheet.now.actions ≤ 16) × (length sets.now ≡ 64) }
    requires argument_fits { ArgumentFits node }
    ensures { result ≡ set_from sheet.now.propositions sheet.now.actions (set_at sets.now) node }
{
    match node {
        Node::True => every_action(sheet.actions),
        Node::Proposition(p) => proposition_set(sheet, p),
        Node::Negation(a) => others(sheet.actions, set_at(sets, a)),
        Node::Conjunction(a, b) => set_at(sets, a) & set_at(sets, b),
        Node::Disjunction(a, b) => set_at(sets, a) | set_at(sets, b),
        _ => 0,
    }
}

// The set of each used formula node of a sound sheet: bit a for action a.
pub fn formula_sets(sheet: &Sheet, types: &[NodeType; 64]) -> [u16; 64]
    requires { (mode : Mode) × SoundSheet mode sheet.now types.now }
    ensures { result ≡ sets_of sheet.now types.now }
{
    let mut sets = [0; 64];
    for n in 0..sheet.count {
        if let NodeType::Formula = types[n] {
            sets[n] = formula_set(sheet.nodes[n], sheet, &sets);
        }
    }
    sets
}
