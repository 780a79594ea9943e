// Lowering each policy node to its rule. Of a formula it has the set alone.
ghost use Rattle.std.specs.Prelude.{◌≡◌, ◌≤◌, length};
ghost use Rattle.node_rules.specs.Lowering.{by_mode, lowered, rules_of, set_at};

use crate::sets::{others, set_at};
use rules::NodeRule;
use syntax::{Node, NodeType, Sheet};
use trace::Mode;

// The rule of an And or an Or, by its mode.
fn by_mode(mode: Mode, watched: NodeRule, enforced: NodeRule) -> NodeRule
    ensures { result ≡ by_mode mode watched enforced }
{
    match mode {
        Mode::Watched => watched,
        Mode::Enforced => enforced,
    }
}

// What a node of a mode is lowered to, from the sets of the formulas before it. A formula has no rule.
fn lower(node: Node, mode: Mode, actions: usize, sets: &[u16; 64]) -> Option<NodeRule>
    requires { (actions ≤ 16) × (length sets.now ≡ 64) }
    ensures { result ≡ lowered mode actions (set_at sets.now) node }
{
    match node {
        Node::Now(a) => Some(NodeRule::Opening(set_at(sets, a))),
        Node::Holds(a) => Some(NodeRule::Opening(others(actions, set_at(sets, a)))),
        Node::Count(k) => Some(NodeRule::Count(k)),
        Node::Not(a) => Some(NodeRule::Same(a)),
        Node::And(a, b) => Some(by_mode(mode, NodeRule::Both(a, b), NodeRule::Either(a, b))),
        Node::Or(a, b) => Some(by_mode(mode, NodeRule::Either(a, b), NodeRule::Both(a, b))),
        Node::Eventually(a) | Node::Always(a) => Some(NodeRule::Copied(a)),
        Node::BeforeMinus(a, b) | Node::BeforePlus(a, b) => Some(NodeRule::Before(a, b)),
        Node::AfterMinus(a, b) | Node::AfterPlus(a, b) => Some(NodeRule::After(a, b)),
        Node::Fulfilling(k, a, b, c) => Some(NodeRule::Fulfilling(k, a, b, c)),
        Node::Ignoring(a, b) => Some(NodeRule::Ignoring(set_at(sets, a), b)),
        _ => None,
    }
}

// The rule of each used policy node; no other has one.
pub fn rules_of(sheet: &Sheet, types: &[NodeType; 64], sets: &[u16; 64]) -> [Option<NodeRule>; 64]
    requires { (sheet.now.actions ≤ 16) × (sheet.now.count ≤ 64) × (length sets.now ≡ 64) }
    ensures { result ≡ rules_of sheet.now.nodes types.now sets.now sheet.now.actions sheet.now.count }
{
    let mut rules = [None; 64];
    for n in 0..sheet.count {
        if let NodeType::Policy(mode, _) = types[n] {
            rules[n] = lower(sheet.nodes[n], mode, sheet.actions, sets);
        }
    }
    rules
}
