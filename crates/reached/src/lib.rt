// The nodes of a sheet that are used, and those that are reached from one through And alone, each as a set of 64 bits.
#![tactic(auto)]

ghost use Rattle.std.specs.Prelude.{◌≡◌, ℕ, ◌^◌, ◌-◌, ◌≤◌, ◌<◌};
ghost use Rattle.reached.specs.Reached.{reached_set};
ghost use Rattle.reached.specs.Parts.{parts_of, InParts, and_parts, set_of_parts, part_sets, and_set, PartsEarlier};
ghost use Rattle.syntax.specs.Nodes.{node_at};
ghost use Rattle.syntax.specs.declared.Node.{Node};
ghost use Rattle.reached.specs.declared.Parts.{Parts};

use syntax::Node;

// The parts of a node.
#[derive(Clone, Copy)]
pub enum Parts {
    NoPart,
    OnePart(u8),
    TwoParts(u8, u8),
    ThreeParts(u8, u8, u8),
}

// The parts of a node, action formulas among them.
fn parts_of(node: Node) -> Parts
    ensures { result ≡ parts_of node }
{
    match node {
        Node::True | Node::False | Node::Proposition(_) | Node::Count(_) => Parts::NoPart,
        Node::Negation(a)
        | Node::Now(a)
        | Node::Holds(a)
        | Node::Not(a)
        | Node::Eventually(a)
        | Node::Always(a) => Parts::OnePart(a),
        Node::Conjunction(a, b)
        | Node::Disjunction(a, b)
        | Node::And(a, b)
        | Node::Or(a, b)
        | Node::BeforeMinus(a, b)
        | Node::BeforePlus(a, b)
        | Node::AfterMinus(a, b)
        | Node::AfterPlus(a, b)
        | Node::Ignoring(a, b) => Parts::TwoParts(a, b),
        Node::Fulfilling(_, a, b, c) => Parts::ThreeParts(a, b, c),
    }
}

// The parts of an And; none of any other node.
fn and_parts(node: Node) -> Parts
    ensures { result ≡ and_parts node }
{
    match node {
        Node::And(first, second) => Parts::TwoParts(first, second),
        _ => Parts::NoPart,
    }
}

// The set of one node.
fn only(n: u8) -> u64
    requires { n < 64 }
    ensures { result ≡ 2 ^ n }
{
    1u64 << n
}

// Parts as a set.
fn set_of_parts(parts: Parts) -> u64
    requires { (m : ℕ) → InParts parts m → m < 64 }
    ensures { result ≡ set_of_parts parts }
{
    match parts {
        Parts::NoPart => 0,
        Parts::OnePart(a) => only(a),
        Parts::TwoParts(a, b) => only(a) | only(b),
        Parts::ThreeParts(a, b, c) => only(a) | (only(b) | only(c)),
    }
}

// What is reached from a node by going to parts, in one pass from that node down.
fn reached_from<F: Fn(Node) -> Parts>(parts: F, nodes: [Node; 64], from: usize) -> u64
    ghost by: { Node → Parts }
    requires callable { F.IsAlwaysCallable parts }
    requires gives { (n : ℕ) (given : Parts) → n ≤ from → F.post parts (node_at nodes n) given → given ≡ by (node_at nodes n) }
    requires low { (n m : ℕ) → n ≤ from → InParts (by (node_at nodes n)) m → m < 64 }
    requires from_bound { from < 64 }
    ensures { result ≡ reached_set (part_sets by nodes) from }
{
    let mut set = 1u64 << from;
    for n in (0..=from).rev() {
        if (set >> n) % 2 == 1 {
            set |= set_of_parts(parts(nodes[n]));
        }
    }
    set
}

// The nodes reached from one through And alone.
pub fn reached_by_and(nodes: [Node; 64], from: usize) -> u64
    requires from_bound { from < 64 }
    requires parts_earlier { PartsEarlier nodes from }
    ensures { result ≡ and_set nodes from }
{
    reached_from(and_parts, nodes, from)
}

// The used nodes among the first `count`: the last one, and every part of a used one.
pub fn used_nodes(nodes: [Node; 64], count: usize) -> u64
    requires le_count { (1 ≤ count) × (count ≤ 64) }
    requires parts_earlier { PartsEarlier nodes (count - 1) }
    ensures { result ≡ reached_set (part_sets parts_of nodes) (count - 1) }
{
    reached_from(parts_of, nodes, count - 1)
}
