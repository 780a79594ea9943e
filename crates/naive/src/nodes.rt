// The nodes of a sheet: their fields, checks 4 and 5, and which of them the policy uses.
ghost use Rattle.std.specs.Prelude.{◌≡◌, ◌-◌, ◌<◌, length, get_or, true, false, IfErr};
ghost use Rattle.naive.specs.Nodes.{node_place, check_number, FieldsAt};
ghost use Rattle.naive.specs.Marks.{MoreMarked};

use crate::bytes::{at, room};
use crate::{Check, Fields, Formula, Mode, Node, Policy};

// The fields of node n of a node list.
pub fn node_at(bytes: &[u8], nodes_at: usize, n: usize) -> Fields
    ensures { FieldsAt bytes.now (node_place nodes_at n) result.kind result.argument result.a result.b result.c }
{
    let from = nodes_at % 65536 + 5 * (n % 65536);
    Fields {
        kind: at(bytes, from),
        argument: at(bytes, from + 1),
        a: at(bytes, from + 2),
        b: at(bytes, from + 3),
        c: at(bytes, from + 4),
    }
}

// Whether the fields of node n fit a kind with so many parts: parts are lower than the node, and a field that the kind does not use is 0.
fn parts_fit(fields: Fields, parts: usize, n: usize) -> bool {
    let fits = |used: bool, part: usize| if used { part < n } else { part == 0 };
    fits(0 < parts, fields.a) && fits(1 < parts, fields.b) && fits(2 < parts, fields.c)
}

// Checks 4 and 5 of node n.
pub fn read_node(fields: Fields, n: usize) -> Result<Node, Check>
    ensures { IfErr result (λ check. check_number check < 6) }
{
    let Fields {
        kind,
        argument,
        a,
        b,
        c,
    } = fields;
    let (node, parts) = match kind {
        1 => (Node::Formula(Formula::True), 0),
        2 => (Node::Formula(Formula::False), 0),
        3 => (Node::Formula(Formula::Proposition(argument)), 0),
        4 => (Node::Formula(Formula::Not(a)), 1),
        5 => (Node::Formula(Formula::And(a, b)), 2),
        6 => (Node::Formula(Formula::Or(a, b)), 2),
        10 => (Node::Policy(Policy::Now(a)), 1),
        11 => (Node::Policy(Policy::Holds(a)), 1),
        12 => (Node::Policy(Policy::Count(argument)), 0),
        13 => (Node::Policy(Policy::Not(a)), 1),
        14 => (Node::Policy(Policy::And(a, b)), 2),
        15 => (Node::Policy(Policy::Or(a, b)), 2),
        16 => (Node::Policy(Policy::Eventually(a)), 1),
        17 => (Node::Policy(Policy::Always(a)), 1),
        18 => (Node::Policy(Policy::Before(Mode::Watched, a, b)), 2),
        19 => (Node::Policy(Policy::Before(Mode::Enforced, a, b)), 2),
        20 => (Node::Policy(Policy::After(Mode::Watched, a, b)), 2),
        21 => (Node::Policy(Policy::After(Mode::Enforced, a, b)), 2),
        22 => (Node::Policy(Policy::Fulfilling(argument, a, b, c)), 3),
        23 => (Node::Policy(Policy::Ignoring(a, b)), 2),
        _ => return Err(Check::Kind),
    };
    let argument_fits = match node {
        Node::Formula(Formula::Proposition(_)) => argument < 16,
        Node::Policy(Policy::Count(_) | Policy::Fulfilling(..)) => 0 < argument && argument <= 60,
        _ => argument == 0,
    };
    if argument_fits && parts_fit(fields, parts, n) {
        Ok(node)
    } else {
        Err(Check::Fields)
    }
}

// Marks a node as used.
fn mark(used: &mut [bool], n: usize)
    ensures { MoreMarked used.old used.new }
{
    if n < used.len() {
        used[n] = true;
    }
}

// Marks the parts of a node.
fn mark_parts(node: Node, used: &mut [bool])
    ensures { MoreMarked used.old used.new }
{
    match node {
        Node::Formula(Formula::True | Formula::False | Formula::Proposition(_)) => {}
        Node::Policy(Policy::Count(_)) => {}
        Node::Formula(Formula::Not(a)) => mark(used, a),
        Node::Policy(Policy::Now(a) | Policy::Holds(a) | Policy::Not(a)) => mark(used, a),
        Node::Policy(Policy::Eventually(a) | Policy::Always(a)) => mark(used, a),
        Node::Formula(Formula::And(a, b) | Formula::Or(a, b)) => {
            mark(used, a);
            mark(used, b);
        }
        Node::Policy(Policy::And(a, b) | Policy::Or(a, b) | Policy::Ignoring(a, b)) => {
            mark(used, a);
            mark(used, b);
        }
        Node::Policy(Policy::Before(_, a, b) | Policy::After(_, a, b)) => {
            mark(used, a);
            mark(used, b);
        }
        Node::Policy(Policy::Fulfilling(_, a, b, c)) => {
            mark(used, a);
            mark(used, b);
            mark(used, c);
        }
    }
}

// Which nodes are used: the last, and the parts of used ones, which have lower numbers.
pub fn used_of(nodes: &[Node]) -> [bool; 64]
    requires { length nodes.now < 65 }
    ensures { 0 < length nodes.now → get_or result (length nodes.now - 1) false ≡ true }
{
    let mut used = room::<bool, 64>(false);
    if nodes.len() == 0 {
        return used;
    }
    used[nodes.len() - 1] = true;
    for n in (0..nodes.len()).rev() {
        if used[n] {
            mark_parts(nodes[n], &mut used);
        }
    }
    used
}
