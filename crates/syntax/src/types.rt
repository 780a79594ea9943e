// The type of a node from those of its parts: checks 6 and 7.
ghost use Rattle.std.specs.Prelude.{◌≡◌};
ghost use Rattle.policy.specs.Typing.{typed, plus, on_mode, alike_typed, type_count, type_not, type_eventually, type_always, type_before-, type_before+, type_after-, type_after+, type_fulfilling, type_ignoring};
ghost use Rattle.syntax.specs.Types.{type_at, typing_of, formula_found, bound_fits, type_node, only_as};

use crate::{Node, NodeType, TypeError};
use policy::{Bound, PolicyType};
use trace::Mode;

// The type of node i among those before.
pub fn type_at(types: [NodeType; 64], i: usize) -> NodeType
    ensures { result ≡ type_at types i }
{
    if i < 64 { types[i] } else { NodeType::Unused }
}

// The type of a part that has to be a policy.
fn part_at(types: [NodeType; 64], i: u8) -> Option<PolicyType>
    ensures { result ≡ typing_of (type_at types i) }
{
    match type_at(types, usize::from(i)) {
        NodeType::Policy(mode, bound) => Some((mode, bound)),
        NodeType::Unused | NodeType::Formula => None,
    }
}

// Check 6 of a part that has to be an action formula.
fn formula_at(types: [NodeType; 64], i: u8) -> Result<(), TypeError>
    ensures { result ≡ formula_found (type_at types i) }
{
    match type_at(types, usize::from(i)) {
        NodeType::Formula => Ok(()),
        NodeType::Unused | NodeType::Policy(_, _) => Err(TypeError::Unfit),
    }
}

// Check 7 of a bound.
fn bound_fits(bound: Bound) -> bool
    ensures { result ≡ bound_fits bound }
{
    match bound {
        Bound::Finite(k) => k <= 65534,
        Bound::Unbounded => true,
    }
}

// Checks 6 and 7 of a typing.
fn found(t: Option<PolicyType>) -> Result<NodeType, TypeError>
    ensures { result ≡ Rattle.syntax.specs.Types.found t }
{
    let (mode, bound) = t.ok_or(TypeError::Unfit)?;
    if bound_fits(bound) {
        Ok(NodeType::Policy(mode, bound))
    } else {
        Err(TypeError::TooLong)
    }
}

// A part that has to be of a mode.
fn only(mode: Mode, t: Option<PolicyType>) -> Option<PolicyType>
    ensures { result ≡ only_as mode t }
{
    t.filter(|(own, _)| *own == mode)
}

// The larger of two bounds.
fn larger(j: Bound, k: Bound) -> Bound
    ensures { result ≡ Rattle.policy.specs.Typing.larger j k }
{
    match (j, k) {
        (Bound::Finite(x), Bound::Finite(y)) => Bound::Finite(x.max(y)),
        _ => Bound::Unbounded,
    }
}

// Check 7 of a sum of bounds, each of any size.
fn found_sum(mode: Mode, j: Bound, k: Bound) -> Result<NodeType, TypeError>
    ensures { result ≡ Rattle.syntax.specs.Types.found (typed mode (plus j k)) }
{
    let (Bound::Finite(x), Bound::Finite(y)) = (j, k) else {
        return Ok(NodeType::Policy(mode, Bound::Unbounded));
    };
    let sum = x.checked_add(y).ok_or(TypeError::TooLong)?;
    found(Some((mode, Bound::Finite(sum))))
}

fn type_count(k: u8) -> Option<PolicyType>
    ensures { result ≡ type_count k }
{
    (1 <= k).then_some((Mode::Watched, Bound::Finite(u16::from(k))))
}

fn type_not(s: Option<PolicyType>) -> Option<PolicyType>
    ensures { result ≡ type_not s }
{
    match s? {
        (Mode::Watched, k) => Some((Mode::Enforced, k)),
        (Mode::Enforced, k) => Some((Mode::Watched, k)),
    }
}

// And, Or: both parts of one type, which the whole keeps.
fn alike_typed(s: Option<PolicyType>, t: Option<PolicyType>) -> Option<PolicyType>
    ensures { result ≡ alike_typed s t }
{
    let (mode, j) = s?;
    let (_, k) = only(mode, t)?;
    Some((mode, larger(j, k)))
}

// Eventually of a watched part, Always of an enforced one.
fn type_copied(mode: Mode, s: Option<PolicyType>) -> Option<PolicyType>
    ensures { result ≡ on_mode mode (type_eventually s) (type_always s) }
{
    only(mode, s)?;
    Some((mode, Bound::Unbounded))
}

// Before- and Before+: b has to be of the mode that the whole has.
fn type_before(mode: Mode, s: Option<PolicyType>, t: Option<PolicyType>) -> Option<PolicyType>
    ensures { result ≡ on_mode mode (type_before- s t) (type_before+ s t) }
{
    only(Mode::Watched, s)?;
    only(mode, t)
}

fn type_ignoring(t: Option<PolicyType>) -> Option<PolicyType>
    ensures { result ≡ type_ignoring t }
{
    let (own, _bound) = t?;
    Some((own, Bound::Unbounded))
}

// Checks 6 and 7 of After- and After+, whose bound is a sum: b has to be of the mode that the whole has.
fn found_after(
    mode: Mode,
    s: Option<PolicyType>,
    t: Option<PolicyType>,
) -> Result<NodeType, TypeError>
    ensures { result ≡ Rattle.syntax.specs.Types.found (on_mode mode (type_after- s t) (type_after+ s t)) }
{
    let (_, j) = only(Mode::Watched, s).ok_or(TypeError::Unfit)?;
    let (_, k) = only(mode, t).ok_or(TypeError::Unfit)?;
    found_sum(mode, j, k)
}

// Checks 6 and 7 of Fulfilling: a may have any bound, and k is that of the wait.
fn found_fulfilling(
    k: u8,
    s: Option<PolicyType>,
    t: Option<PolicyType>,
    u: Option<PolicyType>,
) -> Result<NodeType, TypeError>
    ensures { result ≡ Rattle.syntax.specs.Types.found (type_fulfilling k s t u) }
{
    only(Mode::Watched, s).ok_or(TypeError::Unfit)?;
    let (_, j) = only(Mode::Enforced, t).ok_or(TypeError::Unfit)?;
    let (_, l) = only(Mode::Enforced, u).ok_or(TypeError::Unfit)?;
    found_sum(Mode::Enforced, Bound::Finite(u16::from(k)), larger(j, l))
}

// Checks 6 and 7 of a node, the nodes before it having `types`.
pub fn type_node(node: Node, types: [NodeType; 64]) -> Result<NodeType, TypeError>
    ensures { result ≡ type_node node (type_at types) }
{
    let part = |i: u8| part_at(types, i);
    match node {
        Node::True | Node::False | Node::Proposition(_) => Ok(NodeType::Formula),
        Node::Negation(a) => {
            formula_at(types, a)?;
            Ok(NodeType::Formula)
        }
        Node::Conjunction(a, b) | Node::Disjunction(a, b) => {
            formula_at(types, a)?;
            formula_at(types, b)?;
            Ok(NodeType::Formula)
        }
        Node::Now(a) => {
            formula_at(types, a)?;
            Ok(NodeType::Policy(Mode::Watched, Bound::Finite(1)))
        }
        Node::Holds(a) => {
            formula_at(types, a)?;
            Ok(NodeType::Policy(Mode::Enforced, Bound::Finite(1)))
        }
        Node::Count(k) => found(type_count(k)),
        Node::Not(a) => found(type_not(part(a))),
        Node::And(a, b) | Node::Or(a, b) => found(alike_typed(part(a), part(b))),
        Node::Eventually(a) => found(type_copied(Mode::Watched, part(a))),
        Node::Always(a) => found(type_copied(Mode::Enforced, part(a))),
        Node::BeforeMinus(a, b) => found(type_before(Mode::Watched, part(a), part(b))),
        Node::BeforePlus(a, b) => found(type_before(Mode::Enforced, part(a), part(b))),
        Node::AfterMinus(a, b) => found_after(Mode::Watched, part(a), part(b)),
        Node::AfterPlus(a, b) => found_after(Mode::Enforced, part(a), part(b)),
        Node::Fulfilling(k, a, b, c) => { found_fulfilling(k, part(a), part(b), part(c)) }
        Node::Ignoring(a, b) => {
            formula_at(types, a)?;
            found(type_ignoring(part(b)))
        }
    }
}
