// Checks 6 and 7 of one node.
ghost use Rattle.std.specs.Prelude.{◌≡◌, ◌<◌, IfSome, IfOk, IfErr};
ghost use Rattle.naive.specs.Nodes.{check_number};
ghost use Rattle.naive.specs.Types.{Bounded, Counted, CountedType, larger_of, sum_of};

use crate::{Check, Formula, Mode, Node, Policy};

// What a node is: a formula, or a policy with its mode and its bound, where it has one.
#[derive(Clone, Copy)]
pub enum Type {
    Formula,
    Policy(Mode, Option<usize>),
}

// How far bounds are counted: this one stands for any that is larger. None past 65,534 is accepted.
const COUNTED: usize = 1000000;

// A bound, counted so far.
fn counted(bound: Option<usize>) -> Option<usize>
    ensures { Counted result }
{
    Some(bound?.min(COUNTED))
}

// The type of node n.
fn part(types: &[Type], n: usize) -> Type
    ensures { CountedType result }
{
    match types.get(n).copied() {
        Some(Type::Policy(mode, bound)) => Type::Policy(mode, counted(bound)),
        _ => Type::Formula,
    }
}

// The larger of two bounds.
fn larger(k: Option<usize>, l: Option<usize>) -> Option<usize>
    ensures { result ≡ larger_of k l }
{
    Some(k?.max(l?))
}

// The sum of two bounds.
fn sum(k: Option<usize>, l: Option<usize>) -> Option<usize>
    ensures { result ≡ sum_of k l }
{
    Some(k?.saturating_add(l?).min(COUNTED))
}

// The mode and the bound of a policy from the types of its parts, or nothing where these do not fit.
fn policy_type(policy: Policy, types: &[Type]) -> Option<(Mode, Option<usize>)>
    ensures { IfSome result (λ found. Counted found.1) }
{
    match policy {
        Policy::Count(k) => Some((Mode::Watched, counted(Some(k)))),
        Policy::Now(a) => match part(types, a) {
            Type::Formula => Some((Mode::Watched, Some(1))),
            _ => None,
        },
        Policy::Holds(a) => match part(types, a) {
            Type::Formula => Some((Mode::Enforced, Some(1))),
            _ => None,
        },
        Policy::Not(a) => match part(types, a) {
            Type::Policy(Mode::Enforced, k) => Some((Mode::Watched, k)),
            Type::Policy(Mode::Watched, k) => Some((Mode::Enforced, k)),
            Type::Formula => None,
        },
        Policy::And(a, b) | Policy::Or(a, b) => match (part(types, a), part(types, b)) {
            (Type::Policy(m, k), Type::Policy(o, l)) if m == o => Some((m, larger(k, l))),
            _ => None,
        },
        Policy::Eventually(a) => match part(types, a) {
            Type::Policy(Mode::Watched, _) => Some((Mode::Watched, None)),
            _ => None,
        },
        Policy::Always(a) => match part(types, a) {
            Type::Policy(Mode::Enforced, _) => Some((Mode::Enforced, None)),
            _ => None,
        },
        Policy::Before(mode, a, b) => match (part(types, a), part(types, b)) {
            (Type::Policy(Mode::Watched, _), Type::Policy(m, l)) if m == mode => Some((mode, l)),
            _ => None,
        },
        Policy::After(mode, a, b) => match (part(types, a), part(types, b)) {
            (Type::Policy(Mode::Watched, k), Type::Policy(m, l)) if m == mode => {
                Some((mode, sum(k, l)))
            }
            _ => None,
        },
        Policy::Fulfilling(k, a, b, c) => match (part(types, a), part(types, b), part(types, c)) {
            (
                Type::Policy(Mode::Watched, _),
                Type::Policy(Mode::Enforced, l),
                Type::Policy(Mode::Enforced, m),
            ) => Some((Mode::Enforced, sum(Some(k), larger(l, m)))),
            _ => None,
        },
        Policy::Ignoring(a, b) => match (part(types, a), part(types, b)) {
            (Type::Formula, Type::Policy(mode, _)) => Some((mode, None)),
            _ => None,
        },
    }
}

// Whether the parts of a formula are formulas.
fn formula_fits(formula: Formula, types: &[Type]) -> bool {
    match formula {
        Formula::True | Formula::False | Formula::Proposition(_) => true,
        Formula::Not(a) => matches!(part(types, a), Type::Formula),
        Formula::And(a, b) | Formula::Or(a, b) => {
            matches!(part(types, a), Type::Formula) && matches!(part(types, b), Type::Formula)
        }
    }
}

// Checks 6 and 7: the type of a node from the types of its parts.
pub fn type_of(node: Node, types: &[Type]) -> Result<Type, Check>
    ensures found { IfOk result Bounded }
    ensures refused { IfErr result (λ check. check_number check < 8) }
{
    match node {
        Node::Formula(formula) => {
            if formula_fits(formula, types) {
                Ok(Type::Formula)
            } else {
                Err(Check::Types)
            }
        }
        Node::Policy(policy) => {
            let (mode, bound) = policy_type(policy, types).ok_or(Check::Types)?;
            if bound.is_some_and(|k| 65534 < k) {
                return Err(Check::Bound);
            }
            Ok(Type::Policy(mode, bound))
        }
    }
}
