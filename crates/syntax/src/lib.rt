// Rule sheets as syntax: nodes over earlier nodes, the propositions of the actions, types, and faults. Nothing here knows how a sheet is laid
// out in bytes.
#![tactic(auto)]

use policy::Bound;
use trace::Mode;

mod faults;
mod types;

pub use types::{type_at, type_node};

// A node: an action formula (kinds 1 to 6) or a policy (kinds 10 to 23), over the numbers of its parts.
#[derive(Clone, Copy)]
pub enum Node {
    True,
    False,
    Proposition(u8),
    Negation(u8),
    Conjunction(u8, u8),
    Disjunction(u8, u8),
    Now(u8),
    Holds(u8),
    Count(u8),
    Not(u8),
    And(u8, u8),
    Or(u8, u8),
    Eventually(u8),
    Always(u8),
    BeforeMinus(u8, u8),
    BeforePlus(u8, u8),
    AfterMinus(u8, u8),
    AfterPlus(u8, u8),
    Fulfilling(u8, u8, u8, u8),
    Ignoring(u8, u8),
}

// A sheet: the propositions of each action as a set of 16 bits, and the nodes, the last of which is the policy.
#[derive(Clone, Copy)]
pub struct Sheet {
    pub actions: usize,
    pub propositions: [u16; 16],
    pub count: usize,
    pub nodes: [Node; 64],
}

// The type of a node. A node that the policy does not use is not typed.
#[derive(Clone, Copy)]
pub enum NodeType {
    Unused,
    Formula,
    Policy(Mode, Bound),
}

// Why a node has no type: check 6 fails, or check 7.
#[derive(Clone, Copy)]
pub enum TypeError {
    Unfit,
    TooLong,
}

// A fault of checks 1 to 7, with the node where there is one.
#[derive(Clone, Copy)]
pub enum Fault {
    Length,
    Counts,
    Areas,
    UnknownKindAt(usize),
    WrongFieldAt(usize),
    WrongTypeAt(usize),
    BoundAt(usize),
}

// The types of nodes, and the first fault of checks 6 and 7, where there is one; the types are then those of the nodes before it.
#[derive(Clone, Copy)]
pub struct TypedNodes {
    pub judged: Result<(), Fault>,
    pub types: [NodeType; 64],
}
