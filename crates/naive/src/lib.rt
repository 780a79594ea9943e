// A second reading of rule sheets and tables, straight from the meanings of docs/FORMATS.md: checks 1 to 7, each used node on every short sequence,
// and a table's verdict beside the policy's. It has no rules, no remembered values and no refinement, and shares no code with the compiler.
#![tactic(auto)]

mod bytes;
mod checks;
mod meanings;
mod nodes;
mod sequences;
mod truths;
mod types;
mod verdicts;

pub use bytes::{at, put, room};
pub use checks::{find_areas, judge};
pub use nodes::node_at;
pub use verdicts::{compare, compare_sheet};

// A policy's mode.
#[derive(Clone, Copy, PartialEq, Eq)]
pub enum Mode {
    Enforced,
    Watched,
}

// The checks of a sheet, 1 to 7.
#[derive(Clone, Copy, PartialEq, Eq)]
pub enum Check {
    Total,
    Counts,
    Lists,
    Kind,
    Fields,
    Types,
    Bound,
}

// The first check that a sheet fails, and at which node, or 0.
#[derive(Clone, Copy)]
pub struct Refusal {
    pub check: Check,
    pub node: usize,
}

// Where a sheet's lists are.
#[derive(Clone, Copy)]
pub struct Areas {
    pub actions: usize,
    pub nodes: usize,
    pub actions_at: usize,
    pub nodes_at: usize,
}

// The five fields of a node.
#[derive(Clone, Copy)]
pub struct Fields {
    pub kind: usize,
    pub argument: usize,
    pub a: usize,
    pub b: usize,
    pub c: usize,
}

// A formula of actions. Its parts are formulas, by their numbers.
#[derive(Clone, Copy)]
pub enum Formula {
    True,
    False,
    Proposition(usize),
    Not(usize),
    And(usize, usize),
    Or(usize, usize),
}

// A policy. Its parts are the numbers of nodes; before and after have a mode of their own.
#[derive(Clone, Copy)]
pub enum Policy {
    Now(usize),
    Holds(usize),
    Count(usize),
    Not(usize),
    And(usize, usize),
    Or(usize, usize),
    Eventually(usize),
    Always(usize),
    Before(Mode, usize, usize),
    After(Mode, usize, usize),
    Fulfilling(usize, usize, usize, usize),
    Ignoring(usize, usize),
}

#[derive(Clone, Copy)]
pub enum Node {
    Formula(Formula),
    Policy(Policy),
}

// A sheet that passes checks 1 to 7: where its lists are, its nodes, and the mode of its policy.
#[derive(Clone, Copy)]
pub struct Sheet {
    pub areas: Areas,
    pub nodes: [Node; 64],
    pub mode: Mode,
}

// How many sequences were judged, and after how many of them a table's verdict is not the policy's.
#[derive(Clone, Copy)]
pub struct Compared {
    pub sequences: usize,
    pub differing: usize,
}
