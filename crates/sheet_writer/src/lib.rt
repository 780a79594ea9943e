// Writing sheets: nodes one by one to an array with room for 64 of them; then the header, the action list and these nodes to the front of an output.
#![tactic(auto)]

mod kinds;
mod nodes;
mod sheets;

pub use nodes::add_node;
pub use sheets::write_sheet;

// The bytes of 64 nodes.
pub const NODE_ROOM: usize = 320;

// The bytes of the largest sheet: a header, 16 actions and 64 nodes.
pub const LARGEST_SHEET: usize = 362;

// The kinds of nodes, with their numbers (docs/FORMATS.md).
#[derive(Clone, Copy, PartialEq, Eq)]
pub enum Kind {
    True = 1,
    False = 2,
    Proposition = 3,
    Negation = 4,
    Conjunction = 5,
    Disjunction = 6,
    Now = 10,
    Holds = 11,
    Count = 12,
    Not = 13,
    And = 14,
    Or = 15,
    Eventually = 16,
    Always = 17,
    BeforeMinus = 18,
    BeforePlus = 19,
    AfterMinus = 20,
    AfterPlus = 21,
    Fulfilling = 22,
    Ignoring = 23,
}

// The five fields of a node: the number of its kind, its argument, and the numbers of its parts. Those that its kind does not use are 0.
#[derive(Clone, Copy)]
pub struct Fields {
    pub kind: u8,
    pub argument: u8,
    pub a: u8,
    pub b: u8,
    pub c: u8,
}
