// The step of a rule on remembered values: one step function for every kind.
#![tactic(auto)]

mod parts;
mod sets;
mod steps;

ghost use Rattle.std.specs.Prelude.{◌≤◌, length};
ghost use Rattle.limits.specs.Lengths.{work_length};

pub use parts::part_move;
pub use steps::start;

// A node's rule over the numbers of its parts. A set of 16 bits says which actions satisfy a formula.
#[derive(Clone, Copy)]
pub enum NodeRule {
    Opening(u16),
    Count(u8),
    Same(u8),
    Both(u8, u8),
    Either(u8, u8),
    Copied(u8),
    Before(u8, u8),
    After(u8, u8),
    Fulfilling(u8, u8, u8, u8),
    Ignoring(u16, u8),
}

// The parts of rules: their rows in the slots of the work area, over a number of actions.
#[derive(Clone, Copy)]
pub struct PartRows<'a> {
    pub work: &'a [u8],
    pub actions: usize,
    ghost room: { work_length ≤ length work.now },
    ghost few: { actions ≤ 16 },
}
