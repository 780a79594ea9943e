// Sequences of actions and the machines that read them: definitions and laws.
#![tactic(auto)]

// When a machine trips: an enforced one as its policy becomes violated, a watched one as it becomes satisfied.
#[derive(Clone, Copy, PartialEq, Eq)]
pub enum Mode {
    Enforced,
    Watched,
}
