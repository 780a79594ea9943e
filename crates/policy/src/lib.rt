// Temporal policies: their meanings, types and remembered values. Definitions and theorems over the types below.
#![tactic(auto)]

use trace::Mode;

// How many actions settle a policy at the latest.
#[derive(Clone, Copy)]
pub enum Bound {
    Finite(u16),
    Unbounded,
}

// The type of a policy: its mode and its bound.
pub type PolicyType = (Mode, Bound);
