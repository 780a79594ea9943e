// What a call of the board finds before anything is done: its checks in their order, over one pass of the places.
#![tactic(auto)]

mod asking;
mod targets;

pub use asking::{AskError, ask};
pub use targets::{Target, TargetError, look_at};
