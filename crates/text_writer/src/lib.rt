// A text written one piece after the other, in an array of its own. Clauses see the bytes that it has so far.
#![tactic(auto)]

mod numbers;
mod text;

pub use text::Text;
