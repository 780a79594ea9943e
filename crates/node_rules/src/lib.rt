// The rules of a sheet's nodes: formulas become sets of actions, policies rules over their parts.
#![tactic(auto)]

mod lowering;
mod sets;

pub use lowering::rules_of;
pub use sets::formula_sets;
