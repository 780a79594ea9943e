// Answers as one number of 64 bits: of the loader, the compiler, joining, explaining and the reader of rule texts.
#![tactic(auto)]

mod compiling;
mod explanations;
mod joins;
mod tables;
mod texts;

pub use compiling::compile_number;
pub use explanations::explain_number;
pub use joins::join_number;
pub use tables::load_number;
pub use texts::text_number;
