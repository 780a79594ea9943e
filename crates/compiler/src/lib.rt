// The compiler: from a rule sheet to its table. Definitions of what it gives are in specs/Calling.antt.
#![tactic(auto)]

mod building;
mod call;
mod refusals;

pub use building::build_sheet;
pub use call::compile;
use syntax::{Fault, Sheet};
use trace::Mode;

// What the compiler refuses: a sheet with a fault of 1 to 7, or one with a node that is over a limit, 8 or 9.
#[derive(Clone, Copy)]
pub enum Refusal {
    Faulty(Fault),
    TooManyValues(usize),
    TooManyRows(usize),
}

// Why compiling gives no table: an area is too short, or what is refused.
#[derive(Clone, Copy)]
pub enum CompileError {
    ShortArea,
    Refused(Refusal),
}

// A sheet whose policy nodes' rows stand in their slots of the work area, with its mode and the number of rows of its policy.
#[derive(Clone, Copy)]
pub struct BuiltSheet {
    pub mode: Mode,
    pub rows: usize,
    pub sheet: Sheet,
}
