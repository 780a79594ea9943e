// The places of a board: what each of them holds, and where its table stands in the board's area.
#![tactic(auto)]

mod area;
mod cases;

pub use area::{place_bytes, write_place};
use table::LARGEST_TABLE;

// How many places a board has, how long the part of a place in the area is, which is the length of the largest table, and so the area.
pub const PLACES: usize = 8;

pub const PLACE_LENGTH: usize = LARGEST_TABLE;

pub const AREA_LENGTH: usize = PLACES * PLACE_LENGTH;

// A place is empty, or holds an enforced rule and its row, or a watched rule and its row, or a watched rule fulfilled.
#[derive(Clone, Copy)]
pub enum Case {
    Empty,
    Enforced(u8),
    Watched(u8),
    Fulfilled,
}

#[derive(Clone, Copy)]
pub struct Place {
    pub case: Case,
}

// Only `from_places` and `with_places` build one, so that a field more is added there (cases.rt).
#[derive(Clone, Copy)]
pub struct Board {
    pub places: [Place; PLACES],
}
