// What bounds a build: the limits on a machine's values and rows, and the lengths of what it works in.
#![tactic(auto)]

// The most values and rows that a machine may have.
#[derive(Clone, Copy)]
pub struct Limits {
    pub values: usize,
    pub rows: usize,
}

// The highest limits: what the scratch lists have room for, and the rows of the largest table.
pub const LARGEST: Limits = Limits {
    values: 1024,
    rows: 64,
};

// A slot, which holds the entries of one machine, and the 64 slots of a work area.
pub const SLOT_LENGTH: usize = 1024;

pub const WORK_LENGTH: usize = 65536;

// A work area's numbers, one for each value.
pub const NUMBERS_LENGTH: usize = 1024;
