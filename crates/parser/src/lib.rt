// Reading a rule text as a sheet: the public call.
#![tactic(auto)]

use grammar::Category;

mod call;

pub use call::read_text;

// A text that was read: the length of its sheet in bytes, and its numbers of actions and nodes.
#[derive(Clone, Copy)]
pub struct SheetRead {
    pub length: usize,
    pub actions: usize,
    pub nodes: usize,
}

// What is refused: 14, 2, 31, 32 with its spot and what was to come there, and 33.
#[derive(Clone, Copy)]
pub enum TextError {
    ShortArea,
    Actions,
    LongText,
    Unreadable(usize, Category),
    TooManyNodes,
}
