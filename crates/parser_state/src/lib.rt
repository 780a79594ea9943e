// How far the reading of a text has come, in one number; a word taken from it; and a node closed after its parts.
#![tactic(auto)]

use grammar::{Category, Token};

mod closing;
mod steps;

pub use closing::{close_leaf, close_one, close_three, close_two};
pub use steps::{going, stuck, take_word, unpack};

// The bytes of the longest text that is read.
pub const LONGEST_TEXT: usize = 1024;

// How far reading has come: the position, and how many words and nodes stand before it; or after how many words it is stuck, and what was to come there.
// Functions hand it on in one number (specs/Packed.antt): as a Result of structs it takes 245 KiB of stack for the longest text, in place of 33.
#[derive(Clone, Copy)]
pub enum Progress {
    Going {
        at: usize,
        words: usize,
        nodes: usize,
    },
    Stuck {
        words: usize,
        expected: Category,
    },
}

// The word that comes next, with the progress after it; or there is none, or reading is stuck already. It is no `Option` of a struct: that takes 24
// bytes in place of 16, in the frame of each reader, and the deepest text takes some 27 KiB of stack (include/lemondarts.h).
#[derive(Clone, Copy)]
pub enum Taken {
    Word(Token, u64),
    Nothing,
}
