// The words of a text, one after the other, and which of the language's words (crate grammar) each is.
#![tactic(auto)]

use grammar::Token;

mod reader;
mod tokens;
mod words;

pub use reader::{Reader, read_word};
pub use tokens::{same, token_of};
pub use words::{pass_blanks, word_end};

// A word of a text: which of the language's it is, and the position behind it.
#[derive(Clone, Copy)]
pub struct Word {
    pub token: Token,
    pub end: usize,
}
