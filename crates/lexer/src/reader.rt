// A text and a position in it kept together. These functions only take it apart: the work is in words.rt.
ghost use Rattle.std.specs.Prelude.{◌≡◌};
ghost use Rattle.lexer.specs.Next.{NextWord};

use crate::Word;
use crate::words::next_word;

// A text and a position in it.
#[derive(Clone, Copy)]
pub struct Reader<'a> {
    pub text: &'a [u8],
    pub at: usize,
}

impl<'a> Reader<'a> {
    // A text at a position.
    pub fn open(text: &'a [u8], at: usize) -> Reader<'a>
        ensures { (result.text ≡ text.entry) × (result.at ≡ at) }
    {
        Reader { text, at }
    }

    // The next word.
    pub fn next(self) -> Option<Word>
        ensures { NextWord self.entry.text.now self.entry.at result }
    {
        next_word(self.text, self.at)
    }
}

// The next word of a text from a position on.
pub fn read_word(text: &[u8], at: usize) -> Option<Word>
    ensures { NextWord text.now at result }
{
    Reader::open(text, at).next()
}
