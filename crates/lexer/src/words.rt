// The words of a text, one after the other.
ghost use Rattle.std.specs.Prelude.{◌≡◌, ◌<◌, false, length, get_or};
ghost use Rattle.grammar.specs.Words.{is_blank};
ghost use Rattle.lexer.specs.Next.{PassesBlanks, EndsWord, NextWord};

use crate::Word;
use crate::tokens::token_of;

fn is_blank(byte: u8) -> bool
    ensures { result ≡ is_blank byte }
{
    matches!(byte, b' ' | b'\n')
}

// The first position from `at` on that is no blank's.
pub fn pass_blanks(text: &[u8], at: usize) -> usize
    ensures { PassesBlanks text.now at result }
{
    for k in at..text.len() {
        if !is_blank(text[k]) {
            return k;
        }
    }
    at.max(text.len())
}

// The position behind the word that begins at `from`.
pub fn word_end(text: &[u8], from: usize) -> usize
    requires { (from < length text.now) × (is_blank (get_or text.now from 0) ≡ false) }
    ensures { EndsWord text.now from result }
{
    for k in from + 1..text.len() {
        if is_blank(text[k]) {
            return k;
        }
    }
    text.len()
}

// The next word of a text from a position on.
pub fn next_word(text: &[u8], at: usize) -> Option<Word>
    ensures { NextWord text.now at result }
{
    let from = pass_blanks(text, at);
    if text.len() <= from {
        return None;
    }
    let end = word_end(text, from);
    let token = token_of(&text[from..end]);
    Some(Word { token, end })
}
