// Where the words of a text stand.
#![tactic(auto)]

ghost use Rattle.std.specs.Prelude.{◌≡◌, [], get_or};
ghost use Rattle.grammar.specs.Words.{words_of};
ghost use Rattle.positions.specs.Positions.{WordAt};

use fields::Span;
use lexer::{pass_blanks, word_end};

// The word of this number, from 0. Where there is none, the place after the last word.
pub fn word_at(text: &[u8], number: usize) -> Span
    ensures { WordAt text.now number result.from result.to }
{
    let mut at = 0;
    for passed in 0..number {
        let from = pass_blanks(text, at);
        if text.len() <= from {
            return Span { from: at, to: at };
        }
        at = word_end(text, from);
    }
    let from = pass_blanks(text, at);
    if text.len() <= from {
        return Span { from: at, to: at };
    }
    Span {
        from,
        to: word_end(text, from),
    }
}

// The bytes of that word: none where there is no such word.
pub fn word_of(text: &[u8], number: usize) -> &[u8]
    ensures { result.now ≡ get_or (words_of text.now) number [] }
{
    word_at(text, number).of(text)
}
