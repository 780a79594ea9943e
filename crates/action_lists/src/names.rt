// The names of actions.
ghost use Rattle.std.specs.Prelude.{◌≡◌};
ghost use Rattle.grammar.specs.Words.{words_of};
ghost use Rattle.action_lists.specs.ActionLists.{all_plain, is_name, name_of, NameEnds, NameTakes, action_named, name_at, NameStands};

use fields::{Span, find, front};
use lexer::{pass_blanks, word_end};
use positions::word_at;

// Whether a word is of small letters and digits.
fn all_plain(word: &[u8]) -> bool
    ensures { result ≡ all_plain word.now }
{
    word.iter()
        .all(|byte| byte.is_ascii_digit() || byte.is_ascii_lowercase())
}

// Whether a word is a name.
#[tactic(auto, unfolding(crate::specs::ActionLists::is_name, crate::specs::ActionLists::all_plain))]
pub fn is_name(word: &[u8]) -> bool
    ensures { result ≡ is_name word.now }
{
    match word {
        [] | [b'p', b'0'..=b'9', ..] => false,
        [first, ..] => first.is_ascii_lowercase() && all_plain(word),
    }
}

// Where the name of a word ends.
#[tactic(auto, using(crate::proofs::Naming::name_ends))]
pub fn name_end(word: &[u8]) -> usize
    ensures { NameEnds word.now result }
{
    find(word, 0, b'=')
}

// The name of a word.
pub fn name_of(word: &[u8]) -> &[u8]
    ensures { result.now ≡ name_of word.now }
{
    front(word, name_end(word))
}

// The number of the first word of a list that has a name; the number of words where none has it.
pub fn action_named(list: &[u8], name: &[u8]) -> usize
    ensures { result ≡ action_named (words_of list.now) name.now }
{
    let mut number = 0;
    let mut at = 0;
    loop {
        let from = pass_blanks(list, at);
        if list.len() <= from {
            return number;
        }
        let to = word_end(list, from);
        if name_of(&list[from..to]) == name {
            return number;
        }
        number += 1;
        at = to;
    }
}

// How many bytes the name of an action has, where a word is the action's: none where it has no name.
fn name_length(word: &[u8]) -> usize
    ensures { NameTakes word.now result }
{
    let end = name_end(word);
    if is_name(front(word, end)) { end } else { 0 }
}

// Where the name of the action of this number stands in a list: nothing stands there where the action has none.
pub fn name_at(list: &[u8], number: usize) -> Span
    ensures { NameStands list.now number result.from result.to }
{
    let Span { from, to } = word_at(list, number);
    let end = from + name_length(&list[from..to]);
    Span { from, to: end }
}

// The bytes of that name.
pub fn action_name(list: &[u8], number: usize) -> &[u8]
    ensures { result.now ≡ name_at (words_of list.now) number }
{
    name_at(list, number).of(list)
}
