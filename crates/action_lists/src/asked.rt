// Lists of actions that are asked about.
ghost use Rattle.std.specs.Prelude.{◌≡◌, unwrap_or};
ghost use Rattle.grammar.specs.Words.{words_of};
ghost use Rattle.action_lists.specs.AskedLists.{unpadded, number_from, named_of, asked_of, ReadsList, FirstOutside};

use crate::actions::has_word;
use crate::names::{action_named, is_name};
use lexer::{pass_blanks, word_end};

// Whether a word has no zero before its last byte.
#[tactic(auto, using(crate::proofs::Asking::short_unpadded, crate::proofs::Asking::long_unpadded))]
fn is_unpadded(word: &[u8]) -> bool
    ensures { result ≡ unpadded word.now }
{
    match word {
        [] => false,
        [_] => true,
        [first, ..] => *first != b'0',
    }
}

// The number that digits are, up to 254.
fn read_number(word: &[u8]) -> Option<u8>
    ensures { unwrap_or result 255 ≡ number_from 0 word.now }
{
    let mut value = 0;
    for byte in word {
        if !byte.is_ascii_digit() {
            return None;
        }
        value = 10 * value + usize::from(*byte - b'0');
        if 254 < value {
            return None;
        }
    }
    Some(value as u8)
}

// The number of a name, up to 254.
#[tactic(auto, unfolding(crate::specs::AskedLists::named_of))]
fn read_name(word: &[u8], names: &[u8]) -> Option<u8>
    ensures { unwrap_or result 255 ≡ named_of (words_of names.now) word.now }
{
    let number = action_named(names, word);
    if number < 255 && has_word(names, number) {
        return Some(number as u8);
    }
    None
}

// The action that a word is, where these are the names.
#[tactic(auto, unfolding(crate::specs::AskedLists::asked_of))]
fn read_asked(word: &[u8], names: &[u8]) -> Option<u8>
    ensures { unwrap_or result 255 ≡ asked_of (words_of names.now) word.now }
{
    if is_name(word) {
        return read_name(word, names);
    }
    if is_unpadded(word) {
        return read_number(word);
    }
    None
}

// Reads as many actions of a line as there is room for, and answers how many. 255 stands for a word that is no action.
pub fn read_list(line: &[u8], names: &[u8], list: &mut [u8]) -> usize
    ensures { ReadsList (words_of names.now) (words_of line.now) list.old list.new result }
{
    let mut at = 0;
    for count in 0..list.len() {
        let from = pass_blanks(line, at);
        if line.len() <= from {
            return count;
        }
        let to = word_end(line, from);
        list[count] = read_asked(&line[from..to], names).unwrap_or(255);
        at = to;
    }
    list.len()
}

// The place of the first number that is not below `actions`; the length where all are.
pub fn first_outside(list: &[u8], actions: usize) -> usize
    ensures { FirstOutside list.now actions result }
{
    for (place, action) in list.iter().enumerate() {
        if actions <= usize::from(*action) {
            return place;
        }
    }
    list.len()
}
