// Reading an action list.
ghost use Rattle.std.specs.Prelude.{◌≡◌, ◌≤◌, ltb, length};
ghost use Rattle.grammar.specs.Words.{words_of};
ghost use Rattle.action_lists.specs.ActionLists.{is_doubled, ReadsActions};

use crate::ListError;
use crate::names::{action_named, is_name, name_of};
use crate::sets::read_action;
use positions::word_of;

// Whether a text has a word of this number, from 0.
pub fn has_word(text: &[u8], number: usize) -> bool
    ensures { result ≡ ltb number (length (words_of text.now)) }
{
    !word_of(text, number).is_empty()
}

// Whether a word has the name of one of those before its number.
fn is_doubled(line: &[u8], word: &[u8], number: usize) -> bool
    ensures { result ≡ is_doubled (words_of line.now) word.now number }
{
    let name = name_of(word);
    is_name(name) && action_named(line, name) < number
}

// Reads a list, and keeps the sets of its actions.
pub fn read_actions(line: &[u8], sets: &mut [u16]) -> Result<usize, ListError>
    requires { 16 ≤ length sets.old }
    ensures { ReadsActions (words_of line.now) sets.old sets.new result }
{
    for number in 0..16 {
        if !has_word(line, number) {
            return if number == 0 {
                Err(ListError::Nothing)
            } else {
                Ok(number)
            };
        }
        let word = word_of(line, number);
        let set = read_action(word).ok_or(ListError::WrongAt(number))?;
        if is_doubled(line, word, number) {
            return Err(ListError::DoubledAt(number));
        }
        sets[number] = set;
    }
    if has_word(line, 16) {
        return Err(ListError::TooMany);
    }
    Ok(16)
}
