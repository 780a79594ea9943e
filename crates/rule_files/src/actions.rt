// The action list: a word an action, the propositions that hold of it joined by `+`, or `-` where none does. The action's name may stand before them,
// joined by `=`.
ghost use Rattle.std.specs.Prelude.{◌≡◌, ◌≤◌, ◌<◌, true, length, IfSome, IfErr};
ghost use Rattle.rule_files.specs.Standing.{StandsIn, IsWordIn};

use crate::words::{find, is_plain, word_at, words_of};
use grammar::Token;
use lexer::token_of;

// A word of a list that is refused: it stands after so many, and is none that the list can have, or has the name of one before it.
#[derive(Clone, Copy)]
pub struct WrongWord<'a> {
    pub word: &'a [u8],
    pub behind: usize,
    pub doubled: bool,
}

// The set that propositions joined by `+` are.
fn read_propositions(word: &[u8]) -> Option<u16> {
    let mut set = 0u16;
    for part in word.split(|byte| *byte == b'+') {
        let Token::Proposition(p @ 0..=15) = token_of(part) else {
            return None;
        };
        set |= 1u16 << p;
    }
    Some(set)
}

fn read_set(word: &[u8]) -> Option<u16> {
    if word == b"-".as_slice() {
        return Some(0);
    }
    read_propositions(word)
}

// Whether a word is a name: small letters and digits, a letter first, and no `p` with a digit behind it, as propositions begin.
pub fn is_name(word: &[u8]) -> bool
    ensures { result ≡ true → 0 < length word.now }
{
    match word {
        [] | [b'0'..=b'9', ..] | [b'p', b'0'..=b'9', ..] => false,
        _ => is_plain(word),
    }
}

// The set of an action, if the word is one.
fn read_action(word: &[u8]) -> Option<u16> {
    let end = find(word, 0, b'=');
    if end == word.len() {
        return read_set(word);
    }
    if !is_name(&word[..end]) {
        return None;
    }
    read_set(&word[end + 1..])
}

// What stands before the `=` of a word, all of it where there is none.
#[tactic(auto, using(crate::proofs::Standing::front_stands))]
fn name_of(word: &[u8]) -> &[u8]
    ensures { StandsIn word.now result.now }
{
    &word[..find(word, 0, b'=')]
}

// The number of the first of a list's words that has the name; only the first 255 words are looked at.
pub fn action_named(list: &[u8], name: &[u8]) -> Option<usize>
    ensures { IfSome result (λ n. n < 255) }
{
    words_of(list)
        .take(255)
        .position(|word| name_of(word) == name)
}

// The name of an action of a list, if it has one.
#[tactic(auto, using(crate::proofs::Standing::part_within))]
pub fn name_at(list: &[u8], number: usize) -> Option<&[u8]>
    ensures { IfSome result (λ n. IsWordIn list.now n.now) }
{
    let name = name_of(word_at(list, number));
    if is_name(name) { Some(name) } else { None }
}

// Whether a word that stands after so many has the name of one of them.
pub fn is_doubled(list: &[u8], word: &[u8], behind: usize) -> bool {
    let name = name_of(word);
    is_name(name) && action_named(list, name).is_some_and(|first| first < behind)
}

// Keeps the set of an action where there is room for it.
fn keep(sets: &mut [u16], number: usize, set: u16) {
    if let Some(place) = sets.get_mut(number) {
        *place = set;
    }
}

#[tactic(auto, using(crate::proofs::Standing::all_left, crate::proofs::Standing::word_left, crate::proofs::Standing::rest_left))]
// Reads a list, keeps the sets of the actions that there is room for, and answers how many actions there are.
pub fn read_actions<'a>(list: &'a [u8], sets: &mut [u16]) -> Result<usize, WrongWord<'a>>
    ensures { IfErr result (λ w. IsWordIn list.now w.word.now) }
{
    for (behind, word) in words_of(list).enumerate() {
        let set = read_action(word);
        let doubled = set.is_some() && is_doubled(list, word, behind);
        match set {
            Some(set) if !doubled => keep(sets, behind, set),
            _ => return Err(WrongWord {
                word,
                behind,
                doubled,
            }),
        }
    }
    Ok(words_of(list).count())
}
