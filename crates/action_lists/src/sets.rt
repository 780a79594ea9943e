// The propositions of an action.
ghost use Rattle.std.specs.Prelude.{◌≡◌, unwrap_or};
ghost use Rattle.fields.specs.Fields.{split_by};
ghost use Rattle.grammar.specs.Spelling.{token_of};
ghost use Rattle.action_lists.specs.ActionLists.{proposition_of, with_all, set_of, action_of};

use crate::names::{is_name, name_end};
use fields::{find, front};
use grammar::Token;
use lexer::token_of;

// The number of a proposition.
#[tactic(auto, using(crate::proofs::Uniting::not_proposition), unfolding(crate::specs::ActionLists::proposition_of))]
fn proposition(word: &[u8]) -> Option<u8>
    ensures { unwrap_or result 100 ≡ proposition_of (token_of word.now) }
{
    match token_of(word) {
        Token::Proposition(number) => Some(number),
        _ => None,
    }
}

// The set of propositions joined by `+`.
fn read_joined(word: &[u8]) -> Option<u16>
    ensures { result ≡ with_all 0 (split_by 43 word.now) }
{
    let mut set = 0;
    let mut from = 0;
    loop {
        let to = find(word, from, b'+');
        let Some(number) = proposition(&word[from..to]) else {
            return None;
        };
        if 15 < number {
            return None;
        }
        set |= 1u16 << number;
        if to == word.len() {
            return Some(set);
        }
        from = to + 1;
    }
}

#[tactic(auto, using(lexer::proofs::Spelled::same_bytes), unfolding(crate::specs::ActionLists::set_of))]
fn read_set(word: &[u8]) -> Option<u16>
    ensures { result ≡ set_of word.now }
{
    if word == b"-".as_slice() {
        return Some(0);
    }
    read_joined(word)
}

// The propositions of a word of an action list.
#[tactic(auto, using(crate::proofs::Naming::unnamed, crate::proofs::Naming::named, crate::proofs::Naming::misnamed, base::proofs::Lists::tail))]
pub fn read_action(word: &[u8]) -> Option<u16>
    ensures { result ≡ action_of word.now }
{
    let end = name_end(word);
    if end == word.len() {
        return read_set(word);
    }
    if is_name(front(word, end)) {
        return read_set(&word[end + 1..]);
    }
    None
}
