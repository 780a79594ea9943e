// Which reason there is that a word does not fit.
ghost use Rattle.std.specs.Prelude.{◌≡◌};
ghost use Rattle.rule_messages.specs.Misfits.{any_between, has_bracket, is_watched_only, is_enforced_only, strange_of, by_word, misfit_of};

use crate::Misfit;
use grammar::{Category, Token};
use lexer::token_of;

// Whether some byte of a word lies in a range.
pub fn any_between(word: &[u8], low: u8, high: u8) -> bool
    ensures { result ≡ any_between low high word.now }
{
    word.iter().any(|byte| low <= *byte && *byte <= high)
}

fn has_bracket(word: &[u8]) -> bool
    ensures { result ≡ has_bracket word.now }
{
    any_between(word, b'(', b')')
        || any_between(word, b'[', b'[')
        || any_between(word, b']', b']')
        || any_between(word, b'{', b'{')
        || any_between(word, b'}', b'}')
}

#[tactic(auto, using(lexer::proofs::Spelled::same_bytes))]
fn is_watched_only(word: &[u8]) -> bool
    ensures { result ≡ is_watched_only word.now }
{
    word == b"now".as_slice() || word == b"count".as_slice() || word == b"eventually".as_slice()
}

#[tactic(auto, using(lexer::proofs::Spelled::same_bytes))]
fn is_enforced_only(word: &[u8]) -> bool
    ensures { result ≡ is_enforced_only word.now }
{
    word == b"holds".as_slice() || word == b"always".as_slice() || word == b"fulfilling".as_slice()
}

// What a word has in it that no word has.
#[tactic(auto, unfolding(crate::specs::Misfits::strange_of))]
pub fn strange(word: &[u8]) -> Option<Misfit>
    ensures { result ≡ strange_of word.now }
{
    if any_between(word, b'\r', b'\r') {
        return Some(Misfit::Return);
    }
    if any_between(word, b'\t', b'\t') {
        return Some(Misfit::Tab);
    }
    if any_between(word, b'\xef', b'\xef') {
        return Some(Misfit::Mark);
    }
    if any_between(word, b'\xa0', b'\xa0') {
        return Some(Misfit::WideSpace);
    }
    if has_bracket(word) {
        return Some(Misfit::Bracket);
    }
    if any_between(word, b'A', b'Z') {
        return Some(Misfit::Capital);
    }
    None
}

// Why a word does not fit, by the word itself.
#[tactic(auto, unfolding(crate::specs::Misfits::by_word, crate::specs::Misfits::is_enforced, crate::specs::Misfits::is_watched, crate::specs::Misfits::is_other))]
fn by_word(word: &[u8], expected: Category, named: bool) -> Misfit
    ensures { result ≡ by_word word.now expected named }
{
    if named {
        return Misfit::Named;
    }
    if expected == Category::Enforced && is_watched_only(word) {
        return Misfit::WatchedOnly;
    }
    if expected == Category::Watched && is_enforced_only(word) {
        return Misfit::EnforcedOnly;
    }
    match token_of(word) {
        Token::Other => Misfit::Unknown,
        _ => Misfit::Misplaced,
    }
}

// Why a word does not fit where something of a category is to come; the empty word where there is none. It may be the name of an action.
#[tactic(auto, using(lexer::proofs::Spelled::same_bytes), unfolding(crate::specs::Misfits::misfit_of, crate::specs::Misfits::is_end))]
pub fn misfit_of(word: &[u8], expected: Category, named: bool) -> Misfit
    ensures { result ≡ misfit_of word.now expected named }
{
    if word.is_empty() {
        return Misfit::Missing;
    }
    if word == b"---".as_slice() {
        return Misfit::Separator;
    }
    if expected == Category::End {
        return Misfit::Whole;
    }
    match strange(word) {
        Some(misfit) => misfit,
        None => by_word(word, expected, named),
    }
}
