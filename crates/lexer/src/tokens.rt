// Which of the language's words a word is.
ghost use Rattle.std.specs.Prelude.{◌≡◌};
ghost use Rattle.grammar.specs.Spelling.{token_of, value_of};
ghost use Rattle.lexer.specs.Tables.{numbered, up_to_15, up_to_60, value_or_none};

use grammar::Token;

// Whether two words are the same.
pub fn same(word: &[u8], other: &[u8]) -> bool
    ensures { result ≡ Rattle.grammar.specs.Spelling.same word.now other.now }
{
    if word.len() != other.len() {
        return false;
    }
    for k in 0..word.len() {
        if word[k] != other[k] {
            return false;
        }
    }
    true
}

// The number that one or two digits say, without leading zero.
fn value_of(word: &[u8]) -> Option<u8>
    ensures { value_or_none result ≡ value_of word.now }
{
    match word {
        [a @ b'0'..=b'9'] => Some(*a - b'0'),
        [a @ b'1'..=b'9', b @ b'0'..=b'9'] => Some(10 * (*a - b'0') + (*b - b'0')),
        _ => None,
    }
}

// The proposition that the word behind a p says, if it is one of the language's.
#[tactic(auto, using(crate::proofs::Spelled::limits))]
fn proposition(digits: &[u8]) -> Token
    ensures { result ≡ up_to_15 (value_of digits.now) }
{
    match value_of(digits) {
        Some(n @ 0..=15) => Token::Proposition(n),
        _ => Token::Other,
    }
}

// The number that a word says, if it is one of the language's.
#[tactic(auto, using(crate::proofs::Spelled::limits))]
fn number(word: &[u8]) -> Token
    ensures { result ≡ up_to_60 (value_of word.now) }
{
    match value_of(word) {
        Some(n @ 1..=60) => Token::Number(n),
        _ => Token::Other,
    }
}

// The proposition or the number that a word is, if it is one.
fn numbered(word: &[u8]) -> Token
    ensures { result ≡ numbered word.now }
{
    match word {
        [b'p', digits @ ..] => proposition(digits),
        _ => number(word),
    }
}

// The token of a word: one of the language's own, a proposition, a number or none of these.
pub fn token_of(word: &[u8]) -> Token
    ensures { result ≡ token_of word.now }
{
    if same(word, b"watch") {
        Token::Watch
    } else if same(word, b"enforce") {
        Token::Enforce
    } else if same(word, b"now") {
        Token::Now
    } else if same(word, b"holds") {
        Token::Holds
    } else if same(word, b"count") {
        Token::Count
    } else if same(word, b"not") {
        Token::Not
    } else if same(word, b"and") {
        Token::And
    } else if same(word, b"or") {
        Token::Or
    } else if same(word, b"eventually") {
        Token::Eventually
    } else if same(word, b"always") {
        Token::Always
    } else if same(word, b"before") {
        Token::Before
    } else if same(word, b"after") {
        Token::After
    } else if same(word, b"fulfilling") {
        Token::Fulfilling
    } else if same(word, b"ignoring") {
        Token::Ignoring
    } else if same(word, b"true") {
        Token::True
    } else if same(word, b"false") {
        Token::False
    } else {
        numbered(word)
    }
}
