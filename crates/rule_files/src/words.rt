// Words: what stands between blanks and newlines.
ghost use Rattle.std.specs.Prelude.{◌≡◌, ◌≤◌, length, take, IfSome};
ghost use Rattle.std.specs.Iterator.{at_most};
ghost use Rattle.rule_files.specs.Standing.{StandsIn, WordThen};

// Where a word stands in a text. It is empty where there is no such word.
#[derive(Clone, Copy)]
pub struct Span {
    pub from: usize,
    pub to: usize,
}

fn is_blank(byte: u8) -> bool {
    matches!(byte, b' ' | b'\n')
}

// The first position from `at` on whose byte passes a test, or the end.
fn first_from<F: Fn(u8) -> bool>(text: &[u8], at: usize, test: F) -> usize
    requires within { at ≤ length text.now }
    requires callable { F.IsAlwaysCallable test }
    ensures { (at ≤ result) × (result ≤ length text.now) }
{
    for k in at..text.len() {
        if test(text[k]) {
            return k;
        }
    }
    text.len()
}

// The first position from `at` on whose byte is no blank, or the end.
pub fn pass_blanks(text: &[u8], at: usize) -> usize
    requires { at ≤ length text.now }
    ensures { (at ≤ result) × (result ≤ length text.now) }
{
    first_from(text, at, |byte| !is_blank(byte))
}

// The first position from `at` on whose byte is a blank, or the end.
pub fn word_end(text: &[u8], at: usize) -> usize
    requires { at ≤ length text.now }
    ensures { (at ≤ result) × (result ≤ length text.now) }
{
    first_from(text, at, is_blank)
}

// The first position from `from` on that has the byte, or the end.
pub fn find(bytes: &[u8], from: usize, byte: u8) -> usize
    requires { from ≤ length bytes.now }
    ensures { (from ≤ result) × (result ≤ length bytes.now) }
{
    first_from(bytes, from, |other| other == byte)
}

// The first line of a text, without its newline.
pub fn first_line(text: &[u8]) -> &[u8]
    ensures { (length result.now ≤ length text.now) × (result.now ≡ take (length result.now) text.now) }
{
    &text[..find(text, 0, b'\n')]
}

// Where the word after the first n stands.
pub fn word_behind(text: &[u8], n: usize) -> Span
    ensures { (result.from ≤ result.to) × (result.to ≤ length text.now) }
{
    let mut from = pass_blanks(text, 0);
    for _ in 0..n {
        let end = word_end(text, from);
        from = pass_blanks(text, end);
    }
    Span {
        from,
        to: word_end(text, from),
    }
}

// The word after the first n; empty where there is none.
#[tactic(auto, using(crate::proofs::Standing::part_stands))]
pub fn word_at(text: &[u8], n: usize) -> &[u8]
    ensures { StandsIn text.now result.now }
{
    let Span { from, to } = word_behind(text, n);
    &text[from..to]
}

// The words of what is left of a text, one after the other.
#[derive(Drop)]
pub struct TextWords<'a> {
    pub rest: &'a [u8],
}

impl<'a> Iterator for TextWords<'a> {
    type Item = &'a [u8];

    ghost next_gives = { λ s r t. IfSome r (λ w. WordThen s.rest.now w.now t.rest.now) };

    ghost remaining = { λ s. at_most (length s.rest.now) };

    fn next(&mut self) -> Option<&'a [u8]> {
        let text = self.rest;
        let from = pass_blanks(text, 0);
        if from == text.len() {
            return None;
        }
        let to = word_end(text, from + 1);
        self.rest = &text[to..];
        Some(&text[from..to])
    }
}

// The words of a text.
pub fn words_of(text: &[u8]) -> TextWords<'_>
    ensures { result.rest.now ≡ text.now }
{
    TextWords { rest: text }
}

// How many newlines stand before a position.
pub fn newlines(text: &[u8], to: usize) -> usize
    requires { to ≤ length text.now }
    ensures { result ≤ to }
{
    text[..to].iter().filter(|byte| **byte == b'\n').count()
}

// The digit that a byte is; 100 where it is none.
pub fn digit(byte: u8) -> u8
    ensures { result ≤ 100 }
{
    match byte {
        b'0'..=b'9' => byte - b'0',
        _ => 100,
    }
}

// Whether a word is of small letters and digits alone.
pub fn is_plain(word: &[u8]) -> bool {
    word.iter()
        .all(|byte| byte.is_ascii_lowercase() || byte.is_ascii_digit())
}
