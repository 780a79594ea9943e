// The rules of a file: they are separated by lines that have the one word `---`.
ghost use Rattle.std.specs.Prelude.{◌≡◌, ◌-◌, ◌<◌, ◌≤◌, length, take, drop};

use crate::words::{Span, find, newlines, pass_blanks, word_behind};

// A rule of a file: its number, from 1, or none where it is the only one; and a line of it.
#[derive(Clone, Copy)]
pub struct Place {
    pub rule: Option<usize>,
    pub line: usize,
}

// The text of a rule, and its place, with the line on which the text begins. Both are small, since a file is.
#[derive(Clone, Copy)]
pub struct RuleText<'a> {
    pub text: &'a [u8],
    pub place: Place,
    pub ghost short: { length text.now ≤ 65535 },
    pub ghost low: { place.line ≤ 65537 },
}

// A rule of a file, where it ends, and whether it is the last one.
#[derive(Clone, Copy)]
pub struct Part<'a> {
    pub rule: RuleText<'a>,
    pub to: usize,
    pub last: bool,
}

// Whether a line separates two rules.
fn parts_rules(line: &[u8]) -> bool {
    let Span { from, to } = word_behind(line, 0);
    &line[from..to] == b"---".as_slice() && pass_blanks(line, to) == line.len()
}

// Where the rule ends that begins here: at a line that separates it from the next one, or with the file.
fn rule_end(file: &[u8], from: usize) -> usize
    requires { from ≤ length file.now }
    ensures { (from ≤ result) × (result ≤ length file.now) }
{
    let mut at = from;
    while at < file.len() && !parts_rules(&file[at..find(file, at, b'\n')]) {
        at = line_behind(file, at);
    }
    at
}

// Where the next line begins, or the end.
pub fn line_behind(file: &[u8], at: usize) -> usize
    requires { at ≤ length file.now }
    ensures { (result ≤ length file.now) × (at < length file.now → at < result) }
{
    let end = find(file, at, b'\n');
    if end < file.len() { end + 1 } else { end }
}

// The line of a position, from 1.
fn line_of(file: &[u8], at: usize) -> usize
    requires { (at ≤ length file.now) × (length file.now ≤ 65535) }
    ensures { result ≤ 65537 }
{
    1 + newlines(file, at)
}

// The rule of this number that begins here; its text is all up to where it ends.
pub fn part_from<'a>(file: &'a [u8], from: usize, number: usize) -> Part<'a>
    requires { (from ≤ length file.now) × (length file.now ≤ 65535) }
    ensures within { (from ≤ result.to) × (result.to ≤ length file.now) }
    ensures text { result.rule.text.now ≡ take (result.to - from) (drop from file.now) }
{
    let to = rule_end(file, from);
    let last = to == file.len();
    let place = Place {
        rule: if number == 1 && last {
            None
        } else {
            Some(number)
        },
        line: line_of(file, from),
    };
    let rule = RuleText {
        text: &file[from..to],
        place,
    };
    Part { rule, to, last }
}

// The first watched rule of a file, and the line of its first word: the one that was found so far, else this one.
pub fn first_watched(found: Option<Place>, watched: bool, rule: RuleText<'_>) -> Option<Place> {
    if found.is_some() || !watched {
        return found;
    }
    Some(Place {
        rule: rule.place.rule,
        line: rule.place.line + newlines(rule.text, pass_blanks(rule.text, 0)),
    })
}
