// Rule files: the action list in the first line, and after it the rules, separated by lines that have the one word `---`.
#![tactic(auto)]

ghost use Rattle.std.specs.Prelude.{◌≡◌, ◌≤◌, min, eqb, length, take, get_or};
ghost use Rattle.fields.specs.Fields.{split_by};
ghost use Rattle.rule_lines.specs.RuleFiles.{is_separator, RuleEnds, NextLine, Trims};

use fields::{find, front, marks_in};
use positions::word_of;

// Whether bytes are those of a sheet: the second one is 0, as the upper byte of the number of actions is. No text has such a byte.
pub fn is_sheet(bytes: &[u8]) -> bool
    ensures { result ≡ eqb (get_or bytes.now 1 1) 0 }
{
    bytes.len() > 1 && bytes[1] == 0
}

// Whether a line separates two rules.
#[tactic(auto, using(lexer::proofs::Spelled::same_bytes), unfolding(crate::specs::RuleFiles::is_separator))]
fn separates(line: &[u8]) -> bool
    ensures { result ≡ is_separator line.now }
{
    word_of(line, 0) == b"---".as_slice() && word_of(line, 1).is_empty()
}

// Where the rule ends that begins here: at a line that separates it from the next one, or with the file.
pub fn rule_end(file: &[u8], from: usize) -> usize
    requires { from ≤ length file.now }
    ensures { RuleEnds file.now from result }
{
    let mut k = from;
    loop {
        let end = find(file, k, b'\n');
        if separates(&file[k..end]) {
            return k;
        }
        if end == file.len() {
            return end;
        }
        k = end + 1;
    }
}

// Where the line after this one begins, or the end.
pub fn next_line(file: &[u8], at: usize) -> usize
    requires { at ≤ length file.now }
    ensures { NextLine file.now at result }
{
    let end = find(file, at, b'\n');
    (end + 1).min(file.len())
}

// The line of a position, from 1; the last that is told is 999,999.
pub fn line_of(file: &[u8], at: usize) -> usize
    ensures { result ≡ min (length (split_by 10 (take at file.now))) 999999 }
{
    let before = marks_in(front(file, at), b'\n');
    before.min(999998) + 1
}

// The end of the last word of a text, or its beginning.
pub fn trimmed(text: &[u8]) -> usize
    ensures { Trims text.now result }
{
    for k in (0..text.len()).rev() {
        if text[k] != b' ' && text[k] != b'\n' {
            return k + 1;
        }
    }
    0
}
