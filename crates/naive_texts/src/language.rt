// The language as it is written down: which words may stand where something of a category is to come, with the categories of their parts.
ghost use Rattle.std.specs.Prelude.{◌≡◌, ◌≤◌, ◌<◌, IfSome};

use crate::Fit;
use naive::at;

// How many lines the language has, and the two lines that stand for several words.
const LINES: usize = 27;

const PROPOSITIONS: usize = 25;

const NUMBERS: usize = 26;

// Byte i of a line of the language. A line has 21: a newline, the category, the word, the categories of its parts, and the kind of its node, 0 for
// none. No word is that of one of the last two lines, which have blanks in them.
fn language(line: usize, i: usize) -> usize
    requires { (line ≤ 27) × (i ≤ 20) }
    ensures { result < 256 }
{
    at(
        b"
T watch      W     0
T enforce    E     0
W now        A    10
W count      K    12
W not        E    13
W and        WW   14
W or         WW   15
W eventually W    16
W before     WW   18
W after      WW   20
W ignoring   AW   23
E holds      A    11
E not        W    13
E and        EE   14
E or         EE   15
E always     E    17
E before     WE   19
E after      WE   21
E fulfilling KWEE 22
E ignoring   AE   23
A true             1
A false            2
A not        A     4
A and        AA    5
A or         AA    6
A p0 to p15        3
K 1 to 60          0",
        21 * line + i,
    )
}

// The category of part i of the word of a line, or a blank.
pub fn part(line: usize, i: usize) -> usize
    requires { (line ≤ 27) × (i < 4) }
    ensures { result < 256 }
{
    language(line, 14 + i)
}

// Whether a part is a node: neither a blank nor a number.
fn is_node(category: usize) -> bool {
    category != 32 && category != usize::from(b'K')
}

// How many nodes a node of a line has as its parts.
pub fn parts_of(line: usize) -> u8
    requires { line ≤ 27 }
    ensures { result ≤ 4 }
{
    let mut parts = 0;
    for i in 0..4 {
        if is_node(part(line, i)) {
            parts += 1;
        }
    }
    parts
}

// The kind of the node of a line.
pub fn kind_of(line: usize) -> usize
    requires { line ≤ 27 }
    ensures { result < 256 }
{
    10 * (language(line, 19) % 16) + language(line, 20) % 16
}

// Byte i of a word, which has blanks behind it.
fn letter(word: &[u8], i: usize) -> usize {
    usize::from(word.get(i).copied().unwrap_or(b' '))
}

// Whether a line has the word, for the category.
fn line_has(line: usize, category: usize, word: &[u8]) -> bool
    requires { line ≤ 27 }
{
    if 10 < word.len() || language(line, 1) != category {
        return false;
    }
    for i in 0..10 {
        if language(line, 3 + i) != letter(word, i) {
            return false;
        }
    }
    true
}

// The line that has the word, for the category.
fn line_of(category: usize, word: &[u8]) -> Option<Fit>
    ensures { IfSome result (λ fit. fit.line < 27) }
{
    for line in 0..LINES {
        if line_has(line, category, word) {
            return Some(Fit { line, argument: 0 });
        }
    }
    None
}

// Whether a word is a number below 100, in digits.
fn spells(word: &[u8], k: usize) -> bool
    requires { k < 100 }
{
    match word {
        [ones] => k < 10 && usize::from(*ones) == 48 + k,
        [tens, ones] => {
            9 < k && usize::from(*tens) == 48 + k / 10 && usize::from(*ones) == 48 + k % 10
        }
        _ => false,
    }
}

// The line, and the number of this range that a word is.
fn number_in(line: usize, least: usize, most: usize, word: &[u8]) -> Option<Fit>
    requires { (line ≤ 27) × (most < 100) }
    ensures { IfSome result (λ fit. fit.line ≡ line) }
{
    for k in least..=most {
        if spells(word, k) {
            return Some(Fit { line, argument: k });
        }
    }
    None
}

// The line of a word where something of a category is to come.
pub fn look_up(category: usize, word: &[u8]) -> Option<Fit>
    ensures { IfSome result (λ fit. fit.line < 27) }
{
    if category == usize::from(b'K') {
        return number_in(NUMBERS, 1, 60, word);
    }
    match word {
        [b'p', digits @ ..] if category == usize::from(b'A') => {
            number_in(PROPOSITIONS, 0, 15, digits)
        }
        _ => line_of(category, word),
    }
}
