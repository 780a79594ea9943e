// From the nodes of a sheet to the words of a text. Each node is a word; the number of a count or a fulfilling is one more. A word stands before those
// of its parts, and a node behind its parts.
ghost use Rattle.std.specs.Prelude.{◌≡◌, ◌+◌, ◌≤◌, ◌<◌, length};

use crate::output::{say, say_number};

// A kind stays a number: it is a byte of any sheet, also of one that is refused.
const PROPOSITION: usize = 3;

const COUNT: usize = 12;

const FULFILLING: usize = 22;

// Byte i as a number, 0 past the end.
pub fn byte_at(bytes: &[u8], i: usize) -> usize
    ensures { result < 256 }
{
    usize::from(bytes.get(i).copied().unwrap_or(0))
}

// A field of a node: 0 its kind, 1 its argument, 2 to 4 its parts. The header says where the nodes stand.
fn field(sheet: &[u8], node: usize, k: usize) -> usize
    requires { k < 5 }
    ensures { result < 256 }
{
    if node < 64 {
        return byte_at(
            sheet,
            byte_at(sheet, 6) + 256 * byte_at(sheet, 7) + 5 * node + k,
        );
    }
    0
}

// A node's first part; the node itself where it has none.
fn first_part(sheet: &[u8], node: usize) -> usize {
    let kind = field(sheet, node, 0);
    if kind <= PROPOSITION || kind == COUNT {
        return node;
    }
    field(sheet, node, 2)
}

// The first of the nodes that a node is made of.
fn first_under(sheet: &[u8], node: usize) -> usize {
    let mut first = node;
    loop {
        let part = first_part(sheet, first);
        if first <= part {
            return first;
        }
        first = part;
    }
}

// Whether the word of a node stands before that of another.
fn stands_before(sheet: &[u8], node: usize, other: usize) -> bool {
    if node < other {
        return node < first_under(sheet, other);
    }
    other < node && first_under(sheet, node) <= other
}

// How many words a node itself is.
fn own_words(sheet: &[u8], node: usize) -> usize
    ensures { result ≤ 2 }
{
    let kind = field(sheet, node, 0);
    if kind == COUNT || kind == FULFILLING {
        return 2;
    }
    1
}

// How many words of the text stand before a node's. One is the first, which no node is.
pub fn words_before(sheet: &[u8], node: usize) -> usize {
    let mut words = 1;
    for other in 0..64 {
        if stands_before(sheet, other, node) {
            words += own_words(sheet, other);
        }
    }
    words
}

// The kind of a node.
pub fn kind_of(sheet: &[u8], node: usize) -> usize
    ensures { result < 256 }
{
    field(sheet, node, 0)
}

// The word of a kind; the letter of a proposition.
pub fn say_kind(rt: &impl Print, kind: usize) {
    match kind {
        1 => say(rt, b"true"),
        2 => say(rt, b"false"),
        3 => say(rt, b"p"),
        4 | 13 => say(rt, b"not"),
        5 | 14 => say(rt, b"and"),
        6 | 15 => say(rt, b"or"),
        10 => say(rt, b"now"),
        11 => say(rt, b"holds"),
        12 => say(rt, b"count"),
        16 => say(rt, b"eventually"),
        17 => say(rt, b"always"),
        18 | 19 => say(rt, b"before"),
        20 | 21 => say(rt, b"after"),
        22 => say(rt, b"fulfilling"),
        _ => say(rt, b"ignoring"),
    }
}

// How many parts a kind has.
fn parts_of(kind: usize) -> usize
    ensures { result ≤ 3 }
{
    match kind {
        1 | 2 | 3 | 12 => 0,
        4 | 10 | 11 | 13 | 16 | 17 => 1,
        22 => 3,
        _ => 2,
    }
}

// The words that a node itself is.
fn say_node(rt: &impl Print, sheet: &[u8], node: usize) {
    let kind = kind_of(sheet, node);
    say_kind(rt, kind);
    if kind == COUNT || kind == FULFILLING {
        say(rt, b" ");
    }
    if kind == PROPOSITION || kind == COUNT || kind == FULFILLING {
        say_number(rt, field(sheet, node, 1));
    }
}

// Puts the parts of a node on a stack of so many nodes, the first one on top, and answers how many there are now.
fn push_parts(sheet: &[u8], node: usize, stack: &mut [usize], count: usize) -> usize
    requires { count + 3 ≤ length stack.old }
    ensures { result ≤ count + 3 }
{
    let parts = parts_of(kind_of(sheet, node));
    for part in 0..parts {
        stack[count + part] = field(sheet, node, 1 + parts - part);
    }
    count + parts
}

// The words that a node and its parts are. 64 nodes are the most of a text; a sheet that shares parts can be longer as words, and is cut there.
pub fn say_part(rt: &impl Print, sheet: &[u8], node: usize) {
    // The nodes that are still to be said: each that is said takes one off, and puts three on at the most.
    let mut stack: [usize; 132] = base::room(0);
    stack[0] = node;
    let mut count = 1;
    for said in 0..64usize {
        if count == 0 {
            return;
        }
        count -= 1;
        if 0 < said {
            say(rt, b" ");
        }
        let next = stack[count];
        say_node(rt, sheet, next);
        count = push_parts(sheet, next, &mut stack, count);
    }
    if 0 < count {
        say(rt, b" ..");
    }
}
