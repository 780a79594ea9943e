// One pass over the words, with a list of what is still to come: the last of it is to come next.
ghost use Rattle.std.specs.Prelude.{◌≡◌, ◌+◌, ◌≤◌, ◌<◌, length, IfSome, IfOk, IfErr};
ghost use Rattle.naive_texts.specs.Reading.{Few, OneMore};

use crate::language::{kind_of, look_up, part, parts_of};
use crate::{Listed, Reading};
use naive::{at, put, room};

// One thing more is to come, unless its category is a blank. Answers how much is.
fn expect(category: usize, to_come: &mut [u8], depth: usize) -> usize
    requires { depth < 65536 }
    ensures { result ≤ depth + 1 }
{
    if category == 32 {
        return depth;
    }
    put(to_come, depth, category);
    depth + 1
}

// The parts of a line are to come, the first of them next.
fn expect_parts(line: usize, to_come: &mut [u8], before: usize) -> usize
    requires { (line ≤ 27) × (before < 65000) }
    ensures { result ≤ before + 4 }
{
    let mut depth = before;
    for i in 0..4 {
        depth = expect(part(line, 3 - i), to_come, depth);
    }
    depth
}

// Lists the node of a line behind n others. Where the line has none, its argument is that of the node before. Answers how many nodes are listed.
fn list_node(line: usize, argument: usize, nodes: &mut [Listed], n: usize) -> usize
    requires { (line ≤ 27) × (n < 65536) }
    ensures { result ≤ n + 1 }
{
    let argument = (argument % 256) as u8;
    let kind = kind_of(line);
    if kind == 0 {
        if 0 < n && n <= nodes.len() {
            nodes[n - 1].argument = argument;
        }
        return n;
    }
    if n < nodes.len() {
        nodes[n] = Listed {
            kind: (kind % 256) as u8,
            argument,
            parts: parts_of(line),
        };
    }
    n + 1
}

// Reads a word, where it fits what is to come.
fn read_word(
    reading: Reading,
    word: &[u8],
    to_come: &mut [u8],
    nodes: &mut [Listed],
) -> Option<Reading>
    requires { Few reading.words reading.nodes reading.depth }
    ensures { IfSome result (λ next. OneMore reading.words reading.nodes reading.depth next.words next.nodes next.depth) }
{
    let depth = reading.depth;
    if depth == 0 {
        return None;
    }
    let fit = look_up(at(to_come, depth - 1), word)?;
    Some(Reading {
        words: reading.words + 1,
        nodes: list_node(fit.line, fit.argument, nodes, reading.nodes),
        depth: expect_parts(fit.line, to_come, depth - 1),
    })
}

fn is_blank(byte: u8) -> bool {
    matches!(byte, b' ' | b'\n')
}

// Reads the words of a text, which end before a blank, or where the text does, into a list of nodes. Answers how many nodes there are, or how many words stand
// before the first that does not fit, or before the end, where more is to come.
pub fn read_words(text: &[u8], nodes: &mut [Listed]) -> Result<usize, usize>
    requires { length text.now ≤ 1024 }
    ensures read { IfOk result (λ nodes. nodes ≤ 1025) }
    ensures stuck { IfErr result (λ words. words ≤ 1025) }
{
    let mut to_come = room::<u8, 4096>(0);
    put(&mut to_come, 0, usize::from(b'T'));
    let mut reading = Reading {
        words: 0,
        nodes: 0,
        depth: 1,
    };
    let mut from = 0;
    for i in 0..=text.len() {
        if i == text.len() || is_blank(text[i]) {
            if from < i {
                match read_word(reading, &text[from..i], &mut to_come, nodes) {
                    Some(next) => reading = next,
                    None => return Err(reading.words),
                }
            }
            from = i + 1;
        }
    }
    if 0 < reading.depth {
        return Err(reading.words);
    }
    Ok(reading.nodes)
}
