// Where the word of a node stands in the text of its sheet. A word stands before those of its parts, and a node behind its parts.
ghost use Rattle.std.specs.Prelude.{◌≡◌, ◌≤◌};
ghost use Rattle.part_words.specs.Places.{first_part, first_under, stands_before, own_words, words_if_before, words_before};

use crate::kinds::{has_number, part_count};
use crate::reading::{node_count, node_field};

// A node's first part; the node itself where it has none.
fn first_part(sheet: &[u8], node: usize) -> usize
    ensures { result ≡ first_part sheet.now node }
{
    if part_count(node_field(sheet, node, 0)) == 0 {
        return node;
    }
    node_field(sheet, node, 2)
}

// The first of the nodes that a node is made of.
fn first_under(sheet: &[u8], node: usize) -> usize
    ensures { result ≡ first_under sheet.now node }
{
    let mut first = node;
    let mut part = first_part(sheet, node);
    while part < first {
        first = part;
        part = first_part(sheet, first);
    }
    first
}

// Whether the word of a node stands before that of another.
#[tactic(auto, unfolding(crate::specs::Places::stands_before))]
fn stands_before(sheet: &[u8], node: usize, other: usize) -> bool
    ensures { result ≡ stands_before sheet.now node other }
{
    if node < other {
        return node < first_under(sheet, other);
    }
    other < node && first_under(sheet, node) <= other
}

// How many words a node itself is.
#[tactic(auto, unfolding(crate::specs::Places::word_count))]
fn own_words(sheet: &[u8], node: usize) -> usize
    ensures { (result ≡ own_words sheet.now node) × (result ≤ 2) }
{
    if has_number(node_field(sheet, node, 0)) {
        2
    } else {
        1
    }
}

// How many words of a node stand before that of another: its own, or none.
#[tactic(auto, unfolding(crate::specs::Places::words_if_before))]
fn words_if_before(sheet: &[u8], node: usize, other: usize) -> usize
    ensures { (result ≡ words_if_before sheet.now node other) × (result ≤ 2) }
{
    if stands_before(sheet, node, other) {
        own_words(sheet, node)
    } else {
        0
    }
}

// How many words of the text stand before that of a node. The first is no node's: watch or enforce.
pub fn words_before(sheet: &[u8], node: usize) -> usize
    ensures { result ≡ words_before sheet.now node }
{
    let count = node_count(sheet);
    let mut words = 1;
    for k in 0..count {
        words += words_if_before(sheet, k, node);
    }
    words
}
