// Kinds by their numbers: the word of each, and how many parts it has.
ghost use Rattle.std.specs.Prelude.{◌≡◌, ◌||◌, [], ◌≤◌, eqb, get_or};
ghost use Rattle.sheet_layout.specs.Layout.{field};
ghost use Rattle.fields.specs.Fields.{split_by};
ghost use Rattle.messages.specs.Adding.{Adds};
ghost use Rattle.messages.specs.Message.{filled};
ghost use Rattle.part_words.specs.Kinds.{kind_word, part_count};

use crate::reading::{byte_at, node_field};
use message_lists::fill_listed;
use sheet_writer::Kind;

// Adds the word of this number in a list of words, each with a `|` after it.
fn add_listed(words: &[u8], number: usize, text: &mut [u8], at: usize) -> usize
    ensures { Adds text.old at (filled (get_or (split_by 124 words.now) number []) 0 0 []) text.new result }
{
    fill_listed(words, number, 0, 0, b"", text, at)
}

// Adds the word of a kind; nothing where there is no such kind.
fn add_word(kind: usize, text: &mut [u8], at: usize) -> usize
    ensures { Adds text.old at (kind_word kind) text.new result }
{
    add_listed(
        b"|true|false|p|not|and|or||||now|holds|count|not|and|or|eventually|always|before|before|after|after|fulfilling|ignoring|",
        kind,
        text,
        at,
    )
}

// Adds the word of a node's kind.
pub fn add_kind(sheet: &[u8], node: usize, text: &mut [u8], at: usize) -> usize
    ensures { Adds text.old at (kind_word (field sheet.now node 0)) text.new result }
{
    add_word(node_field(sheet, node, 0), text, at)
}

// Whether the number of a kind's node is a word of its own.
pub fn has_number(kind: usize) -> bool
    ensures { result ≡ eqb kind 12 || eqb kind 22 }
{
    kind == Kind::Count as usize || kind == Kind::Fulfilling as usize
}

// How many parts a kind has.
pub fn part_count(kind: usize) -> usize
    ensures { (result ≡ part_count kind) × (result ≤ 3) }
{
    byte_at(
        b"\x00\x00\x00\x00\x01\x02\x02\x00\x00\x00\x01\x01\x00\x01\x02\x02\x01\x01\x02\x02\x02\x02\x03\x02",
        kind,
    )
}
