// The words that a node and its parts are, each with a space before it. The nodes still to be said stand on a stack, from a place on, the next one first.
ghost use Rattle.std.specs.Prelude.{◌≡◌, ◌≤◌, length};
ghost use Rattle.messages.specs.Adding.{Adds};
ghost use Rattle.part_words.specs.Parts.{argument_text, node_text, node_parts, Pushed, cut_text, part_text};

use crate::kinds::{add_kind, has_number, part_count};
use crate::reading::node_field;
use messages::{add, add_number, put};
use sheet_writer::Kind;

// Adds the number of a node that has one: right behind the letter of a proposition, else as a word of its own.
#[tactic(auto, unfolding(crate::specs::Parts::argument_text))]
fn add_argument(kind: usize, argument: usize, text: &mut [u8], at: usize) -> usize
    ensures { Adds text.old at (argument_text kind argument) text.new result }
{
    if kind == Kind::Proposition as usize {
        return add_number(argument, text, at);
    }
    if has_number(kind) {
        let next = put(b' ', text, at);
        return add_number(argument, text, next);
    }
    at
}

// Adds the words that a node itself is.
fn add_node(sheet: &[u8], node: usize, text: &mut [u8], at: usize) -> usize
    ensures { Adds text.old at (node_text sheet.now node) text.new result }
{
    let kind = node_field(sheet, node, 0);
    let argument = node_field(sheet, node, 1);
    let word = put(b' ', text, at);
    let next = add_kind(sheet, node, text, word);
    add_argument(kind, argument, text, next)
}

// Puts the parts of a node on the stack, the first one on top, and answers where it begins now.
fn push_parts(sheet: &[u8], node: usize, stack: &mut [usize; 130], from: usize) -> usize
    requires { (length stack.old ≡ 130) × (3 ≤ from) × (from ≤ 130) }
    ensures { Pushed (node_parts sheet.now node) stack.old from stack.new result }
{
    let mut top = from;
    let count = part_count(node_field(sheet, node, 0));
    for part in (0..count).rev() {
        top -= 1;
        stack[top] = node_field(sheet, node, 2 + part);
    }
    top
}

// Adds that there is more.
fn add_cut(text: &mut [u8], at: usize) -> usize
    ensures { Adds text.old at cut_text text.new result }
{
    add(b" ..", text, at)
}

// Adds the words that a node and its parts are. 64 nodes are the most that a text has; a sheet that shares parts can be longer as words, and is
// cut there. Each of the 64 takes one off the stack and puts three on at the most, so that 130 places are enough.
pub fn add_part(sheet: &[u8], node: usize, text: &mut [u8], at: usize) -> usize
    ensures { Adds text.old at (part_text sheet.now node) text.new result }
{
    let mut stack = [0usize; 130];
    stack[129] = node;
    let mut from = 129;
    let mut left = 64usize;
    let mut end = at;
    while from < 130 {
        if left == 0 {
            return add_cut(text, end);
        }
        let next = stack[from];
        end = add_node(sheet, next, text, end);
        from = push_parts(sheet, next, &mut stack, from + 1);
        left -= 1;
    }
    end
}
