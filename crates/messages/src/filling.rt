// A message with its holes filled.
ghost use Rattle.messages.specs.Adding.{Adds};
ghost use Rattle.messages.specs.Message.{hole, filled};

use crate::numbers::add_number;
use crate::quoting::add_quoted;
use crate::writing::{add, put};

#[tactic(auto, unfolding(crate::specs::Message::hole))]
fn add_hole(byte: u8, first: usize, second: usize, word: &[u8], text: &mut [u8], at: usize) -> usize
    ensures { Adds text.old at (hole byte first second word.now) text.new result }
{
    match byte {
        b'#' => add_number(first, text, at),
        b'%' => add_number(second, text, at),
        b'@' => add_quoted(word, text, at),
        b'~' => add(word, text, at),
        _ => put(byte, text, at),
    }
}

pub fn fill(
    message: &[u8],
    first: usize,
    second: usize,
    word: &[u8],
    text: &mut [u8],
    at: usize,
) -> usize
    ensures { Adds text.old at (filled message.now first second word.now) text.new result }
{
    let mut end = at;
    for byte in message {
        end = add_hole(*byte, first, second, word, text, end);
    }
    end
}
