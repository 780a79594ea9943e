// A word in quotes, as a message shows it.
ghost use Rattle.std.specs.Prelude.{◌≡◌, [], ◌∷◌, ◌<◌, ◌/◌, ◌%◌, take};
ghost use Rattle.messages.specs.Adding.{Adds};
ghost use Rattle.messages.specs.Message.{hexadecimal as hexadecimal_of, shown as shown_as, all_shown, quoted};

use crate::writing::put;

fn hexadecimal(n: u8) -> u8
    requires { n < 16 }
    ensures { result ≡ hexadecimal_of n }
{
    if n < 10 { b'0' + n } else { b'a' - 10 + n }
}

fn add_code(byte: u8, text: &mut [u8], at: usize) -> usize
    ensures { Adds text.old at (92 ∷ 120 ∷ hexadecimal_of (byte / 16) ∷ hexadecimal_of (byte % 16) ∷ []) text.new result }
{
    let mark = put(b'\\', text, at);
    let first = put(b'x', text, mark);
    let second = put(hexadecimal(byte / 16), text, first);
    put(hexadecimal(byte % 16), text, second)
}

fn add_shown(byte: u8, text: &mut [u8], at: usize) -> usize
    ensures { Adds text.old at (shown_as byte) text.new result }
{
    if (b' '..=b'~').contains(&byte) {
        return put(byte, text, at);
    }
    add_code(byte, text, at)
}

fn add_all_shown(word: &[u8], text: &mut [u8], at: usize) -> usize
    ensures { Adds text.old at (all_shown word.now) text.new result }
{
    let mut end = at;
    for byte in word {
        end = add_shown(*byte, text, end);
    }
    end
}

// The first 40 bytes of a word.
#[tactic(auto, using(std::proofs::lemmas::List::take_min))]
fn first_forty(word: &[u8]) -> &[u8]
    ensures { result.now ≡ take 40 word.now }
{
    let end = usize::min(40, word.len());
    &word[..end]
}

pub fn add_quoted(word: &[u8], text: &mut [u8], at: usize) -> usize
    ensures { Adds text.old at (quoted word.now) text.new result }
{
    let open = put(b'"', text, at);
    let end = add_all_shown(first_forty(word), text, open);
    if 40 < word.len() {
        let dot = put(b'.', text, end);
        let dots = put(b'.', text, dot);
        return put(b'"', text, dots);
    }
    put(b'"', text, end)
}
