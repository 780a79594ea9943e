// Bytes added to a text. Each function answers the position after what it wrote.
ghost use Rattle.std.specs.Prelude.{[], ◌∷◌};
ghost use Rattle.messages.specs.Adding.{Adds};

pub fn put(byte: u8, text: &mut [u8], at: usize) -> usize
    ensures { Adds text.old at (byte ∷ []) text.new result }
{
    if at < text.len() {
        text[at] = byte;
        return at + 1;
    }
    at
}

pub fn add(words: &[u8], text: &mut [u8], at: usize) -> usize
    ensures { Adds text.old at words.now text.new result }
{
    let mut end = at;
    for byte in words {
        end = put(*byte, text, end);
    }
    end
}
