// Numbers in bytes. Past the end stand zeros.
ghost use Rattle.std.specs.Prelude.{◌≡◌, ◌+◌, ◌*◌, ◌<◌, slice_index};
ghost use Rattle.corpus.specs.Numbers.{corpus_word};

// Byte i, or 0 past the end.
pub fn byte_at(bytes: &[u8], i: usize) -> u8
    ensures { result ≡ slice_index bytes.now i }
{
    bytes.get(i).copied().unwrap_or(0)
}

// The same as a number.
pub fn at(bytes: &[u8], i: usize) -> usize
    ensures { (result ≡ slice_index bytes.now i) × (result < 256) }
{
    usize::from(byte_at(bytes, i))
}

// The 16-bit number at i, low byte first.
pub fn number_at(bytes: &[u8], i: usize) -> usize
    requires { i < 65536 }
    ensures { (result ≡ corpus_word bytes.now i) × (result < 65536) }
{
    at(bytes, i) + 256 * at(bytes, i + 1)
}

// An answer of the calls for C: four fields of 16 bits, lowest first. The corpus has a byte for each.
pub fn answer_at(bytes: &[u8]) -> usize
    ensures { result ≡ slice_index bytes.now 0 + 65536 * slice_index bytes.now 1 + 4294967296 * slice_index bytes.now 2 + 281474976710656 * slice_index bytes.now 3 }
{
    let low = at(bytes, 0) + 65536 * at(bytes, 1);
    low + 4294967296 * at(bytes, 2) + 281474976710656 * at(bytes, 3)
}

// The same where the corpus has all eight bytes of an answer.
pub fn long_answer_at(bytes: &[u8]) -> usize
    ensures { result ≡ corpus_word bytes.now 0 + 65536 * corpus_word bytes.now 2 + 4294967296 * corpus_word bytes.now 4 + 281474976710656 * corpus_word bytes.now 6 }
{
    let low = number_at(bytes, 0) + 65536 * number_at(bytes, 2);
    low + 4294967296 * number_at(bytes, 4) + 281474976710656 * number_at(bytes, 6)
}
