// Bytes as numbers, and arrays. Nothing is read or written past the end.
ghost use Rattle.std.specs.Prelude.{◌≡◌, ◌<◌, ◌%◌, get_or, length, set};
ghost use Rattle.naive.specs.Bytes.{sheet_word};

// Byte i, or 0 past the end.
pub fn at(bytes: &[u8], i: usize) -> usize
    ensures { (result ≡ get_or bytes.now i 0) × (result < 256) }
{
    usize::from(bytes.get(i).copied().unwrap_or(0))
}

// The 16-bit number at i, low byte first.
pub fn number_at(bytes: &[u8], i: usize) -> usize
    ensures { (result ≡ sheet_word bytes.now i) × (result < 65536) }
{
    if i < bytes.len() {
        at(bytes, i) + 256 * at(bytes, i + 1)
    } else {
        0
    }
}

// Byte i becomes the number's low byte, where i is inside.
pub fn put(bytes: &mut [u8], i: usize, number: usize)
    ensures { bytes.new ≡ set bytes.old i (number % 256) }
{
    if i < bytes.len() {
        bytes[i] = (number % 256) as u8;
    }
}

// An array of one value, of which a proof knows only the length.
pub fn room<T: Copy, const N: usize>(value: T) -> [T; N]
    ensures { length result ≡ N }
{
    [value; N]
}
