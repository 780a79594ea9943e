// Standard input and output by bytes, and the buffers for them. A read or a write that fails ends what was asked as the end of the input does, and is no error.
#![tactic(auto)]

ghost use Rattle.std.specs.Prelude.{◌≡◌, ◌≤◌, length};
ghost use Rattle.standard_streams.specs.Counts.{IsPrefixLen};

use std::io::Read;

// 65,536 zeros.
pub fn large_buffer() -> [u8; 65536]
    ensures { 65536 ≡ length result }
{
    [0; 65536]
}

// Reads once, and answers how many bytes it put at the start of buf: none where the input ends or the read fails.
fn read_some(input: &mut impl Read, buf: &mut [u8]) -> usize
    ensures bound { result ≤ length buf.old }
    ensures length { length buf.new ≡ length buf.old }
{
    input.read(buf).unwrap_or(0)
}

// Reads standard input until buf is full, the input ends or a read fails, and answers how many bytes it put at the start of buf. On an empty buf it reads nothing.
pub fn read_full(rt: &impl Input, buf: &mut [u8]) -> usize
    ensures { IsPrefixLen result buf.new }
{
    let mut input = rt.reader();
    let mut done = 0;
    while done < buf.len() {
        let count = read_some(&mut input, &mut buf[done..]);
        if count == 0 {
            break;
        }
        done += count;
    }
    done
}

// Writes all of words to standard output, or stops at the first write that fails. Answers whether all were written.
pub fn write_all(rt: &impl Print, words: &[u8]) -> bool {
    rt.write_all(words).is_ok()
}

// Writes a number to standard output, in decimal digits.
pub fn print_decimal(rt: &impl Print, number: u64) -> bool {
    rt.print(number).is_ok()
}

// Writes a number to standard output, in at least two hex digits.
pub fn print_hex(rt: &impl Print, number: u64) -> bool {
    print!(rt; "{number:02x}").is_ok()
}

// Writes text to standard error. Answers whether all of it was written.
pub fn write_error(rt: &impl Eprint, words: &str) -> bool {
    rt.eprint(words).is_ok()
}
