// Arguments and files.
ghost use Rattle.std.specs.Prelude.{◌≡◌, ◌≤◌, length, IfSome};

use crate::told::warn;
use catalogue::Message;
use fields::front;
use std::io::Read;
use std::{env, fs, str};

// A file that was read: how many bytes its name has, and how many it has.
#[derive(Clone, Copy)]
pub(crate) struct FileRead {
    pub named: usize,
    pub length: usize,
}

fn is_standard_input(name: &[u8]) -> bool {
    name.is_empty() || name == b"-".as_slice()
}

// The words of the command, with its own name; none where they cannot be had.
pub(crate) fn argument_count(rt: &HostRuntime) -> usize {
    match env::args(rt) {
        Ok(words) => words.count(),
        Err(_) => 0,
    }
}

// A word put at the front, and its length: 0 where it does not fit.
fn put_word(word: &[u8], to: &mut [u8]) -> usize
    ensures bound { result ≤ length to.old }
    ensures long { length to.new ≡ length to.old }
{
    if word.len() > to.len() {
        return 0;
    }
    to[..word.len()].copy_from_slice(word);
    word.len()
}

// A word of the command by its number, put at the front, and its length: 0 where there is none or it does not fit.
pub(crate) fn argument(rt: &HostRuntime, number: usize, to: &mut [u8]) -> usize
    ensures bound { result ≤ length to.old }
    ensures long { length to.new ≡ length to.old }
{
    match env::args(rt) {
        Ok(mut words) => match words.nth(number) {
            Some(word) => put_word(word.as_bytes(), to),
            None => 0,
        },
        Err(_) => 0,
    }
}

// Reads until `to` is full, the input ends or a read fails, and answers how many bytes it put at the front; none where the first read fails.
fn read_from(input: &mut impl Read, to: &mut [u8]) -> Option<usize>
    ensures bound { IfSome result (λ n. n ≤ length to.old) }
    ensures long { length to.new ≡ length to.old }
{
    let mut length = 0;
    while length < to.len() {
        match input.read(&mut to[length..]) {
            Ok(0) => break,
            Ok(count) => length += count,
            Err(_) => {
                if length == 0 {
                    return None;
                }
                break;
            }
        }
    }
    Some(length)
}

// Reads a file of this name to the front of `file`, and answers its length.
fn read_named(rt: &HostRuntime, name: &[u8], file: &mut [u8]) -> Option<usize> {
    let path = str::from_utf8(name).ok()?;
    let mut opened = fs::open(rt, path).ok()?;
    read_from(&mut opened, file)
}

// The same, or standard input where the name is `-` or is not there. Tells where the file cannot be read.
fn read_file(rt: &HostRuntime, name: &[u8], file: &mut [u8]) -> Option<usize> {
    if is_standard_input(name) {
        return Some(standard_streams::read_full(rt, file));
    }
    let read = read_named(rt, name, file);
    if read.is_none() {
        warn(rt, Message::NoSuchFile, 0, name);
    }
    read
}

// Reads the file that an argument names, and keeps the name.
pub(crate) fn read_argument(
    rt: &HostRuntime,
    number: usize,
    name: &mut [u8],
    file: &mut [u8],
) -> Option<FileRead> {
    let named = argument(rt, number, name);
    let length = read_file(rt, front(name, named), file)?;
    Some(FileRead { named, length })
}
