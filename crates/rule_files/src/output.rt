// Writing to standard output.
pub fn say(rt: &impl Print, words: &[u8]) {
    standard_streams::write_all(rt, words);
}

pub fn say_number(rt: &impl Print, n: usize) {
    standard_streams::print_decimal(rt, n as u64);
}

// The line of a refusal, as print_table has it.
pub fn say_refusal(rt: &impl Print, number: usize, spot: usize) {
    let mut text = printing::room();
    let printed = printing::print_refusal(number, spot, &mut text);
    say(rt, printing::written(printed, &text));
}

// A byte of a word, in hex digits where it cannot be seen.
fn say_byte(rt: &impl Print, byte: u8) {
    if matches!(byte, 32..=126) {
        say(rt, &[byte]);
        return;
    }
    say(rt, b"\\x");
    standard_streams::print_hex(rt, u64::from(byte));
}

// A word in quotes, cut after 40 bytes.
pub fn say_word(rt: &impl Print, word: &[u8]) {
    say(rt, b"\"");
    for byte in word.iter().take(40) {
        say_byte(rt, *byte);
    }
    if 40 < word.len() {
        say(rt, b"..");
    }
    say(rt, b"\"");
}
