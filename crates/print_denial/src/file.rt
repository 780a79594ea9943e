// From what is read to its answer.
use crate::list::{read_list, read_names, refuse_name, refuse_names};
use crate::sheets::answer_sheet;
use crate::texts::answer_rules;
use rule_files::{
    Span, byte_at, first_line, line_behind, read_head, refuse_long_file, say, say_refusal,
    word_behind,
};

// The bytes of the longest input.
const LONGEST_INPUT: usize = 196607;

// Room for as many words as can be read.
const MOST_WORDS: usize = 98304;

// A list asked of a rule file.
fn answer_rule_file(rt: &impl Print, line: &[u8], file: &[u8]) {
    if 65535 < file.len() {
        refuse_long_file(rt);
        return;
    }
    let mut sets = [0u16; 16];
    let Some(count) = read_head(rt, file, &mut sets) else {
        return;
    };
    let names = first_line(file);
    let mut room: [u8; MOST_WORDS] = base::room(0);
    let list = read_list(line, names, &mut room);
    answer_rules(rt, file, &sets[..count], line, list, names);
}

// Whether so many names, not none, are given for a sheet with another number of actions. Of a sheet without 1 to 16 actions nothing is said.
fn miscounted(names: usize, sheet: &[u8]) -> bool {
    let actions = byte_at(sheet, 0);
    0 < names && names != actions && matches!(actions, 1..=16)
}

// A list asked of a sheet. The names of its actions are given.
fn answer_sheet_file(rt: &impl Print, line: &[u8], names: &[u8], sheet: &[u8]) {
    match read_names(names) {
        Err(wrong) => refuse_name(rt, wrong),
        Ok(count) if miscounted(count, sheet) => refuse_names(rt, count, byte_at(sheet, 0)),
        Ok(_) => {
            let mut room: [u8; MOST_WORDS] = base::room(0);
            let list = read_list(line, names, &mut room);
            answer_sheet(rt, sheet, line, list, names);
        }
    }
}

// A list, of which this is the line, and what follows that line.
fn answer_behind(rt: &impl Print, line: &[u8], file: &[u8]) {
    let first = first_line(file);
    let Span { from, to } = word_behind(first, 0);
    if &first[from..to] == b"sheet".as_slice() {
        answer_sheet_file(rt, line, &first[to..], &file[line_behind(file, 0)..]);
    } else {
        answer_rule_file(rt, line, file);
    }
}

// Prints the answer to what is read.
pub(crate) fn answer(rt: &impl Print, input: &[u8]) {
    if LONGEST_INPUT < input.len() {
        say_refusal(rt, 31, 0);
        say(
            rt,
            b"the input has more than 196607 bytes: ask of fewer actions, or of a shorter rule\n",
        );
        return;
    }
    answer_behind(rt, first_line(input), &input[line_behind(input, 0)..]);
}
