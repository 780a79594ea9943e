// From a file to its answer.
ghost use Rattle.std.specs.Prelude.{◌≤◌, length};

use crate::joined::answer_joined;
use crate::rule::{TABLE_ROOM, answer_text};
use rule_files::{
    first_line, first_watched, front, line_behind, part_from, read_head, refuse_long_file,
    say_refusal, tell_rules,
};

// Room for eight tables.
const TABLES_ROOM: usize = 8 * TABLE_ROOM;

// Answers the rules of a file one after the other, each with its table after that of the one before, and where there are several joins them.
fn answer_rules(rt: &(impl Print + Eprint), file: &[u8], actions: &[u16])
    requires { length file.now ≤ 65535 }
{
    let mut tables: [u8; TABLES_ROOM] = base::room(0);
    let mut watched = None;
    let mut end = 0;
    let mut from = line_behind(file, 0);
    for number in 1..=8usize {
        let part = part_from(file, from, number);
        let list = first_line(file);
        let Some(length) = answer_text(rt, part.rule, actions, list, &mut tables[end..]) else {
            return;
        };
        watched = first_watched(watched, tables[end] == 2, part.rule);
        end += length;
        if part.last {
            if 1 < number {
                answer_joined(rt, number, front(&tables, end), watched);
            }
            return;
        }
        from = line_behind(file, part.to);
    }
    say_refusal(rt, 2, 0);
    tell_rules(rt);
}

// Prints the answer to a file.
pub(crate) fn answer(rt: &(impl Print + Eprint), file: &[u8]) {
    if 65535 < file.len() {
        refuse_long_file(rt);
        return;
    }
    let mut sets = [0u16; 16];
    if let Some(count) = read_head(rt, file, &mut sets) {
        answer_rules(rt, file, &sets[..count]);
    }
}
