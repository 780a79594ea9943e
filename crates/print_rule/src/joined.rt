// Several rules as one table.
use crate::rule::{TABLE_ROOM, tell_idle};
use joining::JoinError;
use rule_files::{Place, say, say_number, say_refusal, tell_watched};

// 8 and 9: how the joined table grows too large.
fn tell_grown(rt: &impl Print, rules: usize, grown: &[u8]) {
    say(rt, b"joined, the ");
    say_number(rt, rules);
    say(rt, grown);
    say(
        rt,
        b": join fewer of them, and put the others on a second place\n",
    );
}

// What is refused of so many tables. The first watched rule is told.
fn refuse_join(rt: &impl Print, error: JoinError, rules: usize, watched: Option<Place>) {
    match error {
        JoinError::ShortArea => say_refusal(rt, 14, 0),
        JoinError::WrongCount => say_refusal(rt, 2, 0),
        JoinError::Malformed => say_refusal(rt, 10, 0),
        JoinError::NotCanonical => say_refusal(rt, 11, 0),
        JoinError::WatchedTable => {
            say_refusal(rt, 34, 0);
            if let Some(watched) = watched {
                tell_watched(
                    rt,
                    watched,
                    b", and is not joined: put it into a file and on a place of its own\n",
                );
            }
        }
        JoinError::OtherActions => say_refusal(rt, 23, 0),
        JoinError::TooManyValues => {
            say_refusal(rt, 8, 0);
            tell_grown(rt, rules, b" rules remember more than 1024 values");
        }
        JoinError::TooManyRows => {
            say_refusal(rt, 9, 0);
            tell_grown(rt, rules, b" rules need more than 64 rows");
        }
    }
}

// Joins so many tables, and prints the answer.
pub(crate) fn answer_joined(
    rt: &(impl Print + Eprint),
    rules: usize,
    tables: &[u8],
    watched: Option<Place>,
) {
    let mut table: [u8; TABLE_ROOM] = base::room(0);
    let mut work: [u8; 65536] = base::room(0);
    let mut values: [u64; 1024] = base::room(0);
    match joining::join(rules, tables, &mut table, &mut work, &mut values) {
        Ok(header) => {
            let entries = &table[8..];
            let mut text = printing::room();
            let printed = printing::print_table(
                header.mode,
                header.actions,
                header.rows,
                entries,
                &mut text,
            );
            say(rt, printing::written(printed, &text));
            tell_idle(rt, false, entries);
        }
        Err(error) => refuse_join(rt, error, rules, watched),
    }
}
