// Several rules as one table.
use crate::compiling::Made;
use crate::tables::print_table;
use crate::told::{tell_number, tell_of_rule, tell_refused};
use base::room;
use catalogue::Message;
use fields::front;
use joining::JoinError;
use limits::{NUMBERS_LENGTH, WORK_LENGTH};
use table::LARGEST_TABLE;

// Why tables are not joined.
fn tell_error(rt: &HostRuntime, error: JoinError, made: Made) {
    match error {
        JoinError::ShortArea => tell_refused(rt, 14, 0),
        JoinError::WrongCount => tell_refused(rt, 2, 0),
        JoinError::Malformed => tell_refused(rt, 10, 0),
        JoinError::NotCanonical => tell_refused(rt, 11, 0),
        JoinError::OtherActions => tell_refused(rt, 23, 0),
        JoinError::WatchedTable => {
            tell_refused(rt, 34, 0);
            if let Some(watched) = made.watched {
                tell_of_rule(rt, watched.rule, Message::WatchedJoined, watched.line, 0);
            }
        }
        JoinError::TooManyValues => {
            tell_refused(rt, 8, 0);
            tell_number(rt, Message::JoinedValues, made.count, 0);
        }
        JoinError::TooManyRows => {
            tell_refused(rt, 9, 0);
            tell_number(rt, Message::JoinedRows, made.count, 0);
        }
    }
}

// Joins the tables that are made, and prints the answer.
fn print_joined(rt: &HostRuntime, made: Made, tables: &[u8]) {
    let mut table = room::<u8, LARGEST_TABLE>(0);
    let mut work = room::<u8, WORK_LENGTH>(0);
    let mut values = room::<u64, NUMBERS_LENGTH>(0);
    match joining::join(made.count, tables, &mut table, &mut work, &mut values) {
        Ok(_) => print_table(rt, &table),
        Err(error) => tell_error(rt, error, made),
    }
}

// Prints what is made: the only table, or all of them joined.
pub(crate) fn print_made(rt: &HostRuntime, made: Made, tables: &[u8]) {
    let written = front(tables, made.end);
    if made.count == 1 {
        print_table(rt, written);
    } else {
        print_joined(rt, made, written);
    }
}
