// What each word of the command does.
ghost use Rattle.std.specs.Prelude.{◌≡◌, length};

use crate::compiling::{Made, compile_to, make_file, open_file};
use crate::denials::{explain_file, refuse_sheet};
use crate::files::{argument, argument_count, read_argument};
use crate::head::Actions;
use crate::joined::print_made;
use crate::rooms::TABLES_LENGTH;
use crate::tables::print_table;
use crate::told::{tell, tell_number, warn, warn_number};
use base::room;
use catalogue::Message;
use compiler::CompileError;
use fields::front;
use rule_lines::is_sheet;
use table::LARGEST_TABLE;

// A command that is wrong: what is, and what there is.
fn refuse_command(rt: &HostRuntime, message: Message, word: &[u8]) {
    warn(rt, message, 0, word);
    warn_number(rt, Message::Help, 0);
}

// Compiles a sheet, and prints its table or what is refused.
fn compile_sheet(rt: &HostRuntime, sheet: &[u8]) {
    let mut table = room::<u8, LARGEST_TABLE>(0);
    match compile_to(sheet, &mut table) {
        Err(CompileError::Refused(refusal)) => refuse_sheet(rt, refusal.number(), refusal.spot()),
        _ => print_table(rt, &table),
    }
}

// Compiles the rules of a rule file, and prints their table or what is refused.
fn compile_rules(rt: &HostRuntime, file: &[u8]) {
    let Some(actions) = open_file(rt, file) else {
        return;
    };
    let mut tables = room::<u8, TABLES_LENGTH>(0);
    if let Some(made) = make_file(rt, file, actions.sets(), &mut tables, Made::nothing()) {
        print_made(rt, made, &tables);
    }
}

fn compile_file(rt: &HostRuntime, file: &[u8]) {
    if is_sheet(file) {
        compile_sheet(rt, file);
    } else {
        compile_rules(rt, file);
    }
}

fn compile(rt: &HostRuntime) {
    if 3 < argument_count(rt) {
        refuse_command(rt, Message::OneFile, b"");
        return;
    }
    let mut name = [0u8; 4096];
    let mut area = standard_streams::large_buffer();
    if let Some(read) = read_argument(rt, 2, &mut name, &mut area) {
        compile_file(rt, front(&area, read.length));
    }
}

// Whether a file has the actions of the first file; those of the first file are kept.
fn agree(first: &mut Option<Actions>, actions: Actions) -> bool {
    match *first {
        Some(known) => known.sets() == actions.sets(),
        None => {
            *first = Some(actions);
            true
        }
    }
}

// Makes the tables of one file more, after those that are made. Tells why where the file is refused.
fn join_file(
    rt: &HostRuntime,
    name: &[u8],
    file: &[u8],
    first: &mut Option<Actions>,
    tables: &mut [u8],
    made: Made,
) -> Option<Made>
    requires { 8256 ≡ length tables.old }
{
    if is_sheet(file) {
        refuse_command(rt, Message::JoinedSheet, name);
        return None;
    }
    let Some(actions) = open_file(rt, file) else {
        tell(rt, Message::InFile, 0, 0, name);
        return None;
    };
    if !agree(first, actions) {
        refuse_command(rt, Message::OtherActions, name);
        return None;
    }
    let next = make_file(rt, file, actions.sets(), tables, made);
    if next.is_none() {
        tell(rt, Message::InFile, 0, 0, name);
    }
    next
}

// The file that an argument names.
fn join_argument(
    rt: &HostRuntime,
    number: usize,
    first: &mut Option<Actions>,
    tables: &mut [u8],
    made: Made,
) -> Option<Made>
    requires { 8256 ≡ length tables.old }
{
    let mut name = [0u8; 4096];
    let mut area = standard_streams::large_buffer();
    let read = read_argument(rt, number, &mut name, &mut area)?;
    join_file(
        rt,
        front(&name, read.named),
        front(&area, read.length),
        first,
        tables,
        made,
    )
}

fn join(rt: &HostRuntime) {
    let arguments = argument_count(rt);
    if arguments < 3 {
        refuse_command(rt, Message::SomeFiles, b"");
        return;
    }
    let mut first = None;
    let mut tables = room::<u8, TABLES_LENGTH>(0);
    let mut made = Made::nothing();
    for number in 2..arguments {
        let Some(next) = join_argument(rt, number, &mut first, &mut tables, made) else {
            return;
        };
        made = next;
    }
    print_made(rt, made, &tables);
}

// Adds an argument to a line of words, and answers the line's end. One that is empty or too long is no action.
fn add_argument(rt: &HostRuntime, number: usize, line: &mut [u8], end: usize) -> usize {
    let mut word = [0u8; 4096];
    let length = argument(rt, number, &mut word);
    let next = messages::put(b' ', line, end);
    if length == 0 {
        return messages::put(b'?', line, next);
    }
    messages::add(&word[..length], line, next)
}

// The arguments from the third on as a line of words, or standard input where there are none.
fn read_line(rt: &HostRuntime, arguments: usize, line: &mut [u8]) -> usize {
    if arguments == 3 {
        return standard_streams::read_full(rt, line);
    }
    let mut end = 0;
    for number in 3..arguments {
        end = add_argument(rt, number, line, end);
    }
    end
}

fn explain_asked(rt: &HostRuntime, arguments: usize, file: &[u8]) {
    let mut line = standard_streams::large_buffer();
    let length = read_line(rt, arguments, &mut line);
    explain_file(rt, file, front(&line, length));
}

fn explain(rt: &HostRuntime) {
    let arguments = argument_count(rt);
    if arguments < 3 {
        refuse_command(rt, Message::SomeFile, b"");
        return;
    }
    let mut name = [0u8; 4096];
    let mut area = standard_streams::large_buffer();
    if let Some(read) = read_argument(rt, 2, &mut name, &mut area) {
        explain_asked(rt, arguments, front(&area, read.length));
    }
}

// Does what the word says.
pub(crate) fn run(rt: &HostRuntime, word: &[u8]) {
    match word {
        b"" | b"help" => tell_number(rt, Message::Help, 0, 0),
        b"compile" => compile(rt),
        b"join" => join(rt),
        b"explain" => explain(rt),
        _ => refuse_command(rt, Message::NoSuchWord, word),
    }
}
