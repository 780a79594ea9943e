// The calls. Each reads the board from its bytes, makes the call that it wraps, and writes the board back where the answer changes it.
ghost use Rattle.std.specs.Prelude.{◌≡◌, cond, ◌≤◌, length};
ghost use Rattle.records.specs.Record.{record_length, written};
ghost use Rattle.view.specs.Steps.{put_on, take-off, act};
ghost use Rattle.lemondarts.specs.Exports.{LoadReturns, NewBoardReturns, CallReturns};

use answers::load_number;
use board_answers::{NumberedReply, act_answer, made_answer, put_answer, take_answer};
use places::Board;
use records::{RECORD, read_board, write_board};

// Writes the board back where the answer changes it, and returns the answer's number.
fn write_back(bytes: &mut [u8], board: Board, answer: NumberedReply) -> u64
    requires { record_length ≤ length bytes.old }
    ensures { (result ≡ answer.number) × (bytes.new ≡ cond answer.changes (written board bytes.old) bytes.old) }
{
    if answer.changes {
        write_board(bytes, board);
    }
    answer.number
}

// Loads a table: its type, actions and rows, or refusal 10 or 11.
pub fn lemondarts_load(table: &[u8]) -> u64
    ensures { LoadReturns table.now result }
{
    load_number(loader::load(table))
}

// Makes a new board.
pub fn lemondarts_new_board(bytes: &mut [u8], area: &mut [u8]) -> u64
    ensures { NewBoardReturns bytes.old area.old result bytes.new area.new }
{
    if bytes.len() < RECORD {
        return 14;
    }
    let (board, made) = board::new_board(area);
    write_back(bytes, board, made_answer(made))
}

// Puts a table on a place.
pub fn lemondarts_put_on(bytes: &mut [u8], area: &mut [u8], place: usize, table: &[u8]) -> u64
    ensures { CallReturns bytes.old area.old (put_on place table.now) result bytes.new area.new }
{
    if bytes.len() < RECORD {
        return 14;
    }
    let mut board = read_board(bytes);
    let put = board::put_on(&mut board, area, place, table);
    write_back(bytes, board, put_answer(put))
}

// Takes a table off its place.
pub fn lemondarts_take_off(bytes: &mut [u8], area: &mut [u8], place: usize) -> u64
    ensures { CallReturns bytes.old area.old (take-off place) result bytes.new area.new }
{
    if bytes.len() < RECORD {
        return 14;
    }
    let mut board = read_board(bytes);
    let taken = board::take_off(&mut board, area, place);
    write_back(bytes, board, take_answer(taken))
}

// Permits or denies an action. The area is only read.
pub fn lemondarts_action(bytes: &mut [u8], area: &[u8], action: usize) -> u64
    ensures { CallReturns bytes.old area.now (act action) result bytes.new area.now }
{
    if bytes.len() < RECORD {
        return 14;
    }
    let mut board = read_board(bytes);
    let acted = board_actions::action(&mut board, area, action);
    write_back(bytes, board, act_answer(acted))
}
