// A new board, putting a table on it, and taking one off.
ghost use Rattle.std.specs.Prelude.{◌≡◌};
ghost use Rattle.table.specs.Answer.{mode_number};
ghost use Rattle.view.specs.Moves.{first_case};
ghost use Rattle.view.specs.Steps.{put_on, take-off};
ghost use Rattle.view.specs.Calls.{Calls, Makes};
ghost use Rattle.board.specs.Replies.{made_reply, put_reply, take_reply};

use crate::errors::{MakeError, PutError, TakeError};
use board_checks::{Target, look_at};
use places::{AREA_LENGTH, Board, Case, write_place};
use scan::admits;
use trace::Mode;

// An empty board and a zeroed area. The board is given also where the area is too short.
pub fn new_board(area: &mut [u8]) -> (Board, Result<(), MakeError>)
    ensures { Makes area.old (made_reply result.1) result.0 area.new }
{
    let board = Board::empty();
    if area.len() < AREA_LENGTH {
        return (board, Err(MakeError::ShortArea));
    }
    area[..AREA_LENGTH].fill(0);
    (board, Ok(()))
}

// The case that a table starts in, by its type.
fn first_case(mode: Mode) -> Case
    ensures { result ≡ first_case (mode_number mode) }
{
    match mode {
        Mode::Enforced => Case::Enforced(0),
        Mode::Watched => Case::Watched(0),
    }
}

// Loads a table and puts it on an empty place, at row 0.
pub fn put_on(
    board: &mut Board,
    area: &mut [u8],
    place: usize,
    table: &[u8],
) -> Result<(), PutError>
    ensures { Calls board.old area.old (put_on place table.now) (put_reply result) board.new area.new }
{
    let Target::Empty(known) = look_at(*board, area, place)? else {
        return Err(PutError::Taken);
    };
    let header = loader::load(table)?;
    if !admits(known, header.actions) {
        return Err(PutError::OtherActions);
    }
    write_place(area, place, table);
    *board = board.with_case(place, first_case(header.mode));
    Ok(())
}

// Takes a table off: empties its place.
pub fn take_off(board: &mut Board, area: &mut [u8], place: usize) -> Result<(), TakeError>
    ensures { Calls board.old area.old (take-off place) (take_reply result) board.new area.new }
{
    let Target::Taken = look_at(*board, area, place)? else {
        return Err(TakeError::EmptyPlace);
    };
    write_place(area, place, &[]);
    *board = board.with_case(place, Case::Empty);
    Ok(())
}
