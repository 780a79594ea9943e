// What a call that names a place finds there: the checks of 14, 13 and 25, and whether the place is taken.
ghost use Rattle.board_checks.specs.Targets.{Looks};

use places::{AREA_LENGTH, Board, PLACES};
use scan::scan;

// Why a call that names a place is refused, in the order 14, 13, 25.
#[derive(Clone, Copy, PartialEq, Eq)]
pub enum TargetError {
    ShortArea,
    NoPlace,
    Impossible,
}

// The place that it names else: taken, or empty on a board whose rules are over so many actions, none where no rule is on.
#[derive(Clone, Copy)]
pub enum Target {
    Taken,
    Empty(Option<usize>),
}

// Looks at the area, the place's number, the whole board, and then the place.
pub fn look_at(board: Board, area: &[u8], place: usize) -> Result<Target, TargetError>
    ensures { Looks board area.now place result }
{
    if area.len() < AREA_LENGTH {
        return Err(TargetError::ShortArea);
    }
    if PLACES <= place {
        return Err(TargetError::NoPlace);
    }
    let scanned = scan(board, area, 0).ok_or(TargetError::Impossible)?;
    if board.case_at(place).taken() {
        return Ok(Target::Taken);
    }
    Ok(Target::Empty(scanned.actions))
}
