// What a call with an action finds: the checks of 14, 25, 24 and 12, and every rule under the action.
ghost use Rattle.board_checks.specs.Asking.{Asks};

use places::{AREA_LENGTH, Board};
use scan::{Scanned, scan};

// Why a call with an action is refused, in the order 14, 25, 24, 12.
#[derive(Clone, Copy, PartialEq, Eq)]
pub enum AskError {
    ShortArea,
    Impossible,
    EmptyBoard,
    NoAction,
}

// Looks at the area, the whole board and the action's number: why the call is refused, or what the pass over the places gives.
pub fn ask(board: Board, area: &[u8], action: usize) -> Result<Scanned, AskError>
    ensures { Asks board area.now action result }
{
    if area.len() < AREA_LENGTH {
        return Err(AskError::ShortArea);
    }
    let scanned = scan(board, area, action).ok_or(AskError::Impossible)?;
    let actions = scanned.actions.ok_or(AskError::EmptyBoard)?;
    if actions <= action {
        return Err(AskError::NoAction);
    }
    Ok(scanned)
}
