// The calls of the board that read an action: denied by the lowest place that denies it, or permitted, with every rule moved.
#![tactic(auto)]

ghost use Rattle.std.specs.Prelude.{◌≡◌, ◌<◌};
ghost use Rattle.base.specs.Sets.{LowestIn};
ghost use Rattle.view.specs.Steps.{act};
ghost use Rattle.view.specs.Calls.{Calls};
ghost use Rattle.board_actions.specs.Replies.{act_reply};

pub use board_checks::AskError;
use board_checks::ask;
use places::Board;

// What a call answers where its checks pass: permitted, with the set of the places that the action fulfils, as bits, or denied by a place.
// specs/Replies.antt gives the number and values of docs/FORMATS.md, "Refusals", for each answer.
#[derive(Clone, Copy, PartialEq, Eq)]
pub enum Verdict {
    Permitted(u8),
    Denied(usize),
}

// The lowest place of a set that has one.
fn lowest(set: u8) -> usize
    ensures { 0 < set → LowestIn set result }
{
    set.trailing_zeros() as usize
}

// Permits or denies an action. A denied action moves no rule.
pub fn action(board: &mut Board, area: &[u8], action: usize) -> Result<Verdict, AskError>
    ensures { Calls board.old area.now (act action) (act_reply result) board.new area.now }
{
    let heard = ask(*board, area, action)?;
    if heard.denying != 0 {
        return Ok(Verdict::Denied(lowest(heard.denying)));
    }
    *board = board.with_places(heard.places);
    Ok(Verdict::Permitted(heard.fulfilled))
}
