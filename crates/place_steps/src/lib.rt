// What an action does to the rule on a place: its next case, whether it denies the action, and whether the action fulfils it.
#![tactic(auto)]

ghost use Rattle.std.specs.Prelude.{◌≡◌};
ghost use Rattle.view.specs.Moves.{watched_move};
ghost use Rattle.place_steps.specs.Moving.{MovesBy};

use places::Case;

// A rule under an action: its next case, whether it denies the action, and whether the action fulfils it.
#[derive(Clone, Copy)]
pub struct Stepped {
    pub next: Case,
    pub denies: bool,
    pub fulfilled: bool,
}

// A watched rule that trips is fulfilled.
fn watched_move(entry: u8) -> Case
    ensures { result ≡ watched_move entry }
{
    if entry == 255 {
        Case::Fulfilled
    } else {
        Case::Watched(entry)
    }
}

// A rule under an action, by the entry in its row. A fulfilled rule stays so.
pub fn step(case: Case, entry: u8) -> Stepped
    ensures { MovesBy case entry result.next result.denies result.fulfilled }
{
    let trips = entry == 255;
    let stays = Stepped {
        next: case,
        denies: false,
        fulfilled: false,
    };
    match case {
        Case::Empty => stays,
        Case::Enforced(_) => Stepped {
            next: Case::Enforced(entry),
            denies: trips,
            ..stays
        },
        Case::Watched(_) => Stepped {
            next: watched_move(entry),
            fulfilled: trips,
            ..stays
        },
        Case::Fulfilled => stays,
    }
}
