// One pass over the places: check 25, each rule's next case under an action, and the places that deny it and that it fulfils.
ghost use Rattle.std.specs.Prelude.{◌≡◌, cond, ◌<◌, ◌^◌};
ghost use Rattle.places.specs.Layout.{place_count, LongEnough};
ghost use Rattle.view.specs.View.{view_of};
ghost use Rattle.scan.specs.Scans.{ScanGives};

use crate::survey::{admits, see};
use place_steps::step;
use places::{Board, Case, PLACES, Place, place_bytes};

// What the pass gives of a board that can be: over how many actions its rules are (none: no rule is on), the places in their next cases, and the two
// sets of places, as bits.
#[derive(Clone, Copy)]
pub struct Scanned {
    pub actions: Option<usize>,
    pub places: [Place; PLACES],
    pub denying: u8,
    pub fulfilled: u8,
}

// A place in a set of places, where it is to be in.
fn bit(on: bool, place: usize) -> u8
    requires { place < place_count }
    ensures { result ≡ cond on (2 ^ place) 0 }
{
    if on { 1u8 << place } else { 0 }
}

// All places, from the lowest; none: the board cannot be.
pub fn scan(board: Board, area: &[u8], action: usize) -> Option<Scanned>
    requires { LongEnough area.now }
    ensures { ScanGives (view_of board area.now) action result }
{
    let mut actions = None;
    let mut places = [Place { case: Case::Empty }; PLACES];
    let mut denying = 0u8;
    let mut fulfilled = 0u8;
    let old = board.places;
    for i in 0..PLACES {
        let case = old[i].case;
        if case.taken() {
            let read = see(case, place_bytes(area, i), action)?;
            if !admits(actions, read.actions) {
                return None;
            }
            let stepped = step(case, read.entry);
            actions = Some(read.actions);
            places[i] = Place { case: stepped.next };
            denying += bit(stepped.denies, i);
            fulfilled += bit(stepped.fulfilled, i);
        }
    }
    Some(Scanned {
        actions,
        places,
        denying,
        fulfilled,
    })
}
