// Reading a list of actions through the rows of nodes, as they stand in the work area.
ghost use Rattle.base.specs.Build.{Decides};
ghost use Rattle.trace.specs.Trace.{Sequence};
ghost use Rattle.rules.specs.Rules.{part_at};
ghost use Rattle.explaining.specs.Reading.{Walkable, FirstTrip, Namable, LowestTrips};

use rules::{PartRows, part_move};

// Whether every number of a list is an action.
pub fn all_actions(list: &[u8], actions: usize) -> bool
    ensures { Decides (Sequence actions list.now) result }
{
    list.iter().all(|action| usize::from(*action) < actions)
}

// The place of the first action that trips a node's rows, if any does.
pub fn first_trip(parts: PartRows, node: u8, list: &[u8]) -> Option<usize>
    requires { Walkable parts.work.now node parts.actions list.now }
    ensures { FirstTrip (part_at parts.entry.actions parts.entry.work.now node) list.now result }
{
    let mut row = 0;
    for (place, action) in list.iter().enumerate() {
        let Some(next) = part_move(parts.work, parts.actions, node, row, usize::from(*action))
        else {
            return Some(place);
        };
        row = next as usize;
    }
    None
}

// The lowest node of a set whose rows the list trips, the last node where none of the others does.
pub fn lowest_tripped(parts: PartRows, set: u64, last: u8, list: &[u8]) -> u8
    requires { Namable parts.work.now set last parts.actions list.now }
    ensures { LowestTrips parts.entry.work.now set last parts.entry.actions list.now result }
{
    for n in 0..last {
        if (set >> n) % 2 == 1 && first_trip(parts, n, list).is_some() {
            return n;
        }
    }
    last
}
