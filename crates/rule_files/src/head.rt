// The first line of a rule file.
ghost use Rattle.std.specs.Prelude.{◌≤◌, IfSome};

use crate::actions::read_actions;
use crate::refusals::{refuse_action, refuse_actions};
use crate::words::first_line;

// Reads the action list of a rule file, keeps the sets of the actions that there is room for at the front of `sets`, and answers how many actions there
// are, 1 to 16; tells what is refused of it.
pub fn read_head(rt: &impl Print, file: &[u8], sets: &mut [u16]) -> Option<usize>
    ensures { IfSome result (λ n. (1 ≤ n) × (n ≤ 16)) }
{
    match read_actions(first_line(file), sets) {
        Err(wrong) => {
            refuse_action(rt, wrong);
            None
        }
        Ok(count @ 1..=16) => Some(count),
        Ok(count) => {
            refuse_actions(rt, count);
            None
        }
    }
}
