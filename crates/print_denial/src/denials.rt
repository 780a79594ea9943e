// What is asked, and how a denial is told.
use crate::list::say_name;
use explaining::{Denial, ExplainError};
use rule_files::{byte_at, following, kind_of, say, say_kind, say_number, say_part};

// Explains with areas of its own.
pub(crate) fn ask(sheet: &[u8], list: &[u8]) -> Result<Option<Denial>, ExplainError> {
    let mut place: [u64; 1] = base::room(0);
    let mut work: [u8; 65536] = base::room(0);
    let mut values: [u64; 1024] = base::room(0);
    explaining::explain(sheet, list, &mut place, &mut work, &mut values)
}

// No action of a list of so many is denied.
pub(crate) fn tell_permitted(rt: &impl Print, count: usize) {
    say(rt, b"permitted\nthe list has ");
    say_number(rt, count);
    if count == 1 {
        say(rt, b" action");
    } else {
        say(rt, b" actions");
    }
    say(rt, b", and none is denied\n");
}

// The denied action, and where it stands in the list.
pub(crate) fn tell_denied(rt: &impl Print, list: &[u8], names: &[u8], denial: Denial) {
    let Denial { place, node } = denial;
    let action = byte_at(list, place);
    say(rt, b"denied ");
    say_number(rt, place);
    say(rt, b" ");
    say_number(rt, node);
    say(rt, b"\naction ");
    say_number(rt, action);
    say_name(rt, names, action, b" (", b")");
    say(rt, b" is denied: word ");
    say_number(rt, following(place));
    say(rt, b" of the list, place ");
    say_number(rt, place);
    say(rt, b" counted from 0\n");
}

// The node that denies.
pub(crate) fn say_denier(rt: &impl Print, sheet: &[u8], node: usize) {
    say(rt, b"node ");
    say_number(rt, node);
    say(rt, b" (");
    say_kind(rt, kind_of(sheet, node));
    say(rt, b") denies it: ");
}

// Its words.
pub(crate) fn say_quoted(rt: &impl Print, sheet: &[u8], node: usize) {
    say(rt, b"\"");
    say_part(rt, sheet, node);
    say(rt, b"\"\n");
}
