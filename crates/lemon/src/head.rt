// The first line of a rule file: its action list.
use crate::told::{tell, tell_number, tell_refused, tell_wrong_action};
use action_lists::{ListError, read_actions};
use catalogue::Message;
use fields::front;
use positions::word_of;
use told_messages::following;

// The actions of a file: the set of each.
#[derive(Clone, Copy)]
pub(crate) struct Actions {
    sets: [u16; 16],
    count: usize,
}

impl Actions {
    pub(crate) fn sets(&self) -> &[u16] {
        front(&self.sets, self.count)
    }
}

// Why a line is no action list.
fn tell_error(rt: &HostRuntime, line: &[u8], error: ListError) {
    match error {
        ListError::Nothing => {
            tell_number(rt, Message::NoActions, 0, 0);
            tell_number(rt, Message::ActionForm, 0, 0);
        }
        ListError::TooMany => tell_number(rt, Message::ManyActions, 0, 0),
        ListError::WrongAt(number) => {
            tell_wrong_action(rt, following(number), word_of(line, number));
        }
        ListError::DoubledAt(number) => tell(
            rt,
            Message::DoubledAction,
            following(number),
            0,
            word_of(line, number),
        ),
    }
}

// Reads the action list of a line. Tells why where the line is refused.
pub(crate) fn read_head(rt: &HostRuntime, line: &[u8]) -> Option<Actions> {
    let mut sets = [0u16; 16];
    match read_actions(line, &mut sets) {
        Ok(count) => Some(Actions { sets, count }),
        Err(error) => {
            tell_refused(rt, 2, 0);
            tell_error(rt, line, error);
            None
        }
    }
}

// 31, of a file.
pub(crate) fn refuse_long_file(rt: &HostRuntime) {
    tell_refused(rt, 31, 0);
    tell_number(rt, Message::LongFile, 0, 0);
}
