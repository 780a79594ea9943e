// Reading a sheet whose areas are found: its action list, and its nodes by checks 4 and 5.
#![tactic(auto)]

ghost use Rattle.std.specs.Prelude.{◌≡◌};
ghost use Rattle.sheet_reading.specs.Reading.{read_fault, judged_at};

use syntax::{Fault, Node};

mod nodes;
mod reading;

pub use reading::{read_actions, read_nodes};

// Why five bytes are no node: check 4 fails, since no kind has that number, or check 5, as a part, the argument or an unused field is wrong.
#[derive(Clone, Copy)]
pub enum NodeError {
    UnknownKind,
    WrongField,
}

impl NodeError {
    // The fault of a node that cannot be read.
    fn at(self, node: usize) -> Fault
        ensures { result ≡ read_fault self node }
    {
        match self {
            NodeError::UnknownKind => Fault::UnknownKindAt(node),
            NodeError::WrongField => Fault::WrongFieldAt(node),
        }
    }
}

// The fault of a node that was read, if it has one.
fn judged_at(read: Result<Node, NodeError>, node: usize) -> Result<(), Fault>
    ensures { result ≡ judged_at read node }
{
    match read {
        Ok(_) => Ok(()),
        Err(error) => Err(error.at(node)),
    }
}

// The nodes that pass checks 4 and 5, up to the first that does not, and its fault.
#[derive(Clone, Copy)]
pub struct NodesRead {
    pub judged: Result<(), Fault>,
    pub nodes: [Node; 64],
}
