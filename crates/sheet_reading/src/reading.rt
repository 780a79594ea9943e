// Reading the action list and the nodes of a sheet.
ghost use Rattle.std.specs.Prelude.{◌≡◌, ◌<◌};
ghost use Rattle.sheet_layout.specs.Layout.{actions_at, nodes_at, Inside};
ghost use Rattle.sheet_reading.specs.Reading.{read_nodes, read_actions};

use crate::nodes::read_node;
use crate::{NodesRead, judged_at};
use syntax::Node;

// The propositions of each action. The list stands at `from`.
pub fn read_actions(bytes: &[u8], from: usize, actions: usize) -> [u16; 16]
    requires inside { Inside bytes.now from 2 actions 16 }
    requires from_value { 0 < actions → from ≡ actions_at bytes.now }
    ensures { result ≡ read_actions bytes.now actions }
{
    let mut propositions = [0u16; 16];
    for a in 0..actions {
        let at = from + 2 * a;
        propositions[a] = u16::from_le_bytes([bytes[at], bytes[at + 1]]);
    }
    propositions
}

// The nodes one by one, up to the first that fails check 4 or 5. They stand at `from`.
pub fn read_nodes(bytes: &[u8], from: usize, count: usize) -> NodesRead
    requires inside { Inside bytes.now from 5 count 64 }
    requires from_value { 0 < count → from ≡ nodes_at bytes.now }
    ensures { result ≡ read_nodes bytes.now count }
{
    let mut nodes = [Node::True; 64];
    for n in 0..count {
        let read = read_node(bytes, from + 5 * n, n);
        let Ok(node) = read else {
            return NodesRead {
                judged: judged_at(read, n),
                nodes,
            };
        };
        nodes[n] = node;
    }
    NodesRead {
        judged: Ok(()),
        nodes,
    }
}
