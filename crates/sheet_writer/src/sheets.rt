// A sheet at the front of an output: the action list directly after the header, the nodes directly after that.
ghost use Rattle.std.specs.Prelude.{◌≡◌, ◌≤◌, ◌<◌, ◌+◌, ◌*◌, length};
ghost use Rattle.std.proofs.lemmas.List.Edits.{sets};
ghost use Rattle.sheet_writer.specs.Bytes.{header_bytes, action_bytes};
ghost use Rattle.sheet_writer.specs.Writing.{SheetRoom, WritesSheet};

use base::put_word;

// Writes the header: the counts, the offsets of the two lists, the total.
fn write_header(actions: usize, count: usize, out: &mut [u8])
    requires { (actions ≤ 16) × (count ≤ 64) × (9 < length out.old) }
    ensures { out.new ≡ sets out.old 0 (header_bytes actions count) }
{
    let nodes_at = 10 + 2 * actions;
    put_word(out, 0, actions);
    put_word(out, 2, count);
    put_word(out, 4, 10);
    put_word(out, 6, nodes_at);
    put_word(out, 8, nodes_at + 5 * count);
}

// Writes the action list from a place on.
fn write_actions(actions: &[u16], out: &mut [u8], from: usize)
    requires { from + 2 * length actions.now ≤ length out.old }
    ensures { out.new ≡ sets out.old from (action_bytes actions.now (length actions.now)) }
{
    for (a, propositions) in actions.iter().enumerate() {
        put_word(out, from + 2 * a, usize::from(*propositions));
    }
}

// Writes the sheet of an action list and of nodes that are known by their bytes to the front of `out`; gives its length. What stands after it stays.
pub fn write_sheet(actions: &[u16], count: usize, nodes: &[u8], out: &mut [u8]) -> usize
    requires { SheetRoom actions.now count nodes.now out.old }
    ensures { WritesSheet actions.now count nodes.now out.old result out.new }
{
    let nodes_at = 10 + 2 * actions.len();
    let size = nodes_at + 5 * count;
    write_header(actions.len(), count, out);
    write_actions(actions, out, 10);
    out[nodes_at..size].copy_from_slice(&nodes[..5 * count]);
    size
}
