// The sheet of nodes that are listed in the order of a text: each before its parts. On the sheet it stands behind them.
ghost use Rattle.std.specs.Prelude.{◌≡◌, ◌≤◌, ◌<◌, length};

use crate::Listed;
use naive::{at, put, room};

// How many nodes are below node n, which has so many parts: these and those below them. The first part stands behind it, the next behind all below that.
fn count_below(parts: u8, n: usize, below: &[u8]) -> usize
    requires { n < 64 }
{
    let mut count = 0;
    for _part in 0..usize::from(parts) {
        count += 1 + at(below, n + 1 + count);
    }
    count
}

// How many nodes are below each, from the last.
fn count_all(nodes: &[Listed], below: &mut [u8])
    requires { length nodes.now ≤ 64 }
{
    for n in (0..nodes.len()).rev() {
        put(below, n, count_below(nodes[n].parts, n, below));
    }
}

// Writes the fields of node n. As many nodes as `first` says stand before all that are below it; so it is said of each part how many stand before
// those below that.
fn write_node(node: Listed, n: usize, below: &[u8], first: &mut [u8], list: &mut [u8])
    requires { n < 64 }
{
    let start = at(first, n);
    let to = 5 * (start + at(below, n));
    put(list, to, usize::from(node.kind));
    put(list, to + 1, usize::from(node.argument));
    let mut done = 0;
    for part in 0..usize::from(node.parts) {
        let next = n + 1 + done;
        let inside = at(below, next);
        put(first, next, start + done);
        put(list, to + 2 + part, start + done + inside);
        done += 1 + inside;
    }
}

// Writes the node list.
fn write_nodes(nodes: &[Listed], list: &mut [u8])
    requires { length nodes.now ≤ 64 }
{
    let mut below = room::<u8, 64>(0);
    let mut first = room::<u8, 64>(0);
    count_all(nodes, &mut below);
    for (n, node) in nodes.iter().enumerate() {
        write_node(*node, n, &below, &mut first, list);
    }
}

// Copies the front of some bytes.
fn copy(bytes: &[u8], count: usize, to: &mut [u8], start: usize)
    requires { (count ≤ 65535) × (start ≤ 65535) }
{
    for i in 0..count {
        put(to, start + i, at(bytes, i));
    }
}

// Writes a number of 16 bits.
fn put_number(bytes: &mut [u8], i: usize, number: usize)
    requires { i ≤ 65535 }
{
    put(bytes, i, number);
    put(bytes, i + 1, number / 256);
}

// Writes the header.
fn write_header(listed: usize, count: usize, nodes_at: usize, sheet: &mut [u8])
    requires { (count ≤ 64) × (nodes_at ≤ 42) }
{
    put_number(sheet, 0, listed);
    put_number(sheet, 2, count);
    put_number(sheet, 4, 10);
    put_number(sheet, 6, nodes_at);
    put_number(sheet, 8, nodes_at + 5 * count);
}

// Writes the sheet: the header, the actions, two bytes each, and the nodes.
pub fn write_sheet(actions: &[u8], listed: usize, nodes: &[Listed], sheet: &mut [u8])
    requires { (listed ≤ 16) × (length nodes.now ≤ 64) }
    ensures { length sheet.new ≡ length sheet.old }
{
    let nodes_at = 10 + 2 * listed;
    let mut list = room::<u8, 320>(0);
    write_nodes(nodes, &mut list);
    write_header(listed, nodes.len(), nodes_at, sheet);
    copy(actions, 2 * listed, sheet, 10);
    copy(&list, 5 * nodes.len(), sheet, nodes_at);
}
