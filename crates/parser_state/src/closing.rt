// A whole after its parts.
ghost use Rattle.std.specs.Prelude.{◌≡◌};
ghost use Rattle.sheet_writer.specs.Bytes.{five_bytes};
ghost use Rattle.sheet_writer.specs.Kinds.{kind_number};
ghost use Rattle.parser_state.specs.Packed.{progress_of};
ghost use Rattle.parser_state.specs.Progress.{root_of, Closable, Closes};

use crate::Progress;
use crate::steps::{ONE_NODE, unpack};
use sheet_writer::{Fields, Kind, NODE_ROOM, add_node};

// A byte is below this.
const BYTE: usize = 256;

// The number of the last node before a position.
fn root(p: u64) -> u8
    ensures { result ≡ root_of (progress_of p) }
{
    match unpack(p) {
        Progress::Going { nodes, .. } => ((nodes % BYTE + (BYTE - 1)) % BYTE) as u8,
        Progress::Stuck { .. } => 0,
    }
}

// Adds a node: it is written while there is room, and counted always.
fn close(p: u64, kind: Kind, argument: u8, a: u8, b: u8, c: u8, out: &mut [u8; NODE_ROOM]) -> u64
    requires { Closable (progress_of p) out.old }
    ensures { Closes (five_bytes (kind_number kind, argument, a, b, c)) out.old out.new (progress_of p) (progress_of result) }
{
    let Progress::Going { nodes, .. } = unpack(p) else {
        return p;
    };
    let fields = Fields {
        kind: u8::from(kind),
        argument,
        a,
        b,
        c,
    };
    add_node(fields, nodes, out);
    p + ONE_NODE
}

// Closes a node without parts.
pub fn close_leaf(kind: Kind, argument: u8, p: u64, out: &mut [u8; NODE_ROOM]) -> u64
    requires { Closable (progress_of p) out.old }
    ensures { Closes (five_bytes (kind_number kind, argument, 0, 0, 0)) out.old out.new (progress_of p) (progress_of result) }
{
    close(p, kind, argument, 0, 0, 0, out)
}

// Closes a node over one part, the last that was read.
pub fn close_one(kind: Kind, a: u64, out: &mut [u8; NODE_ROOM]) -> u64
    requires { Closable (progress_of a) out.old }
    ensures { Closes (five_bytes (kind_number kind, 0, root_of (progress_of a), 0, 0)) out.old out.new (progress_of a) (progress_of result) }
{
    close(a, kind, 0, root(a), 0, 0, out)
}

// Closes a node over two parts.
pub fn close_two(kind: Kind, a: u64, b: u64, out: &mut [u8; NODE_ROOM]) -> u64
    requires { Closable (progress_of b) out.old }
    ensures { Closes (five_bytes (kind_number kind, 0, root_of (progress_of a), root_of (progress_of b), 0)) out.old out.new (progress_of b) (progress_of result) }
{
    close(b, kind, 0, root(a), root(b), 0, out)
}

// Closes a node over three parts.
pub fn close_three(
    kind: Kind,
    argument: u8,
    a: u64,
    b: u64,
    c: u64,
    out: &mut [u8; NODE_ROOM],
) -> u64
    requires { Closable (progress_of c) out.old }
    ensures { Closes (five_bytes (kind_number kind, argument, root_of (progress_of a), root_of (progress_of b), root_of (progress_of c))) out.old out.new (progress_of c) (progress_of result) }
{
    close(c, kind, argument, root(a), root(b), root(c), out)
}
