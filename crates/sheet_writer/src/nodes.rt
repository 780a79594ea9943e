// Nodes written one after the other, before it is known whether there will be a sheet.
ghost use Rattle.std.specs.Prelude.{◌≡◌, length};
ghost use Rattle.sheet_writer.specs.Bytes.{five_bytes, node_room};
ghost use Rattle.sheet_writer.specs.Kinds.{five_fields};
ghost use Rattle.sheet_writer.specs.Writing.{WroteOne};

use crate::{Fields, NODE_ROOM};

impl Fields {
    // The fields as bytes.
    fn bytes(self) -> [u8; 5]
        ensures { result ≡ five_bytes (five_fields self) }
    {
        [self.kind, self.argument, self.a, self.b, self.c]
    }
}

// Writes the fields of a node after the first `count`, where there is room.
pub fn add_node(fields: Fields, count: usize, nodes: &mut [u8; NODE_ROOM])
    requires { length nodes.old ≡ node_room }
    ensures { WroteOne (five_bytes (five_fields fields)) count nodes.old nodes.new }
{
    if count < 64 {
        let at = 5 * count;
        nodes[at..at + 5].copy_from_slice(&fields.bytes());
    }
}
