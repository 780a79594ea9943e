// The fields of a node, read from the bytes of a sheet.
ghost use Rattle.std.specs.Prelude.{◌≡◌, ◌<◌, get_or};
ghost use Rattle.sheet_layout.specs.Layout.{field, node_count};

// Byte i as a number, 0 past the end.
pub fn byte_at(bytes: &[u8], i: usize) -> usize
    ensures { (result ≡ get_or bytes.now i 0) × (result < 256) }
{
    if i < bytes.len() {
        usize::from(bytes[i])
    } else {
        0
    }
}

// Field k of a node: 0 its kind, 1 its argument, 2 to 4 its parts. A node so high that its fields are past the end has zeroes.
pub fn node_field(sheet: &[u8], node: usize, k: usize) -> usize
    requires { k < 5 }
    ensures { result ≡ field sheet.now node k }
{
    if sheet.len() / 5 < node {
        return 0;
    }
    let nodes_at = byte_at(sheet, 6) + 256 * byte_at(sheet, 7);
    byte_at(sheet, nodes_at + 5 * node + k)
}

// How many nodes the header says there are.
pub fn node_count(sheet: &[u8]) -> usize
    ensures { (result ≡ node_count sheet.now) × (result < 65536) }
{
    byte_at(sheet, 2) + 256 * byte_at(sheet, 3)
}
