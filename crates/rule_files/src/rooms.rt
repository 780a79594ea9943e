ghost use Rattle.std.specs.Prelude.{◌≤◌, length};

// The first bytes of an area, as many as there are.
pub fn front(bytes: &[u8], count: usize) -> &[u8]
    ensures { length result.now ≤ length bytes.now }
{
    &bytes[..count.min(bytes.len())]
}
