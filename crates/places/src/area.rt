// The bytes of a place in the area.
ghost use Rattle.std.specs.Prelude.{◌≡◌, ◌≤◌, ◌<◌, length};
ghost use Rattle.places.specs.Layout.{place_count, place_length, start_of, Within, place_bytes, with_bytes};

use crate::PLACE_LENGTH;
use base::copy;

// Where the part of a place starts in the area.
fn start_of(place: usize) -> usize
    requires { place < place_count }
    ensures { result ≡ start_of place }
{
    place * PLACE_LENGTH
}

// The bytes of a place.
pub fn place_bytes(area: &[u8], place: usize) -> &[u8]
    requires { Within area.now place }
    ensures { result.now ≡ place_bytes area.now place }
{
    let from = start_of(place);
    &area[from..from + PLACE_LENGTH]
}

// Writes bytes to the front of a place, and zeros after them.
pub fn write_place(area: &mut [u8], place: usize, bytes: &[u8])
    requires within { Within area.old place }
    requires bytes_len_bound { length bytes.now ≤ place_length }
    ensures { area.new ≡ with_bytes area.old place bytes.now }
{
    let from = start_of(place);
    let part = &mut area[from..from + PLACE_LENGTH];
    copy(bytes, part);
    part[bytes.len()..].fill(0);
}
