// Tables: the bytes of a minimal deterministic monitor, the checks on them and what they mean. Definitions and laws; the code of the checks stands in
// the crates above.
#![tactic(auto)]

ghost use Rattle.std.specs.Prelude.{◌≡◌};
ghost use Rattle.base.specs.Build.{Decides};
ghost use Rattle.table.specs.Answer.{mode_number};

use trace::Mode;

// The largest table: 64 rows over 16 actions behind its header.
pub const LARGEST_TABLE: usize = 1032;

// What a table's header says, with its fields in their ranges.
#[derive(Clone, Copy)]
pub struct Header {
    pub mode: Mode,
    pub actions: usize,
    pub rows: usize,
}

// Why the loader turns bytes down: refusal 10 or 11.
#[derive(Clone, Copy, PartialEq, Eq)]
pub enum LoadError {
    Malformed,
    NotCanonical,
}

// The type's number in a table's header. No `From<Mode> for u8`: the crate of `Mode` knows no numbers, the definition `mode_number` is this one's.
pub fn mode_number(mode: Mode) -> u8
    ensures { result ≡ mode_number mode }
{
    match mode {
        Mode::Enforced => 1,
        Mode::Watched => 2,
    }
}

// Whether a type is that of watched tables.
pub fn is_watched(mode: Mode) -> bool
    ensures { Decides (mode_number mode ≡ 2) result }
{
    mode == Mode::Watched
}
