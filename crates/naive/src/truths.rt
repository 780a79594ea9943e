// Truths are kept in a lent area of 64 times 2,048: at 2,048 * n + s stands whether node n is satisfied by the sequence numbered s, or, for an action
// formula, by the action s.
ghost use Rattle.std.specs.Prelude.{◌≡◌, length};
ghost use Rattle.naive.specs.Sequences.{number_to};
ghost use Rattle.naive.specs.Truths.{truth_at, kept};

use crate::sequences::number_of;

// How many truths there are.
pub const TRUTHS: usize = 131072;

// The truths found so far, for sequences of so many actions.
#[derive(Clone, Copy)]
pub struct Truths<'a> {
    pub kept: &'a [bool],
    pub actions: usize,
}

impl Truths<'_> {
    // Whether node n is satisfied by the sequence, or the action, numbered s.
    pub fn holds(self, n: usize, s: usize) -> bool
        ensures { result ≡ truth_at self.entry.kept.now n s }
    {
        if 63 < n {
            return false;
        }
        if 2047 < s {
            return false;
        }
        self.kept.get(2048 * n + s).copied().unwrap_or(false)
    }

    // Whether a sequence satisfies node n.
    pub fn satisfies(self, n: usize, sequence: &[u8]) -> bool
        ensures { result ≡ truth_at self.entry.kept.now n (number_to sequence.now self.entry.actions (length sequence.now)) }
    {
        self.holds(n, number_of(sequence, self.actions))
    }
}

// Keeps a truth.
pub fn keep(truths: &mut [bool], n: usize, s: usize, holds: bool)
    ensures { truths.new ≡ kept truths.old n s holds }
{
    if 63 < n {
        return;
    }
    if 2047 < s {
        return;
    }
    let place = 2048 * n + s;
    if place < truths.len() {
        truths[place] = holds;
    }
}
