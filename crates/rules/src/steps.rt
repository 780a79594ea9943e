// The step of a rule, by what the rule is. A value is taken apart into bytes, the parts are moved, and the next value is put together.
ghost use Rattle.std.specs.Prelude.{◌≡◌, ◌+◌, ◌≤◌, ◌<◌};
ghost use Rattle.base.specs.Sets.{bit};
ghost use Rattle.trace.specs.Trace.{after};
ghost use Rattle.policy.specs.Closed.{Below};
ghost use Rattle.policy.specs.Rule.{opening-r, count-r};
ghost use Rattle.policy.specs.Value.{go_with};
ghost use Rattle.rules.specs.Codes.{byte_up, missed_from, byte_move};
ghost use Rattle.rules.specs.Rules.{part_at, move_of, Readable, Steppable};
ghost use Rattle.rules.specs.Steps.{code_step, code_step_of, code_start};

use crate::parts::{entry_at, part_move};
use crate::{NodeRule, PartRows};

// A value is put together from bytes (specs/Codes.antt): one further up counts 256 times as much. It stays one number of 64 bits for every
// kind, since the theorems of specs/Codes.antt and specs/Steps.antt are about that number, and a list of values is fixed memory.
const BYTE: u64 = 256;
// A part that has tripped, in a byte; and two of them.
const TRIPPED: u64 = 255;

const BOTH_TRIPPED: u64 = 65535;
// Before: a is fulfilled. It is no pair of rows.
const RELEASED: u64 = 65535;
// After: the mark above the row of b. Fulfilling: the marks above the row of b and of c.
const MARKED: u64 = 256;

const KEPT: u64 = 65536;

const MISSED: u64 = 131072;

// Whether an action is in a set.
fn in_set(set: u16, action: usize) -> bool
    requires { action < 16 }
    ensures { result ≡ bit set action }
{
    (set >> action) % 2 == 1
}

fn opening_step(set: u16, value: u64, action: usize) -> Option<u64>
    requires { action < 16 }
    ensures { move_of result ≡ code_step_of (opening-r (bit set)) value action }
{
    if value == 0 && in_set(set, action) {
        return None;
    }
    Some(1)
}

fn count_step(k: u8, value: u64, action: usize) -> Option<u64>
    ensures { move_of result ≡ code_step_of (count-r k) value action }
{
    let sofar = value % BYTE + 1;
    if sofar < u64::from(k) {
        Some(sofar)
    } else {
        None
    }
}

// The value before any action.
pub fn start(rule: NodeRule, work: &[u8], actions: usize) -> u64
    ensures { result ≡ code_start actions work.now rule }
{
    match rule {
        NodeRule::Copied(_) => 1,
        NodeRule::Fulfilling(k, ..) => { if k == 0 { MISSED } else { 0 } }
        _ => 0,
    }
}

impl PartRows<'_> {
    // Where an action leads from a row that a byte names: to a row below 64, or a trip.
    fn row_move(self, i: u8, row: u64, action: usize) -> Option<u64>
        requires { Readable self.work.now i × (action < self.actions) × (row < byte_up) }
        ensures { (move_of result ≡ part_at self.entry.actions self.entry.work.now i row action) × Below 64 (move_of result) }
    {
        part_move(self.work, self.actions, i, row as usize, action)
    }

    // A part's row or trip behind an action, as a byte: a part that has tripped stays so.
    fn byte_after(self, i: u8, byte: u64, action: usize) -> u8
        requires { (i < 64) × (action < self.actions) × (byte < byte_up) }
        ensures { byte_move result ≡ after (byte_move byte) (λ q. part_at self.entry.actions self.entry.work.now i q action) }
    {
        if byte == TRIPPED {
            return 255;
        }
        entry_at(self.work, i, byte as usize * self.actions + action)
    }

    fn both_step(self, i: u8, j: u8, value: u64, action: usize) -> Option<u64>
        requires { Steppable self.work.now (NodeRule.Both i j) × (action < self.actions) }
        ensures { move_of result ≡ code_step self.entry.actions self.entry.work.now (NodeRule.Both i j) value action }
    {
        let left = u64::from(self.byte_after(i, value / BYTE % BYTE, action));
        let right = u64::from(self.byte_after(j, value % BYTE, action));
        let pair = left * BYTE + right;
        if pair == BOTH_TRIPPED {
            None
        } else {
            Some(pair)
        }
    }

    fn either_step(self, i: u8, j: u8, value: u64, action: usize) -> Option<u64>
        requires { Steppable self.work.now (NodeRule.Either i j) × (action < self.actions) }
        ensures { move_of result ≡ code_step self.entry.actions self.entry.work.now (NodeRule.Either i j) value action }
    {
        let left = u64::from(self.byte_after(i, value / BYTE % BYTE, action));
        let right = u64::from(self.byte_after(j, value % BYTE, action));
        if left == TRIPPED || right == TRIPPED {
            return None;
        }
        Some(left * BYTE + right)
    }

    // b is judged on the very action that fulfils a, and only then released.
    fn before_step(self, i: u8, j: u8, value: u64, action: usize) -> Option<u64>
        requires { Steppable self.work.now (NodeRule.Before i j) × (action < self.actions) }
        ensures { move_of result ≡ code_step self.entry.actions self.entry.work.now (NodeRule.Before i j) value action }
    {
        if value == RELEASED {
            return Some(RELEASED);
        }
        let r = self.row_move(j, value % BYTE, action)?;
        match self.row_move(i, value / BYTE % BYTE, action) {
            None => Some(RELEASED),
            Some(q) => Some(q * BYTE + r),
        }
    }

    // A part's row under a mark, behind the action.
    fn marked_move(self, i: u8, mark: u64, row: u64, action: usize) -> Option<u64>
        requires { Readable self.work.now i × (action < self.actions) × (mark ≤ missed_from) × (row < byte_up) }
        ensures { move_of result ≡ go_with (λ q. mark + q) (part_at self.entry.actions self.entry.work.now i row action) }
    {
        Some(mark + self.row_move(i, row, action)?)
    }

    // b starts on the action after the one that fulfils a, and does not read that one.
    fn after_step(self, i: u8, j: u8, value: u64, action: usize) -> Option<u64>
        requires { Steppable self.work.now (NodeRule.After i j) × (action < self.actions) }
        ensures { move_of result ≡ code_step self.entry.actions self.entry.work.now (NodeRule.After i j) value action }
    {
        let row = value % BYTE;
        if value / BYTE % BYTE != 0 {
            return self.marked_move(j, MARKED, row, action);
        }
        Some(self.row_move(i, row, action).unwrap_or(MARKED))
    }

    fn fulfilling_step(self, k: u8, i: u8, j: u8, l: u8, value: u64, action: usize) -> Option<u64>
        requires { Steppable self.work.now (NodeRule.Fulfilling k i j l) × (action < self.actions) }
        ensures { move_of result ≡ code_step self.entry.actions self.entry.work.now (NodeRule.Fulfilling k i j l) value action }
    {
        let low = value % BYTE;
        let phase = value / KEPT % BYTE;
        if phase == 1 {
            return self.marked_move(j, KEPT, low, action);
        }
        if phase != 0 {
            return self.marked_move(l, MISSED, low, action);
        }
        let Some(q) = self.row_move(i, value / BYTE % BYTE, action) else {
            return Some(KEPT);
        };
        let sofar = low + 1;
        if u64::from(k) <= sofar {
            Some(MISSED)
        } else {
            Some(q * BYTE + sofar)
        }
    }

    fn ignoring_step(self, set: u16, i: u8, value: u64, action: usize) -> Option<u64>
        requires { Steppable self.work.now (NodeRule.Ignoring set i) × (action < self.actions) }
        ensures { move_of result ≡ code_step self.entry.actions self.entry.work.now (NodeRule.Ignoring set i) value action }
    {
        let row = value % BYTE;
        if in_set(set, action) {
            return Some(row);
        }
        self.row_move(i, row, action)
    }

    // Where an action leads from a remembered value.
    pub fn step(self, rule: NodeRule, value: u64, action: usize) -> Option<u64>
        requires { Steppable self.work.now rule × (action < self.actions) }
        ensures { move_of result ≡ code_step self.entry.actions self.entry.work.now rule value action }
    {
        match rule {
            NodeRule::Opening(set) => opening_step(set, value, action),
            NodeRule::Count(k) => count_step(k, value, action),
            NodeRule::Same(i) => self.row_move(i, value % BYTE, action),
            NodeRule::Both(i, j) => self.both_step(i, j, value, action),
            NodeRule::Either(i, j) => self.either_step(i, j, value, action),
            NodeRule::Copied(i) => self.move_copies(i, value, action),
            NodeRule::Before(i, j) => self.before_step(i, j, value, action),
            NodeRule::After(i, j) => self.after_step(i, j, value, action),
            NodeRule::Fulfilling(k, i, j, l) => self.fulfilling_step(k, i, j, l, value, action),
            NodeRule::Ignoring(set, i) => self.ignoring_step(set, i, value, action),
        }
    }
}
