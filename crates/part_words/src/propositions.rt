// Propositions that a rule names and no action has: what it says of them is about nothing that happens.
ghost use Rattle.std.specs.Prelude.{◌≡◌, ◌&&◌, not, ◌<◌};
ghost use Rattle.base.specs.Sets.{bit};
ghost use Rattle.part_words.specs.Propositions.{is_named, named_below, some_has, is_unheld};

use crate::reading::node_field;
use sheet_writer::Kind;

// Whether a node is this proposition.
fn is_proposition(sheet: &[u8], node: usize, p: usize) -> bool
    ensures { result ≡ is_named sheet.now node p }
{
    node_field(sheet, node, 0) == Kind::Proposition as usize && node_field(sheet, node, 1) == p
}

// Whether one of the 64 nodes that a sheet can have is this proposition.
fn is_named(sheet: &[u8], p: usize) -> bool
    ensures { result ≡ named_below sheet.now p 64 }
{
    let mut found = false;
    for node in 0..64 {
        found |= is_proposition(sheet, node, p);
    }
    found
}

// Whether a proposition is in a set.
fn is_in(set: u16, p: usize) -> bool
    requires { p < 16 }
    ensures { result ≡ bit set p }
{
    (set >> p) % 2 == 1
}

// Whether some action has a proposition.
fn some_has(actions: &[u16], p: usize) -> bool
    requires { p < 16 }
    ensures { result ≡ some_has actions.now p }
{
    actions.iter().any(|set| is_in(*set, p))
}

// Whether the rule names a proposition that no action has.
pub fn unheld(sheet: &[u8], actions: &[u16], p: usize) -> bool
    requires { p < 16 }
    ensures { result ≡ is_unheld sheet.now actions.now p }
{
    is_named(sheet, p) && !some_has(actions, p)
}
