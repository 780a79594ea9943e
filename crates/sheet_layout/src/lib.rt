// The header of a sheet and where its areas lie: checks 1 to 3.
#![tactic(auto)]

ghost use Rattle.std.specs.Prelude.{◌≡◌, ◌<◌, length};
ghost use Rattle.sheet_layout.specs.Layout.{length_right, counts_right, areas_right, layout_of};

use base::word;
use syntax::Fault;

// Where a sheet's areas are: how many actions and nodes it has, and where they are listed.
#[derive(Clone, Copy)]
pub struct Layout {
    pub actions: usize,
    pub nodes: usize,
    pub actions_at: usize,
    pub nodes_at: usize,
}

// Check 1.
fn length_right(bytes: &[u8]) -> bool
    ensures { result ≡ length_right bytes.now }
{
    10 <= bytes.len() && word(bytes, 8) == bytes.len()
}

// Check 2.
fn counts_right(bytes: &[u8]) -> bool
    requires { 9 < length bytes.now }
    ensures { result ≡ counts_right bytes.now }
{
    let actions = word(bytes, 0);
    let nodes = word(bytes, 2);
    (1..=16).contains(&actions) && (1..=64).contains(&nodes)
}

// Check 3.
fn areas_right(bytes: &[u8]) -> bool
    requires { 9 < length bytes.now }
    ensures { result ≡ areas_right bytes.now }
{
    let actions_at = word(bytes, 4);
    let actions_end = actions_at + 2 * word(bytes, 0);
    let nodes_at = word(bytes, 6);
    let nodes_end = nodes_at + 5 * word(bytes, 2);
    let total = word(bytes, 8);
    let behind = 10 <= actions_at && 10 <= nodes_at;
    let inside = actions_end <= total && nodes_end <= total;
    let apart = actions_end <= nodes_at || nodes_end <= actions_at;
    behind && inside && apart
}

// Where the areas are, or the first fault.
pub fn find_layout(bytes: &[u8]) -> Result<Layout, Fault>
    ensures { result ≡ layout_of bytes.now }
{
    if !length_right(bytes) {
        return Err(Fault::Length);
    }
    if !counts_right(bytes) {
        return Err(Fault::Counts);
    }
    if !areas_right(bytes) {
        return Err(Fault::Areas);
    }
    Ok(Layout {
        actions: word(bytes, 0),
        nodes: word(bytes, 2),
        actions_at: word(bytes, 4),
        nodes_at: word(bytes, 6),
    })
}
