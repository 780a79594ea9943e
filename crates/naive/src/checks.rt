// Checks 1 to 7 of a sheet, in their order.
ghost use Rattle.std.specs.Prelude.{◌≡◌, ◌<◌, ◌≤◌, length, IfOk, IfErr};
ghost use Rattle.naive.specs.Nodes.{Located, check_number};

use crate::bytes::{number_at, room};
use crate::nodes::{node_at, read_node, used_of};
use crate::types::{Type, type_of};
use crate::{Areas, Check, Formula, Mode, Node, Refusal, Sheet};

impl Check {
    // Its number in docs/FORMATS.md, "Refusals".
    pub fn number(self) -> usize
        ensures { result ≡ check_number self }
    {
        match self {
            Check::Total => 1,
            Check::Counts => 2,
            Check::Lists => 3,
            Check::Kind => 4,
            Check::Fields => 5,
            Check::Types => 6,
            Check::Bound => 7,
        }
    }
}

impl Mode {
    // The number of a table's type.
    pub fn number(self) -> usize
        ensures { result < 3 }
    {
        match self {
            Mode::Enforced => 1,
            Mode::Watched => 2,
        }
    }
}

// Where the lists of a sheet are, by checks 1 to 3: they lie behind the header, inside the total and apart.
pub fn find_areas(bytes: &[u8]) -> Result<Areas, Check>
    ensures found { IfOk result (λ areas. Located bytes.now areas) }
    ensures refused { IfErr result (λ check. check_number check < 4) }
{
    let total = number_at(bytes, 8);
    if bytes.len() < 10 || total != bytes.len() {
        return Err(Check::Total);
    }
    let actions = number_at(bytes, 0);
    let nodes = number_at(bytes, 2);
    if actions == 0 || 16 < actions || nodes == 0 || 64 < nodes {
        return Err(Check::Counts);
    }
    let actions_at = number_at(bytes, 4);
    let nodes_at = number_at(bytes, 6);
    let actions_end = actions_at + 2 * actions;
    let nodes_end = nodes_at + 5 * nodes;
    let behind = 10 <= actions_at && 10 <= nodes_at;
    let inside = actions_end <= total && nodes_end <= total;
    let apart = actions_end <= nodes_at || nodes_end <= actions_at;
    if !(behind && inside && apart) {
        return Err(Check::Lists);
    }
    Ok(Areas {
        actions,
        nodes,
        actions_at,
        nodes_at,
    })
}

// Checks 4 and 5, node by node: the nodes, or the first refusal.
fn read_nodes(bytes: &[u8], areas: Areas) -> Result<[Node; 64], Refusal>
    requires { areas.nodes ≤ 64 }
    ensures { IfErr result (λ refusal. refusal.node < 64) }
{
    let mut nodes = room::<Node, 64>(Node::Formula(Formula::True));
    for n in 0..areas.nodes {
        match read_node(node_at(bytes, areas.nodes_at, n), n) {
            Ok(node) => nodes[n] = node,
            Err(check) => return Err(Refusal { check, node: n }),
        }
    }
    Ok(nodes)
}

// Checks 6 and 7, node by node, of the used nodes: the type of the last, or the first refusal.
fn last_type(nodes: &[Node]) -> Result<Type, Refusal>
    requires { length nodes.now ≤ 64 }
    ensures { IfErr result (λ refusal. refusal.node < 64) }
{
    let used = used_of(nodes);
    let mut types = room::<Type, 64>(Type::Formula);
    let mut last = Type::Formula;
    for n in 0..nodes.len() {
        if used[n] {
            match type_of(nodes[n], &types) {
                Ok(found) => last = found,
                Err(check) => return Err(Refusal { check, node: n }),
            }
            types[n] = last;
        }
    }
    Ok(last)
}

// The sheet, or the first refusal of 1 to 7.
pub fn judge(bytes: &[u8]) -> Result<Sheet, Refusal>
    ensures found { IfOk result (λ sheet. Located bytes.now sheet.areas) }
    ensures refused { IfErr result (λ refusal. refusal.node < 64) }
{
    let areas = match find_areas(bytes) {
        Ok(areas) => areas,
        Err(check) => return Err(Refusal { check, node: 0 }),
    };
    let nodes = read_nodes(bytes, areas)?;
    match last_type(&nodes[..areas.nodes])? {
        Type::Policy(mode, _) => Ok(Sheet { areas, nodes, mode }),
        Type::Formula => Err(Refusal {
            check: Check::Types,
            node: areas.nodes - 1,
        }),
    }
}
