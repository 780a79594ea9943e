// Checks 6 and 7 of the used nodes of a sheet, one by one.
#![tactic(auto)]

ghost use Rattle.std.specs.Prelude.{◌≡◌, ◌≤◌};
ghost use Rattle.typing.specs.Typed.{type_nodes, typed_nodes};

use syntax::{Node, NodeType, TypedNodes, type_node};

// The types of the used ones among the first `count` nodes; or the first fault among them, and the types of those before it.
pub fn type_nodes(used: u64, nodes: [Node; 64], count: usize) -> TypedNodes
    requires { count ≤ 64 }
    ensures { result ≡ typed_nodes (type_nodes used nodes count) }
{
    let mut types = [NodeType::Unused; 64];
    for n in 0..count {
        if (used >> n) % 2 == 1 {
            match type_node(nodes[n], types) {
                Ok(found) => types[n] = found,
                Err(error) => {
                    return TypedNodes {
                        judged: Err(error.at(n)),
                        types,
                    };
                }
            }
        }
    }
    TypedNodes {
        judged: Ok(()),
        types,
    }
}
