// Reading a node: checks 4 and 5.
ghost use Rattle.std.specs.Prelude.{◌≡◌, ◌+◌, ◌<◌, length, get_or};
ghost use Rattle.sheet_reading.specs.Reading.{read_fields};

use crate::NodeError;
use syntax::Node;

// The node, where check 5 passes.
fn given(right: bool, node: Node) -> Result<Node, NodeError>
    ensures { result ≡ Rattle.sheet_reading.specs.Reading.given right node }
{
    if right {
        Ok(node)
    } else {
        Err(NodeError::WrongField)
    }
}

// Node n, from its five fields: the kind, the argument, the parts. A part is lower than n, and what a kind does not use is 0.
// (The kind stays a number: this match is what decodes it, and an enum would need a second table of the same length.)
fn read_fields(n: usize, kind: u8, argument: u8, a: u8, b: u8, c: u8) -> Result<Node, NodeError>
    ensures { result ≡ read_fields n kind argument a b c }
{
    let bare = argument == 0;
    let counted = (1 <= argument) & (argument <= 60);
    let none = (a == 0) & ((b == 0) & (c == 0));
    let one = (usize::from(a) < n) & ((b == 0) & (c == 0));
    let two = (usize::from(a) < n) & ((usize::from(b) < n) & (c == 0));
    let three = (usize::from(a) < n) & ((usize::from(b) < n) & (usize::from(c) < n));
    match kind {
        1 => given(bare & none, Node::True),
        2 => given(bare & none, Node::False),
        3 => given((argument <= 15) & none, Node::Proposition(argument)),
        4 => given(bare & one, Node::Negation(a)),
        5 => given(bare & two, Node::Conjunction(a, b)),
        6 => given(bare & two, Node::Disjunction(a, b)),
        10 => given(bare & one, Node::Now(a)),
        11 => given(bare & one, Node::Holds(a)),
        12 => given(counted & none, Node::Count(argument)),
        13 => given(bare & one, Node::Not(a)),
        14 => given(bare & two, Node::And(a, b)),
        15 => given(bare & two, Node::Or(a, b)),
        16 => given(bare & one, Node::Eventually(a)),
        17 => given(bare & one, Node::Always(a)),
        18 => given(bare & two, Node::BeforeMinus(a, b)),
        19 => given(bare & two, Node::BeforePlus(a, b)),
        20 => given(bare & two, Node::AfterMinus(a, b)),
        21 => given(bare & two, Node::AfterPlus(a, b)),
        22 => given(counted & three, Node::Fulfilling(argument, a, b, c)),
        23 => given(bare & two, Node::Ignoring(a, b)),
        _ => Err(NodeError::UnknownKind),
    }
}

// Node n of a sheet, whose fields start at `at`: checks 4 and 5.
pub fn read_node(bytes: &[u8], at: usize, n: usize) -> Result<Node, NodeError>
    requires { at + 4 < length bytes.now }
    ensures { result ≡ read_fields n (get_or bytes.now at 0) (get_or bytes.now (at + 1) 0) (get_or bytes.now (at + 2) 0) (get_or bytes.now (at + 3) 0) (get_or bytes.now (at + 4) 0) }
{
    read_fields(
        n,
        bytes[at],
        bytes[at + 1],
        bytes[at + 2],
        bytes[at + 3],
        bytes[at + 4],
    )
}
