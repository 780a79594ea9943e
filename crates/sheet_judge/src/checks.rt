// Checks 1 to 7 of a sheet, in their order.
ghost use Rattle.std.specs.Prelude.{◌≡◌, ◌-◌, ◌≤◌};
ghost use Rattle.syntax.specs.Nodes.{no_nodes, no_propositions, sheet_of};
ghost use Rattle.syntax.specs.Types.{type_at};
ghost use Rattle.reached.specs.Parts.{PartsEarlier};
ghost use Rattle.typing.specs.Typed.{no_types, faulty, judge_last, judge_sheet};
ghost use Rattle.sheet_layout.specs.Layout.{layout_of};
ghost use Rattle.sheet_reading.specs.Reading.{read_actions, read_nodes};
ghost use Rattle.sheet_judge.specs.Judge.{types_by, judged_sheet, judged_read, judged};

use crate::JudgedSheet;
use reached::used_nodes;
use sheet_layout::{Layout, find_layout};
use sheet_reading::{NodesRead, read_actions, read_nodes};
use syntax::{Fault, Node, NodeType, Sheet, TypedNodes, type_at};
use typing::type_nodes;

// The last node's 6. (It is used, so it has a type.)
fn judge_last(sheet: Sheet, types: [NodeType; 64]) -> JudgedSheet
    requires { 1 ≤ sheet.count }
    ensures { result ≡ judged_sheet sheet types (judge_last sheet types (type_at types (sheet.count - 1))) }
{
    let last = sheet.count - 1;
    let found = match type_at(types, last) {
        NodeType::Policy(mode, _) => Ok(mode),
        NodeType::Unused | NodeType::Formula => Err(Fault::WrongTypeAt(last)),
    };
    JudgedSheet {
        found,
        sheet,
        types,
    }
}

// Checks 6 and 7 of the used nodes, then the last node's 6.
fn judge_used(sheet: Sheet) -> JudgedSheet
    requires le_count { (1 ≤ sheet.count) × (sheet.count ≤ 64) }
    requires parts_earlier { PartsEarlier sheet.nodes (sheet.count - 1) }
    ensures { result ≡ judged_sheet sheet (types_by (Ok tt) sheet) (judge_sheet sheet) }
{
    let used = used_nodes(sheet.nodes, sheet.count);
    let TypedNodes { judged, types } = type_nodes(used, sheet.nodes, sheet.count);
    match judged {
        Ok(()) => judge_last(sheet, types),
        Err(fault) => JudgedSheet {
            found: Err(fault),
            sheet,
            types,
        },
    }
}

// A sheet with a fault of checks 1 to 5: no node is typed.
fn untyped(sheet: Sheet, fault: Fault) -> JudgedSheet
    ensures { result ≡ judged_sheet sheet no_types (faulty fault) }
{
    JudgedSheet {
        found: Err(fault),
        sheet,
        types: [NodeType::Unused; 64],
    }
}

// Checks 4 to 7 of a sheet whose areas are found: the first fault of checks 4 and 5 of its nodes; where there is none, checks 6 and 7.
fn judge_laid(bytes: &[u8], layout: Layout) -> JudgedSheet
    requires { layout_of bytes.now ≡ Ok layout }
    ensures { result ≡ judged_read layout.actions (read_actions bytes.now layout.actions) layout.nodes (read_nodes bytes.now layout.nodes) }
{
    let propositions = read_actions(bytes, layout.actions_at, layout.actions);
    let NodesRead { judged, nodes } = read_nodes(bytes, layout.nodes_at, layout.nodes);
    let sheet = Sheet {
        actions: layout.actions,
        propositions,
        count: layout.nodes,
        nodes,
    };
    match judged {
        Ok(()) => judge_used(sheet),
        Err(fault) => untyped(sheet, fault),
    }
}

// A sheet of which nothing is read.
fn empty_sheet() -> Sheet
    ensures { result ≡ sheet_of 0 no_propositions 0 no_nodes }
{
    Sheet {
        actions: 0,
        propositions: [0; 16],
        count: 0,
        nodes: [Node::True; 64],
    }
}

// The first fault of any bytes, or none, with the sheet and the types of its nodes as far as they were found.
pub fn judge(bytes: &[u8]) -> JudgedSheet
    ensures { result ≡ judged bytes.now }
{
    match find_layout(bytes) {
        Ok(layout) => judge_laid(bytes, layout),
        Err(fault) => untyped(empty_sheet(), fault),
    }
}
