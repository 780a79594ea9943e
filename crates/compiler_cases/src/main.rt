// The corpus of sheets, given to the compiler and to a second implementation. The compiler's answer and table are held to those that the corpus
// expects; refusals 1 to 7 to those that the naive checks find; the table to the loader, and to the policy's verdict after every short sequence.
#![tactic(auto)]

use base::room;
use corpus::{FRESH, Progress};
use standard_streams::{print_decimal, write_all};

// Slots of the counts: answers by number from 0 (a table), nodes by kind, sequences judged, and sheets on which the two disagree.
const KINDS: usize = 16;

const SEQUENCES: usize = 48;

const DISAGREEMENTS: usize = 49;

// Compiles a sheet with work areas of its own. Where `short` is 1, 2 or 3 the area of the table, of the work or of the values is lent shorter by
// one than is asked for.
fn compile(short: usize, sheet: &[u8], out: &mut [u8]) -> u64 {
    let mut work = room::<u8, 65536>(0);
    let mut values = room::<u64, 1024>(0);
    let o = corpus::lent(short == 1, 1031, out.len());
    let w = corpus::lent(short == 2, 65535, work.len());
    let v = corpus::lent(short == 3, 1023, values.len());
    lemondarts::lemondarts_compile(sheet, &mut out[..o], &mut work[..w], &mut values[..v])
}

// Whether the loader accepts the table, if there is one, with the type, actions and rows that the compiler answered.
fn loads(answer: u64, table: &[u8]) -> bool {
    table.is_empty() || lemondarts::lemondarts_load(table) == answer
}

// Counts the nodes of a sheet by their kinds.
fn count_nodes(sheet: &[u8], nodes: usize, nodes_at: usize, counts: &mut [u64]) {
    for n in 0..nodes {
        let node = naive::node_at(sheet, nodes_at, n);
        corpus::add(counts, KINDS + node.kind % 32, 1);
    }
}

// Whether the table gives the policy's verdict after every sequence that is judged.
fn same_verdicts(sheet: &[u8], judged: &naive::Sheet, table: &[u8], counts: &mut [u64]) -> bool {
    count_nodes(sheet, judged.areas.nodes, judged.areas.nodes_at, counts);
    let compared = naive::compare(sheet, judged.mode.number(), table);
    corpus::add(counts, SEQUENCES, compared.sequences as u64);
    compared.differing == 0
}

// Whether the second implementation agrees: with a refusal 1 to 7 and its spot, or with the table's type and verdicts.
fn second_agrees(answer: usize, sheet: &[u8], table: &[u8], counts: &mut [u64]) -> bool {
    let number = answer % 65536;
    let value = answer / 65536 % 65536;
    if number == 14 {
        return true;
    }
    match naive::judge(sheet) {
        Err(refusal) => number == refusal.check.number() && value == refusal.node,
        Ok(_) if 0 < number => 7 < number,
        Ok(judged) => {
            let same = same_verdicts(sheet, &judged, table, counts);
            same && value == judged.mode.number()
        }
    }
}

// Compiles a sheet and compares.
fn agrees(short: usize, sheet: &[u8], expected: &[u8], counts: &mut [u64]) -> bool {
    if expected.len() < 4 {
        return false;
    }
    let table = &expected[4..];
    let fresh = room::<u8, 1100>(FRESH);
    let mut out = room::<u8, 1100>(FRESH);
    let answer = compile(short, sheet, &mut out);
    corpus::add(counts, (answer % 65536) as usize, 1);
    let second = second_agrees(answer as usize, sheet, table, counts);
    let first = answer as usize == corpus::answer_at(expected);
    first && corpus::written(&out, table, &fresh) && loads(answer, table) && second
}

// Reads the rest of a record, behind its name, and compares. Nothing where it was cut off.
fn run_sheet(rt: &impl Input, counts: &mut [u64]) -> Option<bool> {
    let mut call_room = room::<u8, 64>(0);
    let mut sheet_room = room::<u8, 65536>(0);
    let mut expected_room = room::<u8, 1100>(0);
    let lent = corpus::read_block(rt, &mut call_room).ok()?;
    let sheet = corpus::read_block(rt, &mut sheet_room).ok()?;
    let expected = corpus::read_block(rt, &mut expected_room).ok()?;
    Some(agrees(corpus::at(lent, 0), sheet, expected, counts))
}

// Writes how many sheets were compiled, and the counts, as much of it as the corpus had.
fn report(rt: &(impl Input + Print), at: Progress, counts: &[u64; 50]) {
    write_all(rt, b"sheets ");
    print_decimal(rt, at.done as u64);
    write_all(rt, b"\nanswers");
    corpus::show(rt, &counts[..16]);
    write_all(rt, b"\nkinds");
    corpus::show(rt, &counts[16..48]);
    write_all(rt, b"\nsequences ");
    print_decimal(rt, counts[48]);
    write_all(rt, b"\ndisagreements ");
    print_decimal(rt, counts[49]);
    write_all(rt, b"\n");
    corpus::end(rt, at);
}

fn main(rt: HostRuntime) {
    let mut counts = room::<u64, 50>(0);
    let at = corpus::run(&rt, &mut counts, |name, counts| {
        let agreed = run_sheet(&rt, counts);
        corpus::settle(&rt, counts, DISAGREEMENTS, agreed, name)
    });
    report(&rt, at, &counts);
}
