// The corpus of joins, given to the call for C. The answer, each byte of the output and both work areas are held to what the corpus expects.
#![tactic(auto)]

ghost use Rattle.std.specs.Prelude.{◌≤◌, length};

use base::room;
use corpus::FRESH;

// The counts: answers by number, and in the last slot the joins on which something is not as expected.
const DISAGREEMENTS: usize = 35;

// Makes the call. Where `short` is 1, 2 or 3 the area of the table, of the work or of the values is lent shorter by one than is asked for.
fn join(
    short: usize,
    count: usize,
    tables: &[u8],
    out: &mut [u8],
    work: &mut [u8],
    values: &mut [u64],
) -> u64 {
    let o = corpus::lent(short == 1, 1031, out.len());
    let w = corpus::lent(short == 2, 65535, work.len());
    let v = corpus::lent(short == 3, 1023, values.len());
    lemondarts::lemondarts_join(
        count,
        tables,
        &mut out[..o],
        &mut work[..w],
        &mut values[..v],
    )
}

// Joins and compares.
fn agrees(short: usize, count: usize, tables: &[u8], expected: &[u8], counts: &mut [u64]) -> bool
    requires { 4 ≤ length expected.now }
{
    let fresh = room::<u8, 1100>(FRESH);
    let mut out = room::<u8, 1100>(FRESH);
    let mut work = room::<u8, 65536>(FRESH);
    let mut values = room::<u64, 1024>(u64::from(FRESH));
    let answer = join(short, count, tables, &mut out, &mut work, &mut values);
    corpus::add(counts, (answer % 65536) as usize, 1);
    let left = corpus::left_by(answer == 14);
    answer as usize == corpus::answer_at(expected)
        && corpus::written(&out, &expected[4..], &fresh)
        && corpus::all_bytes(&work, left)
        && corpus::all_numbers(&values, u64::from(left))
}

// Reads the rest of a record, behind its name, joins and compares. Nothing where it was cut off, or has no answer to compare with.
fn run_join(rt: &impl Input, counts: &mut [u64]) -> Option<bool> {
    let mut call_room = room::<u8, 64>(0);
    let mut tables_room = room::<u8, 8300>(0);
    let mut expected_room = room::<u8, 1100>(0);
    let called = corpus::read_block(rt, &mut call_room).ok()?;
    let tables = corpus::read_block(rt, &mut tables_room).ok()?;
    let expected = corpus::read_block(rt, &mut expected_room).ok()?;
    if called.len() != 3 || expected.len() < 4 {
        return None;
    }
    let short = corpus::at(called, 0);
    let count = corpus::number_at(called, 1);
    Some(agrees(short, count, tables, expected, counts))
}

fn main(rt: HostRuntime) {
    let mut counts = room::<u64, 36>(0);
    let at = corpus::run(&rt, &mut counts, |name, counts| {
        let agreed = run_join(&rt, counts);
        corpus::settle(&rt, counts, DISAGREEMENTS, agreed, name)
    });
    corpus::report(&rt, b"joins ", at, &counts[..35], counts[35]);
}
