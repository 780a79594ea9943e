// The corpus of lists of actions, given to the call for C that explains. The answer, the place list and both work areas are held to what the corpus
// expects.
#![tactic(auto)]

ghost use Rattle.std.specs.Prelude.{◌≤◌, length};

use base::room;
use corpus::FRESH;

// The counts: answers by number, and in the last slot the lists on which something is not as expected.
const DISAGREEMENTS: usize = 256;

// Makes the call. Where `short` is 1, 2 or 3 the place list, the area of the work or that of the values is lent shorter by one than is asked for.
fn explain(
    short: usize,
    sheet: &[u8],
    list: &[u8],
    places: &mut [u64],
    work: &mut [u8],
    values: &mut [u64],
) -> u64 {
    let p = corpus::lent(short == 1, 0, places.len());
    let w = corpus::lent(short == 2, 65535, work.len());
    let v = corpus::lent(short == 3, 1023, values.len());
    lemondarts::lemondarts_explain(
        sheet,
        list,
        &mut places[..p],
        &mut work[..w],
        &mut values[..v],
    )
}

// Explains and compares. The place list is to begin with the place that is expected, and to have what was there behind it.
fn agrees(short: usize, sheet: &[u8], list: &[u8], expected: &[u8], counts: &mut [u64]) -> bool
    requires { 12 ≤ length expected.now }
{
    let mut places = room::<u64, 3>(u64::from(FRESH));
    let mut work = room::<u8, 65536>(FRESH);
    let mut values = room::<u64, 1024>(u64::from(FRESH));
    let answer = explain(short, sheet, list, &mut places, &mut work, &mut values);
    corpus::add(counts, (answer % 65536) as usize, 1);
    let left = corpus::left_by(answer == 14);
    answer as usize == corpus::answer_at(expected)
        && places[0] as usize == corpus::long_answer_at(&expected[4..])
        && corpus::all_numbers(&places[1..], u64::from(FRESH))
        && corpus::all_bytes(&work, left)
        && corpus::all_numbers(&values, u64::from(left))
}

// Reads the rest of a record, behind the block that says what is lent, explains and compares. So many times the first action stands before the others.
// Nothing where it was cut off, or has no answer to compare with.
fn run_list(rt: &impl Input, short: usize, before: usize, counts: &mut [u64]) -> Option<bool>
    requires { before ≤ 65535 }
{
    let mut sheet_room = room::<u8, 400>(0);
    let mut list_room = room::<u8, 66000>(0);
    let mut expected_room = room::<u8, 64>(0);
    let sheet = corpus::read_block(rt, &mut sheet_room).ok()?;
    let end = before + corpus::read_block(rt, &mut list_room[before..]).ok()?.len();
    let expected = corpus::read_block(rt, &mut expected_room).ok()?;
    if expected.len() < 12 {
        return None;
    }
    Some(agrees(short, sheet, &list_room[..end], expected, counts))
}

// Runs a record, behind its name. Answers whether all of it was there.
fn run_record(rt: &(impl Input + Print), name: Option<&[u8]>, counts: &mut [u64]) -> bool {
    let mut call_room = room::<u8, 64>(0);
    let called = corpus::read_block(rt, &mut call_room);
    let lent = called.unwrap_or(b"");
    let agreed = run_list(rt, corpus::at(lent, 0), corpus::number_at(lent, 1), counts);
    corpus::settle(rt, counts, DISAGREEMENTS, agreed, name) && lent.len() == 3
}

fn main(rt: HostRuntime) {
    let mut counts = room::<u64, 257>(0);
    let at = corpus::run(
        &rt,
        &mut counts,
        |name, counts| run_record(&rt, name, counts),
    );
    corpus::report(&rt, b"lists ", at, &counts[..256], counts[256]);
}
