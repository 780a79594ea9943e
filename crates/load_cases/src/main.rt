// The corpus of tables, given to the loader. Its answer is held to the one that the corpus expects.
#![tactic(auto)]

use base::room;

// The counts: answers by number, and in the last slot the tables on which the answer is not the one expected.
const DISAGREEMENTS: usize = 15;

// Reads the rest of a record, behind its name, and compares. Nothing where it was cut off.
fn run_table(rt: &impl Input, counts: &mut [u64]) -> Option<bool> {
    let mut table_room = room::<u8, 1100>(0);
    let mut expected_room = room::<u8, 64>(0);
    let table = corpus::read_block(rt, &mut table_room).ok()?;
    let expected = corpus::read_block(rt, &mut expected_room).ok()?;
    if expected.len() != 4 {
        return None;
    }
    let answer = lemondarts::lemondarts_load(table);
    corpus::add(counts, (answer % 65536) as usize, 1);
    Some(answer as usize == corpus::answer_at(expected))
}

fn main(rt: HostRuntime) {
    let mut counts = room::<u64, 16>(0);
    let at = corpus::run(&rt, &mut counts, |name, counts| {
        let agreed = run_table(&rt, counts);
        corpus::settle(&rt, counts, DISAGREEMENTS, agreed, name)
    });
    corpus::report(&rt, b"tables ", at, &counts[..15], counts[15]);
}
