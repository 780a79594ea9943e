// The corpus of calls on a board, made one after the other. Each answer, and the bytes of the board after it, are held to what the corpus expects.
#![tactic(auto)]

use base::room;

// The counts: answers by number, and in the last slot the calls after which something is not as expected.
const DISAGREEMENTS: usize = 256;

// A byte written by hand, as no call does. Answers 0, or 99 where it lies outside.
fn write_byte(bytes: &mut [u8], at: usize, byte: u8) -> u64 {
    if bytes.len() <= at {
        return 99;
    }
    bytes[at] = byte;
    0
}

// Makes a call of a kind: its number is a place, an action or an offset, and behind it stands a table or a byte. No kind answers 99.
fn make(kind: usize, number: usize, rest: &[u8], board: &mut [u8], area: &mut [u8]) -> u64 {
    match kind {
        0 => lemondarts::lemondarts_new_board(board, area),
        1 => lemondarts::lemondarts_put_on(board, area, number, rest),
        2 => lemondarts::lemondarts_take_off(board, area, number),
        3 => lemondarts::lemondarts_action(board, area, number),
        4 => write_byte(area, number, corpus::byte_at(rest, 0)),
        5 => write_byte(board, number, corpus::byte_at(rest, 0)),
        _ => 99,
    }
}

// Makes the call that a block states: its kind, whether the area is lent a byte too short, its number, and the rest.
fn call(bytes: &[u8], board: &mut [u8], area: &mut [u8]) -> u64 {
    if bytes.len() < 4 {
        return 99;
    }
    let length = corpus::lent(corpus::at(bytes, 1) == 1, 8255, area.len());
    make(
        corpus::at(bytes, 0),
        corpus::number_at(bytes, 2),
        &bytes[4..],
        board,
        &mut area[..length],
    )
}

// Whether an answer and the board behind it are those expected.
fn as_expected(answer: u64, board: &[u8], expected: &[u8]) -> bool {
    if expected.len() < 4 {
        return false;
    }
    answer as usize == corpus::answer_at(expected) && board == &expected[4..]
}

// Reads the rest of a record, behind its name, makes the call and compares. Nothing where it was cut off.
fn run_call(
    rt: &impl Input,
    board: &mut [u8],
    area: &mut [u8],
    counts: &mut [u64],
) -> Option<bool> {
    let mut call_room = room::<u8, 1100>(0);
    let mut expected_room = room::<u8, 64>(0);
    let stated = corpus::read_block(rt, &mut call_room).ok()?;
    let expected = corpus::read_block(rt, &mut expected_room).ok()?;
    let answer = call(stated, board, area);
    corpus::add(counts, (answer % 65536) as usize, 1);
    Some(as_expected(answer, board, expected))
}

// The bytes of the board and of its area are not zero before the first call: a new board has to zero them.
fn main(rt: HostRuntime) {
    let mut board = room::<u8, 16>(7);
    let mut area = room::<u8, 8256>(7);
    let mut counts = room::<u64, 257>(0);
    let at = corpus::run(&rt, &mut counts, |name, counts| {
        let agreed = run_call(&rt, &mut board, &mut area, counts);
        corpus::settle(&rt, counts, DISAGREEMENTS, agreed, name)
    });
    corpus::report(&rt, b"calls ", at, &counts[..256], counts[256]);
}
