// The corpus of texts, given to the reader for C and to a second one. The answer of each, and each byte of its output, are held to those that the corpus
// expects.
#![tactic(auto)]

ghost use Rattle.std.specs.Prelude.{◌≤◌, length};

use base::room;
use corpus::FRESH;

// The counts: answers by number, and in the last slot the texts on which something is not as expected.
const DISAGREEMENTS: usize = 34;

// The longest output that is lent, and the most actions.
const OUTPUT: usize = 400;

const ACTIONS: usize = 32;

// Fills a list of actions from their bytes, and with zeros behind these.
fn fill(actions: &mut [u16], bytes: &[u8])
    requires { length actions.old ≤ 32 }
{
    for n in 0..actions.len() {
        actions[n] = corpus::number_at(bytes, 2 * n) as u16;
    }
}

// Gives a text to the reader for C, with the actions that these bytes are. So much of the output is lent.
fn read(text: &[u8], bytes: &[u8], lent: usize, out: &mut [u8]) -> usize
    requires { lent ≤ length out.old }
{
    let mut actions = room::<u16, ACTIONS>(0);
    fill(&mut actions, bytes);
    let listed = (bytes.len() / 2).min(actions.len());
    lemondarts::lemondarts_read_text(text, &actions[..listed], &mut out[..lent]) as usize
}

// The same with the second reader.
fn read_again(text: &[u8], actions: &[u8], lent: usize, out: &mut [u8]) -> usize
    requires { lent ≤ length out.old }
{
    match naive_texts::read_text(text, actions, &mut out[..lent]) {
        Ok(sheet) => {
            let low = 65536 * sheet.length;
            low + 4294967296 * sheet.actions + 281474976710656 * sheet.nodes
        }
        Err(refusal) => refusal.number() + 65536 * refusal.spot(),
    }
}

// Gives a text to both readers. Whether both answer what is expected, and leave the sheet that is expected and behind it what was there.
fn agrees(text: &[u8], actions: &[u8], lent: usize, expected: &[u8], counts: &mut [u64]) -> bool
    requires { (lent ≤ 400) × (8 ≤ length expected.now) }
{
    let fresh = room::<u8, OUTPUT>(FRESH);
    let mut one = room::<u8, OUTPUT>(FRESH);
    let mut other = room::<u8, OUTPUT>(FRESH);
    let answer = read(text, actions, lent, &mut one);
    let again = read_again(text, actions, lent, &mut other);
    corpus::add(counts, answer % 65536, 1);
    let stated = corpus::long_answer_at(expected);
    let sheet = &expected[8..];
    answer == stated
        && again == stated
        && corpus::written(&one, sheet, &fresh)
        && corpus::written(&other, sheet, &fresh)
}

// Reads the rest of a record, behind its name, and compares, where so much output is there to lend, and an answer to compare with. Nothing where it was cut
// off.
fn run_text(rt: &impl Input, counts: &mut [u64]) -> Option<bool> {
    let mut size_room = room::<u8, 64>(0);
    let mut actions_room = room::<u8, 64>(0);
    let mut text_room = room::<u8, 3000>(0);
    let mut expected_room = room::<u8, OUTPUT>(0);
    let size = corpus::read_block(rt, &mut size_room).ok()?;
    let actions = corpus::read_block(rt, &mut actions_room).ok()?;
    let text = corpus::read_block(rt, &mut text_room).ok()?;
    let expected = corpus::read_block(rt, &mut expected_room).ok()?;
    if size.len() != 2 || actions.len() % 2 != 0 {
        return None;
    }
    let lent = corpus::number_at(size, 0);
    if OUTPUT < lent || expected.len() < 8 {
        return None;
    }
    Some(agrees(text, actions, lent, expected, counts))
}

fn main(rt: HostRuntime) {
    let mut counts = room::<u64, 35>(0);
    let at = corpus::run(&rt, &mut counts, |name, counts| {
        let agreed = run_text(&rt, counts);
        corpus::settle(&rt, counts, DISAGREEMENTS, agreed, name)
    });
    corpus::report(&rt, b"texts ", at, &counts[..34], counts[34]);
}
