// The counts, and what is written of them.
ghost use Rattle.std.specs.Prelude.{◌≡◌, ◌+◌, ◌%◌, ◌^◌, ◌≤◌, ◌&&◌, is_some, length, slice_index, slice_set};
ghost use Rattle.corpus.specs.Progress.{disagreeing};

use crate::records::Progress;
use standard_streams::{print_decimal, write_all};

// Adds to a count, where there is one of that number.
pub fn add(counts: &mut [u64], number: usize, more: u64)
    ensures { counts.new ≡ slice_set counts.old number ((slice_index counts.old number + more) % 2 ^ 64) }
{
    if number < counts.len() {
        counts[number] = counts[number].wrapping_add(more);
    }
}

// Counts a record on which something disagrees, at the slot, and writes its name. Nothing is known to disagree on one that was cut off. Answers whether the name and
// the rest were all there.
pub fn settle(
    rt: &impl Print,
    counts: &mut [u64],
    slot: usize,
    agreed: Option<bool>,
    name: Option<&[u8]>,
) -> bool
    ensures whole { result ≡ (is_some name.entry && is_some agreed) }
    ensures counted { counts.new ≡ slice_set counts.old slot ((slice_index counts.old slot + disagreeing agreed) % 2 ^ 64) }
{
    let disagrees = matches!(agreed, Some(false));
    if disagrees {
        write_all(rt, b"disagreement: ");
        write_all(rt, name.unwrap_or(b""));
        write_all(rt, b"\n");
    }
    add(counts, slot, u64::from(disagrees));
    name.is_some() && agreed.is_some()
}

// How many bytes are left to read, two for more.
fn bytes_left(rt: &impl Input) -> usize
    ensures { result ≤ 2 }
{
    let mut bytes = base::room::<u8, 2>(0);
    standard_streams::read_full(rt, &mut bytes)
}

// A corpus that was cut off, that had a block longer than its room, or that goes on behind its last record is reported. Answers how many are.
pub fn end(rt: &(impl Input + Print), at: Progress) -> usize
    ensures { result ≤ 1 }
{
    if at.whole && bytes_left(rt) == 0 {
        return 0;
    }
    write_all(rt, b"the corpus is damaged behind these\n");
    1
}

// Writes a count with its number, where it is not 0. Answers how many are written.
fn show_one(rt: &impl Print, count: u64, number: usize) -> usize
    ensures { result ≤ 1 }
{
    if count == 0 {
        return 0;
    }
    write_all(rt, b" ");
    print_decimal(rt, number as u64);
    write_all(rt, b":");
    print_decimal(rt, count);
    1
}

// Writes each count that is not 0 with its number, and answers how many these are.
pub fn show(rt: &impl Print, counts: &[u64]) -> usize
    ensures { result ≤ length counts.now }
{
    let mut shown = 0;
    for (number, count) in counts.iter().enumerate() {
        shown += show_one(rt, *count, number);
    }
    shown
}

// Writes how many records were run, the counts of their answers, and how many disagree, as much of it as the corpus had.
pub fn report(
    rt: &(impl Input + Print),
    what: &[u8],
    at: Progress,
    answers: &[u64],
    disagree: u64,
) {
    write_all(rt, what);
    print_decimal(rt, at.done as u64);
    write_all(rt, b"\nanswers");
    show(rt, answers);
    write_all(rt, b"\ndisagreements ");
    print_decimal(rt, disagree);
    write_all(rt, b"\n");
    end(rt, at);
}
