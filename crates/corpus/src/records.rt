// The blocks of a corpus, and its records one after the other.
ghost use Rattle.std.specs.Prelude.{◌≡◌, ◌+◌, ◌<◌, ◌≤◌, ◌&&◌, length, IfSome, IfOk, IfErr};
ghost use Rattle.corpus.specs.Progress.{Behind, BehindAll};
ghost use Rattle.standard_streams.specs.Counts.{IsPrefixLen};

use crate::numbers::number_at;
use base::room;

// How far a corpus has been run: the records left and those done, and whether all that was to be there was.
#[derive(Clone, Copy)]
pub struct Progress {
    pub left: usize,
    pub done: usize,
    pub whole: bool,
}

// The next number. There is none where the input ends before it does.
pub fn read_number(rt: &impl Input) -> Option<usize>
    ensures { IfSome result (λ n. n < 65536) }
{
    let mut bytes = room::<u8, 2>(0);
    if standard_streams::read_full(rt, &mut bytes) < 2 {
        return None;
    }
    Some(number_at(&bytes, 0))
}

// The next block, in `room`. Where the input ends before it does, so many of its bytes came, and stand there. Of one that is longer than the room none is read.
pub fn read_block<'a>(rt: &impl Input, room: &'a mut [u8]) -> Result<&'a [u8], usize>
    ensures read { IfOk result (λ b. length b.now ≤ length room.old) }
    ensures cut_off { IfErr result (λ came. IsPrefixLen came room.old) }
{
    let Some(size) = read_number(rt) else {
        return Err(0);
    };
    if room.len() < size {
        return Err(0);
    }
    let block = &mut room[..size];
    let came = standard_streams::read_full(rt, block);
    if came < size {
        return Err(came);
    }
    Ok(block)
}

// Before the first record. Where the number of records is not all there, none is left.
pub fn begin(rt: &impl Input) -> Progress
    ensures { (result.done ≡ 0) × (result.left < 65536) }
{
    let records = read_number(rt);
    Progress {
        left: records.unwrap_or(0),
        done: 0,
        whole: records.is_some(),
    }
}

// Behind one record more. Where it was not all there none is left.
pub fn behind(at: Progress, whole: bool) -> Progress
    requires { (0 < at.left) × (at.done + at.left < 65536) }
    ensures counted { Behind at.left at.done whole result.left result.done }
    ensures all { result.whole ≡ (at.whole && whole) }
{
    if whole {
        return Progress {
            left: at.left - 1,
            done: at.done + 1,
            whole: at.whole,
        };
    }
    Progress {
        left: 0,
        done: at.done,
        whole: false,
    }
}

// Runs the records that are left.
fn run_left<R: Input, F: FnMut(Option<&[u8]>, &mut [u64]) -> bool>(
    rt: &R,
    start: Progress,
    counts: &mut [u64],
    mut rest: F,
) -> Progress
    requires few { start.done + start.left < 65536 }
    requires callable { F.IsAlwaysCallable rest }
    ensures { BehindAll start.left start.done result.left result.done result.whole }
{
    let mut at = start;
    while 0 < at.left {
        let mut room = room::<u8, 64>(0);
        let name = read_block(rt, &mut room).ok();
        at = behind(at, rest(name, counts));
    }
    at
}

// Runs the records of a corpus: reads the name of each, and hands it to `rest`, or none where it was cut off. That runs what stands behind it, and answers whether
// the record was all there. Behind one that was not none is run.
pub fn run<R: Input, F: FnMut(Option<&[u8]>, &mut [u64]) -> bool>(
    rt: &R,
    counts: &mut [u64],
    rest: F,
) -> Progress
    requires { F.IsAlwaysCallable rest }
    ensures { (result.left ≡ 0) × (result.done < 65536) }
{
    run_left(rt, begin(rt), counts, rest)
}
