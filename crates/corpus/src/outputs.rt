// The areas that are lent to a call, and what it leaves in them.
ghost use Rattle.std.specs.Prelude.{◌≡◌, ◌≤◌, true, ◌++◌, length, drop, replicate, if◌then◌else◌};

// What stands in each area before a call.
pub const FRESH: u8 = 170;

// How much of an area is lent: all of it, or no more than this.
pub fn lent(short: bool, most: usize, whole: usize) -> usize
    ensures { result ≤ whole }
{
    if short { most.min(whole) } else { whole }
}

// Whether an output has these bytes in front, and behind them those that it had when it was fresh.
pub fn written(out: &[u8], front: &[u8], fresh: &[u8]) -> bool
    ensures { result ≡ true → out.now ≡ front.now ++ drop (length front.now) fresh.now }
{
    match (out.strip_prefix(front), fresh.get(front.len()..)) {
        (Some(behind), Some(rest)) => behind == rest,
        _ => false,
    }
}

// What a call leaves in its work areas: what was there where an area is too short, else zeros.
pub fn left_by(short: bool) -> u8
    ensures { result ≡ (if short then 170 else 0) }
{
    if short { FRESH } else { 0 }
}

// Whether all bytes of an area are this one.
pub fn all_bytes(area: &[u8], byte: u8) -> bool
    ensures { result ≡ true → area.now ≡ replicate (length area.now) byte }
{
    area.iter().all(|x| *x == byte)
}

// Whether all numbers of an area are this one. Not one function over any T: Eq: `returns` stays open, since there `==` need not mean the same value.
pub fn all_numbers(area: &[u64], number: u64) -> bool
    ensures { result ≡ true → area.now ≡ replicate (length area.now) number }
{
    area.iter().all(|x| *x == number)
}
