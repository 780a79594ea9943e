// Sequences of actions and their numbers: the empty one is 0, and s followed by action i is actions * s + i + 1. So sequences are numbered by
// length, and those of one length in the order of a dictionary. Judged are all up to a length, at most 2,048 of them; 2,048 stands for any other.
ghost use Rattle.std.specs.Prelude.{◌≡◌, ◌*◌, ◌%◌, ◌<◌, ◌≤◌, length};
ghost use Rattle.naive.specs.Sequences.{stepped, number_to};

// How many sequences are judged: all of up to 130, 10, 6, 5, 4, 4 actions for 1 to 6 actions in the list, of up to 3 for 7 to 12, and of up to 2.
pub fn judged(actions: usize) -> usize
    ensures { result ≤ 2048 }
{
    match actions {
        1 => 131,
        2 => 2047,
        3 => 1093,
        4 => 1365,
        5 => 781,
        6 => 1555,
        7 => 400,
        8 => 585,
        9 => 820,
        10 => 1111,
        11 => 1464,
        12 => 1885,
        13 => 183,
        14 => 211,
        15 => 241,
        16 => 273,
        _ => 0,
    }
}

// A product of numbers below 65,536.
pub fn times(a: usize, b: usize) -> usize
    ensures { (result ≡ (a % 65536) * (b % 65536)) × (result < 4294967296) }
{
    (a % 65536) * (b % 65536)
}

// The sequence s and then an action.
pub fn step(s: usize, action: usize, actions: usize) -> usize
    ensures { (result ≡ stepped s action actions) × (result ≤ 2048) }
{
    if 2047 < s {
        return 2048;
    }
    (times(actions, s) + action % 256 + 1).min(2048)
}

// The number of a sequence that is spelled out.
pub fn number_of(letters: &[u8], actions: usize) -> usize
    ensures { (result ≡ number_to letters.now actions (length letters.now)) × (result ≤ 2048) }
{
    let mut s = 0;
    for letter in letters {
        s = step(s, usize::from(*letter), actions);
    }
    s
}

// Writes the actions of a sequence to the end of `letters`, as far as they fit, and answers them.
pub fn spell<'a>(s: usize, actions: usize, letters: &'a mut [u8]) -> &'a [u8]
    ensures { length result.now ≤ length letters.old }
{
    let mut rest = s;
    let mut from = letters.len();
    while 0 < rest && 0 < from && 0 < actions {
        from -= 1;
        letters[from] = ((rest - 1) % actions % 256) as u8;
        rest = (rest - 1) / actions;
    }
    &letters[from..]
}
