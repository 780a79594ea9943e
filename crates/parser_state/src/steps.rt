// Progress in one number, and a word taken from a text.
ghost use Rattle.std.specs.Prelude.{◌≡◌, ◌<◌};
ghost use Rattle.base.specs.Fields.{field_size};
ghost use Rattle.parser_state.specs.Packed.{mark_of, progress_of};
ghost use Rattle.parser_state.specs.Progress.{stuck_at, Sane, Takes};

use crate::{Progress, Taken};
use grammar::Category;
use lexer::read_word;

// The number has four fields: the position, the words, the nodes, the mark. A field is below this.
const FIELD: u64 = 65536;

// One node more, and one mark more.
pub const ONE_NODE: u64 = 4294967296;

const ONE_MARK: u64 = 281474976710656;

// The number of a category where reading is stuck.
fn mark(expected: Category) -> usize
    ensures { result ≡ mark_of expected }
{
    match expected {
        Category::Text => 1,
        Category::Watched => 2,
        Category::Enforced => 3,
        Category::Formula => 4,
        Category::Number => 5,
        Category::End => 6,
    }
}

// The progress that a number stands for.
pub fn unpack(p: u64) -> Progress
    ensures { result ≡ progress_of p }
{
    let words = (p / FIELD % FIELD) as usize;
    let stuck = p / ONE_MARK;
    match stuck {
        0 => Progress::Going {
            at: (p % FIELD) as usize,
            words,
            nodes: (p / ONE_NODE % FIELD) as usize,
        },
        1 => Progress::Stuck {
            words,
            expected: Category::Text,
        },
        2 => Progress::Stuck {
            words,
            expected: Category::Watched,
        },
        3 => Progress::Stuck {
            words,
            expected: Category::Enforced,
        },
        4 => Progress::Stuck {
            words,
            expected: Category::Formula,
        },
        5 => Progress::Stuck {
            words,
            expected: Category::Number,
        },
        _ => Progress::Stuck {
            words,
            expected: Category::End,
        },
    }
}

// Reading goes on.
pub fn going(at: usize, words: usize, nodes: usize) -> u64
    requires { (at < field_size) × (words < field_size) × (nodes < field_size) }
    ensures { progress_of result ≡ Progress.Going at words nodes }
{
    base::pack(at, words, nodes, 0)
}

// Reading is stuck before the word that comes next, or where it was already.
pub fn stuck(p: u64, expected: Category) -> u64
    ensures { progress_of result ≡ stuck_at (progress_of p) expected }
{
    let Progress::Going { words, .. } = unpack(p) else {
        return p;
    };
    base::pack(0, words, 0, mark(expected))
}

// Takes the next word.
pub fn take_word(text: &[u8], p: u64) -> Taken
    requires { Sane text.now (progress_of p) }
    ensures { Takes text.now (progress_of p) result }
{
    let Progress::Going { at, words, nodes } = unpack(p) else {
        return Taken::Nothing;
    };
    match read_word(text, at) {
        Some(word) => Taken::Word(word.token, going(word.end, words + 1, nodes)),
        None => Taken::Nothing,
    }
}
