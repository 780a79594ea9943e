// A second reading of rule texts, from the language as it is written down. It shares no code with the readers of the library: what is to come stands
// in a list, and the sheet is laid out from how many nodes are below each.
#![tactic(auto)]

ghost use Rattle.std.specs.Prelude.{◌≡◌, ◌<◌};
ghost use Rattle.naive_texts.specs.Answers.{refusal_number, refusal_spot};

mod language;
mod layout;
mod texts;
mod words;

pub use texts::read_text;

// The line of the language that a word fits, and the number that it says.
#[derive(Clone, Copy)]
pub struct Fit {
    pub line: usize,
    pub argument: usize,
}

// How far a text is read: its words and nodes so far, and how much is to come.
#[derive(Clone, Copy)]
pub struct Reading {
    pub words: usize,
    pub nodes: usize,
    pub depth: usize,
}

// A node in the order of a text: its kind, its argument, and how many parts it has.
#[derive(Clone, Copy)]
pub struct Listed {
    pub kind: u8,
    pub argument: u8,
    pub parts: u8,
}

// What is written of a sheet: its length, actions and nodes.
#[derive(Clone, Copy)]
pub struct Sheet {
    pub length: usize,
    pub actions: usize,
    pub nodes: usize,
}

// Why a text is refused: the output is short, the actions are too few or too many, the text is too long, not in the language, with the number of words
// before the first that does not fit, or has too many nodes.
#[derive(Clone, Copy)]
pub enum Refusal {
    ShortOutput,
    Actions,
    LongText,
    Unreadable(usize),
    TooManyNodes,
}

impl Refusal {
    // Its number in docs/FORMATS.md, "Refusals".
    pub fn number(self) -> usize
        ensures { result ≡ refusal_number self }
    {
        match self {
            Refusal::ShortOutput => 14,
            Refusal::Actions => 2,
            Refusal::LongText => 31,
            Refusal::Unreadable(_) => 32,
            Refusal::TooManyNodes => 33,
        }
    }

    // Its spot, 0 where it has none.
    pub fn spot(self) -> usize
        ensures { result ≡ refusal_spot self }
    {
        match self {
            Refusal::Unreadable(words) => words,
            _ => 0,
        }
    }
}
