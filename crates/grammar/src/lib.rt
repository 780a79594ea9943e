// The language of rule texts: what a word can be, and what may stand at a place of a text. Definitions are in specs/, their laws in proofs/.
#![tactic(auto)]

// A word: one of the language's own, a proposition p0 to p15, a number 1 to 60, or one that the language does not have.
#[derive(Clone, Copy, PartialEq, Eq)]
pub enum Token {
    Watch,
    Enforce,
    Now,
    Holds,
    Count,
    Not,
    And,
    Or,
    Eventually,
    Always,
    Before,
    After,
    Fulfilling,
    Ignoring,
    True,
    False,
    Proposition(u8),
    Number(u8),
    Other,
}

// What may stand at a place: a whole text, a watched policy (W), an enforced one (E), an action formula (A), a number (K), or nothing more.
#[derive(Clone, Copy, PartialEq, Eq)]
pub enum Category {
    Text,
    Watched,
    Enforced,
    Formula,
    Number,
    End,
}
