// A reader for each category. Where reading is stuck already it stays so; nodes are written after those that are there.
ghost use Rattle.std.specs.Prelude.{◌≤◌, ◌≡◌, length};
ghost use Rattle.sheet_writer.specs.Bytes.{node_room};
ghost use Rattle.grammar.specs.declared.Category.TheVariants.{Watched, Enforced, Formula};
ghost use Rattle.parser_state.specs.Packed.{progress_of};
ghost use Rattle.parser_state.specs.Progress.{longest_text, Sane};
ghost use Rattle.descent.specs.Parsing.{CanRead, Parses, ParsesNumber, ParsesEnd, ParsesText};

use crate::NumberRead;
use grammar::{Category, Token};
use parser_state::{Taken, close_leaf, close_one, close_three, close_two, going, stuck, take_word};
use sheet_writer::{Kind, NODE_ROOM};

// A number. In line, it would lengthen the frame of each reader: 44 KiB of stack for the longest text in place of 33, and LEMONDARTS_STACK_TEXT is 40.
#[inline(never)]
fn read_number(text: &[u8], p: u64) -> NumberRead
    requires { Sane text.now (progress_of p) }
    ensures { ParsesNumber text.now (progress_of p) (progress_of result.progress) result.number }
{
    let missing = NumberRead {
        progress: stuck(p, Category::Number),
        number: 0,
    };
    let Taken::Word(token, rest) = take_word(text, p) else {
        return missing;
    };
    match token {
        Token::Number(number) => NumberRead {
            progress: rest,
            number,
        },
        _ => missing,
    }
}

// An action formula.
pub fn read_formula(text: &[u8], p: u64, out: &mut [u8; NODE_ROOM]) -> u64
    requires { CanRead text.now (progress_of p) out.old }
    ensures { Parses Formula text.now (progress_of p) out.old (progress_of result) out.new }
{
    let Taken::Word(token, rest) = take_word(text, p) else {
        return stuck(p, Category::Formula);
    };
    match token {
        Token::True => close_leaf(Kind::True, 0, rest, out),
        Token::False => close_leaf(Kind::False, 0, rest, out),
        Token::Proposition(number) => close_leaf(Kind::Proposition, number, rest, out),
        Token::Not => {
            let a = read_formula(text, rest, out);
            close_one(Kind::Negation, a, out)
        }
        Token::And => {
            let a = read_formula(text, rest, out);
            let b = read_formula(text, a, out);
            close_two(Kind::Conjunction, a, b, out)
        }
        Token::Or => {
            let a = read_formula(text, rest, out);
            let b = read_formula(text, a, out);
            close_two(Kind::Disjunction, a, b, out)
        }
        _ => stuck(p, Category::Formula),
    }
}

// A watched policy.
#[cycle(read_enforced_read_watched)]
pub fn read_watched(text: &[u8], p: u64, out: &mut [u8; NODE_ROOM]) -> u64
    requires { CanRead text.now (progress_of p) out.old }
    ensures { Parses Watched text.now (progress_of p) out.old (progress_of result) out.new }
{
    let Taken::Word(token, rest) = take_word(text, p) else {
        return stuck(p, Category::Watched);
    };
    match token {
        Token::Now => {
            let a = read_formula(text, rest, out);
            close_one(Kind::Now, a, out)
        }
        Token::Count => {
            let k = read_number(text, rest);
            close_leaf(Kind::Count, k.number, k.progress, out)
        }
        Token::Not => {
            let a = read_enforced(text, rest, out);
            close_one(Kind::Not, a, out)
        }
        Token::And => {
            let a = read_watched(text, rest, out);
            let b = read_watched(text, a, out);
            close_two(Kind::And, a, b, out)
        }
        Token::Or => {
            let a = read_watched(text, rest, out);
            let b = read_watched(text, a, out);
            close_two(Kind::Or, a, b, out)
        }
        Token::Eventually => {
            let a = read_watched(text, rest, out);
            close_one(Kind::Eventually, a, out)
        }
        Token::Before => {
            let a = read_watched(text, rest, out);
            let b = read_watched(text, a, out);
            close_two(Kind::BeforeMinus, a, b, out)
        }
        Token::After => {
            let a = read_watched(text, rest, out);
            let b = read_watched(text, a, out);
            close_two(Kind::AfterMinus, a, b, out)
        }
        Token::Ignoring => {
            let a = read_formula(text, rest, out);
            let b = read_watched(text, a, out);
            close_two(Kind::Ignoring, a, b, out)
        }
        _ => stuck(p, Category::Watched),
    }
}

// An enforced policy.
#[cycle(read_enforced_read_watched)]
pub fn read_enforced(text: &[u8], p: u64, out: &mut [u8; NODE_ROOM]) -> u64
    requires { CanRead text.now (progress_of p) out.old }
    ensures { Parses Enforced text.now (progress_of p) out.old (progress_of result) out.new }
{
    let Taken::Word(token, rest) = take_word(text, p) else {
        return stuck(p, Category::Enforced);
    };
    match token {
        Token::Holds => {
            let a = read_formula(text, rest, out);
            close_one(Kind::Holds, a, out)
        }
        Token::Not => {
            let a = read_watched(text, rest, out);
            close_one(Kind::Not, a, out)
        }
        Token::And => {
            let a = read_enforced(text, rest, out);
            let b = read_enforced(text, a, out);
            close_two(Kind::And, a, b, out)
        }
        Token::Or => {
            let a = read_enforced(text, rest, out);
            let b = read_enforced(text, a, out);
            close_two(Kind::Or, a, b, out)
        }
        Token::Always => {
            let a = read_enforced(text, rest, out);
            close_one(Kind::Always, a, out)
        }
        Token::Before => {
            let a = read_watched(text, rest, out);
            let b = read_enforced(text, a, out);
            close_two(Kind::BeforePlus, a, b, out)
        }
        Token::After => {
            let a = read_watched(text, rest, out);
            let b = read_enforced(text, a, out);
            close_two(Kind::AfterPlus, a, b, out)
        }
        Token::Fulfilling => {
            let k = read_number(text, rest);
            let a = read_watched(text, k.progress, out);
            let b = read_enforced(text, a, out);
            let c = read_enforced(text, b, out);
            close_three(Kind::Fulfilling, k.number, a, b, c, out)
        }
        Token::Ignoring => {
            let a = read_formula(text, rest, out);
            let b = read_enforced(text, a, out);
            close_two(Kind::Ignoring, a, b, out)
        }
        _ => stuck(p, Category::Enforced),
    }
}

// Nothing stands after what was read.
fn ended(text: &[u8], p: u64) -> u64
    requires { Sane text.now (progress_of p) }
    ensures { ParsesEnd text.now (progress_of p) (progress_of result) }
{
    match take_word(text, p) {
        Taken::Word(..) => stuck(p, Category::End),
        Taken::Nothing => p,
    }
}

// A whole text, from its front.
pub fn read_rule(text: &[u8], out: &mut [u8; NODE_ROOM]) -> u64
    requires { (length text.now ≤ longest_text) × (length out.old ≡ node_room) }
    ensures { ParsesText text.now out.new (progress_of result) × (length out.new ≡ node_room) }
{
    let front = going(0, 0, 0);
    let Taken::Word(token, rest) = take_word(text, front) else {
        return stuck(front, Category::Text);
    };
    match token {
        Token::Watch => ended(text, read_watched(text, rest, out)),
        Token::Enforce => ended(text, read_enforced(text, rest, out)),
        _ => stuck(front, Category::Text),
    }
}
