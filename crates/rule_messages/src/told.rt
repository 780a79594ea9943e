// What an operator is told. Each function adds to a text and answers the position after what it wrote.
ghost use Rattle.messages.specs.Adding.{Adds};
ghost use Rattle.rule_messages.specs.Told.{refused_text, place_text, rule_text};

use messages::{add, fill};

// The line of a refusal, as print_table has it.
pub fn add_refused(number: usize, spot: usize, text: &mut [u8], at: usize) -> usize
    ensures { Adds text.old at (refused_text number spot) text.new result }
{
    fill(b"refused # %\n", number, spot, b"", text, at)
}

// A rule by its number, where there are several; 0 where there is one.
fn add_rule(rule: usize, text: &mut [u8], at: usize) -> usize
    ensures { Adds text.old at (rule_text rule) text.new result }
{
    if rule == 0 {
        return add(b"", text, at);
    }
    fill(b"rule #, ", rule, 0, b"", text, at)
}

// Where a word stands.
pub fn add_place(rule: usize, line: usize, number: usize, text: &mut [u8], at: usize) -> usize
    ensures { Adds text.old at (place_text rule line number) text.new result }
{
    let next = add_rule(rule, text, at);
    fill(b"line #, word %: ", line, number, b"", text, next)
}
