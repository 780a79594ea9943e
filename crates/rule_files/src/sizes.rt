// What a refusal of a text's sheet means, and what to do: 8 or 9, since such a sheet passes checks 1 to 7. Its node is told by the word of the text.
use crate::nodes::words_before;
use crate::output::say;
use crate::parts::RuleText;
use crate::refusals::say_place;

// 8 and 9: how the node grows too large.
pub fn tell_size(rt: &impl Print, rule: RuleText<'_>, sheet: &[u8], node: usize, grown: &[u8]) {
    say_place(rt, rule, words_before(sheet, node));
    say(rt, grown);
    say(
        rt,
        b"simplify what begins there, or split it into rules on several places\n",
    );
}
