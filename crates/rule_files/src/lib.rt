// Rule files, as the programs print_rule and print_denial read them: the words of a line, the action list, the rules, and what is told of them on
// standard output.
#![tactic(auto)]

mod actions;
mod head;
mod nodes;
mod output;
mod parts;
mod reading;
mod refusals;
mod rooms;
mod sizes;
mod words;

pub use actions::{WrongWord, action_named, is_doubled, is_name, name_at, read_actions};
pub use head::read_head;
pub use nodes::{byte_at, kind_of, say_kind, say_part, words_before};
pub use output::{say, say_number, say_refusal, say_word};
pub use parts::{Part, Place, RuleText, first_watched, line_behind, part_from};
pub use reading::read_rule;
pub use refusals::{
    following, refuse_long_file, refuse_word, say_bytes, say_naming, say_rule, say_spot,
    tell_rules, tell_watched,
};
pub use rooms::front;
pub use sizes::tell_size;
pub use words::{
    Span, digit, find, first_line, pass_blanks, word_at, word_behind, word_end, words_of,
};
