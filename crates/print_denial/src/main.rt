// Reads a list of actions and what it is asked of from standard input, and prints which action of the list is denied first and which part of the rule
// denies it, or what is refused and what to do. The first line is the list: words, each the number of an action or its name. After it comes a rule
// file, as print_rule reads it; or a line `sheet`, on which the names of the actions may follow, and after that line the bytes of a sheet.
#![tactic(auto)]

mod denials;
mod file;
mod list;
mod sheets;
mod texts;

// Room for one byte more than is read: longer input fills it.
fn main(rt: HostRuntime) {
    let mut input: [u8; 196608] = base::room(0);
    let length = standard_streams::read_full(&rt, &mut input);
    file::answer(&rt, &input[..length]);
}
