// Reads a rule file from standard input and prints the rule's table, or its refusal and what to do. The first line of the file is the action list,
// what follows is the rule's text; or several texts, separated by lines `---`, whose tables are joined.
#![tactic(auto)]

mod file;
mod joined;
mod rule;

// The buffer holds one byte more than the longest file: longer input fills it.
fn main(rt: HostRuntime) {
    let mut input = standard_streams::large_buffer();
    let length = standard_streams::read_full(&rt, &mut input);
    file::answer(&rt, &input[..length]);
}
