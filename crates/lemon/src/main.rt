// lemon: compiles rules, joins them, and explains denials. `lemon help` says how.
#![tactic(auto)]

mod commands;
mod compiling;
mod denials;
mod files;
mod head;
mod joined;
mod rooms;
mod rule;
mod tables;
mod told;

fn main(rt: HostRuntime) {
    let mut word = [0u8; 4096];
    let length = files::argument(&rt, 1, &mut word);
    commands::run(&rt, &word[..length]);
}
