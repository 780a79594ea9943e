// Reads a rule sheet from standard input and prints its table, or its refusal.
#![tactic(auto)]

// The buffer holds one byte more than the longest sheet: longer input fills it, and is refused by its length.
fn main(rt: HostRuntime) {
    let mut input = standard_streams::large_buffer();
    let mut text = printing::room();
    let length = standard_streams::read_full(&rt, &mut input);
    let printed = sheet_printing::print_sheet(&input[..length], &mut text);
    standard_streams::write_all(&rt, printing::written(printed, &text));
}
