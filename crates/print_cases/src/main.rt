// Prints the answers to inputs of 0 and 9 bytes, to a sheet of 65,535 bytes, and to the same with a byte more, as print_table does.
#![tactic(auto)]

use base::room;

// The text of what the first `length` bytes of an input get.
fn show(rt: &impl Print, input: &[u8], length: usize) {
    let Some(sheet) = input.get(..length) else {
        return;
    };
    let mut text = printing::room();
    let printed = sheet_printing::print_sheet(sheet, &mut text);
    standard_streams::write_all(rt, printing::written(printed, &text));
}

// A sheet of one action and two nodes, `true` and Holds 0, with the longest total; what stands behind its lists is not read.
fn main(rt: HostRuntime) {
    let mut input = room::<u8, 65536>(0);
    input[..22].copy_from_slice(
        b"\x01\x00\x02\x00\x0a\x00\x0c\x00\xff\xff\x00\x00\x01\x00\x00\x00\x00\x0b\x00\x00\x00\x00",
    );
    for length in [0, 9, 65535, 65536] {
        show(&rt, &input, length);
    }
}
