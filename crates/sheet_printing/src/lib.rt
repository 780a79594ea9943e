// What compiling answers, as text.
#![tactic(auto)]

ghost use Rattle.compiler.specs.Calling.{answer_of};
ghost use Rattle.printing.specs.Printing.{outcome_of};
ghost use Rattle.sheet_printing.specs.SheetText.{PrintsAnswer, PrintsSheet};

use base::room;
use compiler::CompileError;
use limits::{NUMBERS_LENGTH, WORK_LENGTH};
use printing::{PrintError, print_refusal, print_table};
use table::{Header, LARGEST_TABLE};

// Prints an answer: the text of the table whose rows are `entries`, or of the refusal.
pub fn print_answer(
    compiled: Result<Header, CompileError>,
    entries: &[u8],
    text: &mut [u8],
) -> Result<usize, PrintError>
    ensures { PrintsAnswer entries.now text.old (answer_of compiled) (outcome_of result) text.new }
{
    match compiled {
        Ok(header) => print_table(header.mode, header.actions, header.rows, entries, text),
        Err(CompileError::ShortArea) => print_refusal(14, 0, text),
        Err(CompileError::Refused(refusal)) => print_refusal(
            refusal.number(),
            refusal.spot(),
            text,
        ),
    }
}

// Compiles a sheet, with areas of its own, and prints the answer to the front of `text`.
pub fn print_sheet(sheet: &[u8], text: &mut [u8]) -> Result<usize, PrintError>
    ensures { PrintsSheet sheet.now text.old (outcome_of result) text.new }
{
    let mut table = room::<u8, LARGEST_TABLE>(0);
    let mut work = room::<u8, WORK_LENGTH>(0);
    let mut values = room::<u64, NUMBERS_LENGTH>(0);
    let compiled = compiler::compile(sheet, &mut table, &mut work, &mut values);
    print_answer(compiled, &table[8..], text)
}
