// The calls of the crate lemondarts for C, as include/lemondarts.h declares them: a slice is a pointer and its length. `rt lib` writes the archive.
#![tactic(auto)]

ghost use Rattle.std.specs.Prelude.{◌≡◌};
ghost use Rattle.header_version.specs.Version.{version_number};
ghost use Rattle.view.specs.Steps.{put_on, take-off, act};
ghost use Rattle.lemondarts.specs.Compiling.{CompileReturns};
ghost use Rattle.lemondarts.specs.Explaining.{ExplainReturns};
ghost use Rattle.lemondarts.specs.Exports.{LoadReturns, NewBoardReturns, CallReturns};
ghost use Rattle.lemondarts.specs.Joining.{JoinReturns};
ghost use Rattle.lemondarts.specs.Texts.{TextReturns};

// The version of include/lemondarts.h, as one number.
#[unsafe(no_mangle)]
pub extern "C" fn lemondarts_version() -> u64
    ensures { result ≡ version_number }
{
    lemondarts::lemondarts_version()
}

// Loads a table: its type, actions and rows, or refusal 10 or 11.
#[unsafe(no_mangle)]
pub extern "C" fn lemondarts_load(table: &[u8]) -> u64
    ensures { LoadReturns table.now result }
{
    lemondarts::lemondarts_load(table)
}

// Compiles a sheet into `out`: its table's type, actions and rows, or a refusal. Both work areas are zero on return, save for refusal 14.
#[unsafe(no_mangle)]
pub extern "C" fn lemondarts_compile(
    sheet: &[u8],
    out: &mut [u8],
    work: &mut [u8],
    values: &mut [u64],
) -> u64
    ensures { CompileReturns sheet.now out.old work.old values.old result out.new work.new values.new }
{
    lemondarts::lemondarts_compile(sheet, out, work, values)
}

// Joins as many tables as `count` says, one after the other in `tables`, into `out`: the joined table's type, actions and rows, or a refusal. Both
// work areas are zero on return, save for refusal 14.
#[unsafe(no_mangle)]
pub extern "C" fn lemondarts_join(
    count: usize,
    tables: &[u8],
    out: &mut [u8],
    work: &mut [u8],
    values: &mut [u64],
) -> u64
    ensures { JoinReturns count tables.now out.old work.old values.old result out.new work.new values.new }
{
    lemondarts::lemondarts_join(count, tables, out, work, values)
}

// Names the first denied action of a list and the part of the rule that denies it: the node in the answer, the place in `place`; or that none is
// denied, or a refusal. Both work areas are zero on return, save for refusal 14.
#[unsafe(no_mangle)]
pub extern "C" fn lemondarts_explain(
    sheet: &[u8],
    actions: &[u8],
    place: &mut [u64],
    work: &mut [u8],
    values: &mut [u64],
) -> u64
    ensures { ExplainReturns sheet.now actions.now place.old work.old values.old result place.new work.new values.new }
{
    lemondarts::lemondarts_explain(sheet, actions, place, work, values)
}

// Reads a rule text as a sheet into `sheet`: the sheet's length, actions and nodes, or a refusal.
#[unsafe(no_mangle)]
pub extern "C" fn lemondarts_read_text(text: &[u8], actions: &[u16], sheet: &mut [u8]) -> u64
    ensures { TextReturns text.now actions.now sheet.old result sheet.new }
{
    lemondarts::lemondarts_read_text(text, actions, sheet)
}

// Makes a new board.
#[unsafe(no_mangle)]
pub extern "C" fn lemondarts_new_board(bytes: &mut [u8], area: &mut [u8]) -> u64
    ensures { NewBoardReturns bytes.old area.old result bytes.new area.new }
{
    lemondarts::lemondarts_new_board(bytes, area)
}

// Puts a table on a place.
#[unsafe(no_mangle)]
pub extern "C" fn lemondarts_put_on(
    bytes: &mut [u8],
    area: &mut [u8],
    place: usize,
    table: &[u8],
) -> u64
    ensures { CallReturns bytes.old area.old (put_on place table.now) result bytes.new area.new }
{
    lemondarts::lemondarts_put_on(bytes, area, place, table)
}

// Takes a table off its place.
#[unsafe(no_mangle)]
pub extern "C" fn lemondarts_take_off(bytes: &mut [u8], area: &mut [u8], place: usize) -> u64
    ensures { CallReturns bytes.old area.old (take-off place) result bytes.new area.new }
{
    lemondarts::lemondarts_take_off(bytes, area, place)
}

// Permits or denies an action. The area is only read.
#[unsafe(no_mangle)]
pub extern "C" fn lemondarts_action(bytes: &mut [u8], area: &[u8], action: usize) -> u64
    ensures { CallReturns bytes.old area.now (act action) result bytes.new area.now }
{
    lemondarts::lemondarts_action(bytes, area, action)
}
