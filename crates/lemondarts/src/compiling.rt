// The compiler's call.
ghost use Rattle.lemondarts.specs.Compiling.{CompileReturns};

use answers::compile_number;

// Compiles a sheet into `out`: its table's type, actions and rows, or a refusal. Both work areas are zero on return, save for refusal 14.
pub fn lemondarts_compile(sheet: &[u8], out: &mut [u8], work: &mut [u8], values: &mut [u64]) -> u64
    ensures { CompileReturns sheet.now out.old work.old values.old result out.new work.new values.new }
{
    compile_number(compiler::compile(sheet, out, work, values))
}
