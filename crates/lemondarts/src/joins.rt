// The call that joins.
ghost use Rattle.lemondarts.specs.Joining.{JoinReturns};

use answers::join_number;

// Joins as many tables as `count` says, one after the other in `tables`, into `out`: the joined table's type, actions and rows, or a refusal. Both
// work areas are zero on return, save for refusal 14.
pub fn lemondarts_join(
    count: usize,
    tables: &[u8],
    out: &mut [u8],
    work: &mut [u8],
    values: &mut [u64],
) -> u64
    ensures { JoinReturns count tables.now out.old work.old values.old result out.new work.new values.new }
{
    join_number(joining::join(count, tables, out, work, values))
}
