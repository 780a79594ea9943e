// The call that explains.
ghost use Rattle.lemondarts.specs.Explaining.{ExplainReturns};

use answers::explain_number;

// Names the first denied action of a list and the part of the rule that denies it: the node in the answer, the place in `place`; or that none is
// denied, or a refusal. Both work areas are zero on return, save for refusal 14.
pub fn lemondarts_explain(
    sheet: &[u8],
    actions: &[u8],
    place: &mut [u64],
    work: &mut [u8],
    values: &mut [u64],
) -> u64
    ensures { ExplainReturns sheet.now actions.now place.old work.old values.old result place.new work.new values.new }
{
    explain_number(explaining::explain(sheet, actions, place, work, values))
}
