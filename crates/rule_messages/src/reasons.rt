// Why a word does not fit, in words: a message for each reason.
ghost use Rattle.std.specs.Prelude.{◌≡◌};
ghost use Rattle.messages.specs.Adding.{Adds};
ghost use Rattle.rule_messages.specs.Told.{misfit_message, misfit_text};

use crate::Misfit;
use messages::fill;

// The message of a reason.
fn message(misfit: Misfit) -> &'static [u8]
    ensures { result.now ≡ misfit_message misfit }
{
    match misfit {
        Misfit::Missing => b"the rule ends too soon\n",
        Misfit::Separator => b"@ separates two rules, and stands on a line of its own\n",
        Misfit::Whole =>
            b"the rule is whole before @: a word that joins two parts, such as and, stands before both of them; two rules are separated by a line ---\n",
        Misfit::Return =>
            b"@ has a carriage return (\\x0d) in it, as lines end on Windows: save the file with newlines alone\n",
        Misfit::Tab => b"@ has a tab (\\x09) in it: words are separated by spaces and newlines\n",
        Misfit::Mark =>
            b"@ has a byte order mark (\\xef\\xbb\\xbf) in it: save the file without one\n",
        Misfit::WideSpace =>
            b"@ has a non-breaking space (\\xc2\\xa0) in it: words are separated by spaces and newlines\n",
        Misfit::Bracket =>
            b"@ has a bracket in it: the rule language has none, since each word stands before its parts\n",
        Misfit::Capital => b"@ has a capital letter in it: words are written in small letters\n",
        Misfit::Named =>
            b"@ is the name of an action: a rule is written with the action's propositions\n",
        Misfit::WatchedOnly =>
            b"@ can be watched, and not enforced: begin the rule with watch, or give it a limit (fulfilling 10 ..)\n",
        Misfit::EnforcedOnly =>
            b"@ can be enforced, and not watched: begin the rule with enforce\n",
        Misfit::Unknown => b"@ is not a word of the rule language\n",
        Misfit::Misplaced => b"@ does not fit here\n",
    }
}

// Why a word does not fit.
pub fn add_misfit(misfit: Misfit, word: &[u8], text: &mut [u8], at: usize) -> usize
    ensures { Adds text.old at (misfit_text misfit word.now) text.new result }
{
    fill(message(misfit), 0, 0, word, text, at)
}
