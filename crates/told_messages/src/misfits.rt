// The messages of the reasons that a word does not fit, which crate rule_messages gives.
ghost use Rattle.std.specs.Prelude.{◌≡◌};
ghost use Rattle.catalogue.specs.Numbers.{text_of};
ghost use Rattle.told_messages.specs.Misfits.{reason_text, misfit_text, strange_text};

use catalogue::Message;
use grammar::Category;
use rule_messages::{Misfit, misfit_of, strange};

// The message of a reason.
fn reason(misfit: Misfit) -> Message
    ensures { text_of result ≡ reason_text misfit }
{
    match misfit {
        Misfit::Missing => Message::Missing,
        Misfit::Separator => Message::Separator,
        Misfit::Whole => Message::Whole,
        Misfit::Return => Message::CarriageReturn,
        Misfit::Tab => Message::Tab,
        Misfit::Mark => Message::OrderMark,
        Misfit::WideSpace => Message::WideSpace,
        Misfit::Bracket => Message::Bracket,
        Misfit::Capital => Message::Capital,
        Misfit::Named => Message::Named,
        Misfit::WatchedOnly => Message::WatchedOnly,
        Misfit::EnforcedOnly => Message::EnforcedOnly,
        Misfit::Unknown => Message::Unknown,
        Misfit::Misplaced => Message::Misplaced,
    }
}

// Why a word does not fit where something of a category is to come; the empty word where there is none. It may be the name of an action.
pub(crate) fn misfit_message(word: &[u8], expected: Category, named: bool) -> Message
    ensures { text_of result ≡ misfit_text word.now expected named }
{
    reason(misfit_of(word, expected, named))
}

// What a word has in it that no word has.
pub(crate) fn strange_message(word: &[u8]) -> Message
    ensures { text_of result ≡ strange_text word.now }
{
    match strange(word) {
        Some(misfit) => reason(misfit),
        None => Message::NothingComes,
    }
}
