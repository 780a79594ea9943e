// What comes at a place of a rule, in words.
ghost use Rattle.std.specs.Prelude.{◌≡◌};
ghost use Rattle.messages.specs.Adding.{Adds};
ghost use Rattle.rule_messages.specs.Told.{expected_text};

use grammar::Category;
use messages::add;

// The message of a category.
fn message(expected: Category) -> &'static [u8]
    ensures { result.now ≡ expected_text expected }
{
    match expected {
        Category::Text => b"a rule begins here: watch, enforce\n",
        Category::Watched =>
            b"a watched policy comes here: now, count, not, and, or, eventually, before, after, ignoring\n",
        Category::Enforced =>
            b"an enforced policy comes here: holds, not, and, or, always, before, after, fulfilling, ignoring\n",
        Category::Formula => b"a formula comes here: true, false, p0 to p15, not, and, or\n",
        Category::Number => b"a number comes here: 1 to 60, without a leading zero\n",
        Category::End => b"",
    }
}

// What comes at a place.
pub fn add_expected(expected: Category, text: &mut [u8], at: usize) -> usize
    ensures { Adds text.old at (expected_text expected) text.new result }
{
    add(message(expected), text, at)
}
