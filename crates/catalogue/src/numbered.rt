// What stands for a number of the catalogue: a message, or the number itself.
ghost use Rattle.std.specs.Prelude.{◌≡◌, ℕ};
ghost use Rattle.catalogue.specs.Numbers.{number_of};

use crate::Message;

pub trait Numbered: Copy {
    ghost number: { Self → ℕ };

    fn number(self) -> usize
        ensures { result ≡ number self };
}

impl Numbered for Message {
    ghost number = { number_of };

    fn number(self) -> usize {
        Message::number(self)
    }
}

// No message has a number past the end of the catalogue.
impl Numbered for usize {
    ghost number = { λ number. number };

    fn number(self) -> usize {
        self
    }
}
