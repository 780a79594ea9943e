// Numbers below 1,000 in decimal, without leading zeros.
ghost use Rattle.std.specs.Prelude.{◌≡◌, ◌++◌, ◌+◌, ◌≤◌, ◌<◌, length};
ghost use Rattle.text_writer.specs.Decimals.{decimal, digit as digit_of};

use crate::text::Text;

impl<const N: usize> Text<N> {
    fn put_digit(&mut self, value: usize)
        requires value_bound { value < 10 }
        requires room { length self.old < N }
        ensures { self.new ≡ self.old ++ digit_of value }
    {
        self.put(b'0' + value as u8);
    }

    pub fn put_number(&mut self, n: usize)
        requires n_bound { n < 1000 }
        requires room { length self.old + 3 ≤ N }
        ensures { self.new ≡ self.old ++ decimal n }
    {
        if 100 <= n {
            self.put_digit(n / 100);
        }
        if 10 <= n {
            self.put_digit(n / 10 % 10);
        }
        self.put_digit(n % 10);
    }
}
