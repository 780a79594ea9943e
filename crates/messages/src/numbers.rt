// Numbers below 1,000,000 in decimal.
ghost use Rattle.std.specs.Prelude.{◌≡◌, ◌+◌, ◌%◌, ◌/◌};
ghost use Rattle.messages.specs.Adding.{Adds};
ghost use Rattle.messages.specs.Message.{digit as digit_of, short as short_of, three as three_of, decimal};

use crate::writing::put;

fn put_digit(n: usize, text: &mut [u8], at: usize) -> usize
    ensures { Adds text.old at (digit_of n) text.new result }
{
    put(b'0' + (n % 10) as u8, text, at)
}

fn add_three(n: usize, text: &mut [u8], at: usize) -> usize
    ensures { Adds text.old at (three_of n) text.new result }
{
    let tens = put_digit(n / 100, text, at);
    let ones = put_digit(n / 10, text, tens);
    put_digit(n, text, ones)
}

fn add_short(n: usize, text: &mut [u8], at: usize) -> usize
    ensures { Adds text.old at (short_of n) text.new result }
{
    if n < 10 {
        return put_digit(n, text, at);
    }
    if n < 100 {
        let ones = put_digit(n / 10, text, at);
        return put_digit(n, text, ones);
    }
    add_three(n, text, at)
}

pub fn add_number(n: usize, text: &mut [u8], at: usize) -> usize
    ensures { Adds text.old at (decimal n) text.new result }
{
    if n < 1000 {
        return add_short(n, text, at);
    }
    let next = add_short(n / 1000, text, at);
    add_three(n, text, next)
}
