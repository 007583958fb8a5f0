// Numbers in a line.
ghost use Rattle.std.specs.Prelude.{◌≡◌, Some};
ghost use Rattle.talk.specs.Numbers.{nibble_of, byte_of, one_more, count_of, number_of};

use std::marker::Model;

fn nibble(digit: u8) -> Option<u8>
    ensures { result ≡ nibble_of digit }
{
    char::from(digit).to_digit(16).map(|value| value as u8)
}

pub(crate) fn byte(text: &[u8]) -> Option<u8>
    ensures { result ≡ byte_of text.now }
{
    let [high, low] = text else {
        return None;
    };
    Some(16 * nibble(*high)? + nibble(*low)?)
}

// A number of at most 1000: all above 999 are out of range alike. Read digit by digit, since `parse` takes a plus sign,
// and a long number is no bad one here.
#[derive(Clone, Copy)]
pub(crate) struct Capped {
    n: u16,
}

impl Model for Capped {
    ghost use Rattle.std.specs.Prelude.{ℕ, ◌≤◌};

    ghost Value = { ℕ };

    ghost view = { λ c. c.n };

    ghost invariant = { λ c. c.n ≤ 1000 };

    ghost inverse = { λ n. record { n = n } };
}

impl Capped {
    pub(crate) fn get(self) -> u16
        ensures { result ≡ self }
    {
        self.n
    }

    // The number with one decimal digit more.
    fn with_digit(self, digit: u8) -> Option<Capped>
        ensures { result ≡ one_more (Some self) digit }
    {
        let value = char::from(digit).to_digit(10)?;
        Some(Capped {
            n: (10 * self.n + value as u16).min(1000),
        })
    }
}

pub(crate) fn count(digits: &[u8]) -> Option<Capped>
    ensures { result ≡ count_of digits.now }
{
    if digits.is_empty() {
        return None;
    }
    digits
        .iter()
        .fold(Some(Capped { n: 0 }), |n, digit| n?.with_digit(*digit))
}

pub(crate) fn number(text: &[u8]) -> Option<i16>
    ensures { result ≡ number_of text.now }
{
    match text {
        [b'-', digits @ ..] => Some(-(count(digits)?.n as i16)),
        digits => Some(count(digits)?.n as i16),
    }
}
