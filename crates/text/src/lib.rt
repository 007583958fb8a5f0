// Bytes as hexadecimal text.
#![tactic(auto)]

ghost use Rattle.std.specs.Prelude.{◌≡◌, ◌<◌, Some};
ghost use Rattle.text.specs.Hex.{hex_digit, hex, spaced};

use std::fmt;

// A byte as two lowercase digits.
#[derive(Clone, Copy)]
pub struct Hex(pub u8);

// Each byte as a space and two lowercase digits.
#[derive(Clone, Copy)]
pub struct HexBytes<'a>(pub &'a [u8]);

// A digit in lower case. (`{byte:02x}` writes both digits at once, but counts its padding each time: where bytes are most
// of a text, it took a quarter more time.)
fn digit(n: u8) -> char
    requires { n < 16 }
    ensures value { result ≡ hex_digit n }
    ensures ascii { result < 128 }
{
    char::from_digit(u32::from(n), 16).unwrap()
}

impl fmt::Display for Hex {
    ghost output = { λ h. Some (hex h.0) };

    fn fmt<W: fmt::Write>(&self, f: &mut fmt::Formatter<W>) -> fmt::Result {
        write!(f, "{}{}", digit(self.0 / 16), digit(self.0 % 16))
    }
}

impl<'a> fmt::Display for HexBytes<'a> {
    ghost output = { λ h. Some (spaced h.0.now) };

    #[tactic(auto, using(crate::proofs::Spacing::spacing))]
    fn fmt<W: fmt::Write>(&self, f: &mut fmt::Formatter<W>) -> fmt::Result {
        for &byte in self.0 {
            write!(f, " {}", Hex(byte))?;
        }
        Ok(())
    }
}
