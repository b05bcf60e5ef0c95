// Bytes as hexadecimal digits.
ghost use Rattle.std.specs.Prelude.{◌≡◌, ◌<◌, Some};
ghost use Rattle.commands.specs.Hex.{hex_digit, hex_byte, hex_line};

use std::fmt;

// The lowercase digit of a number below 16.
fn hex_digit(number: u8) -> char
    requires { number < 16 }
    ensures value { result ≡ hex_digit number }
    ensures ascii { result < 128 }
{
    match number {
        0..=9 => char::from(b'0' + number),
        _ => char::from(b'a' + (number - 10)),
    }
}

// A byte as two digits. Not by `{:02x}`, which takes a quarter more time on a long name.
#[derive(Clone, Copy)]
pub struct HexByte(pub u8);

impl fmt::Display for HexByte {
    ghost output = { λ b. Some (hex_byte b.0) };

    fn fmt<W: fmt::Write>(&self, f: &mut fmt::Formatter<W>) -> fmt::Result {
        let high = hex_digit(self.0 / 16);
        let low = hex_digit(self.0 % 16);
        write!(f, "{high}{low}")
    }
}

// Bytes, each as two digits, with a blank between any two.
#[derive(Clone, Copy)]
pub struct HexLine<'a>(pub &'a [u8]);

impl fmt::Display for HexLine<'_> {
    ghost output = { λ l. Some (hex_line l.0.now) };

    fn fmt<W: fmt::Write>(&self, f: &mut fmt::Formatter<W>) -> fmt::Result {
        let &[first, ref rest @ ..] = self.0 else {
            return Ok(());
        };
        write!(f, "{}", HexByte(first))?;
        for &byte in rest {
            write!(f, " {}", HexByte(byte))?;
        }
        Ok(())
    }
}
