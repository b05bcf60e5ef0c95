// The ten-bit codes of bytes, high nibble first.
ghost use Rattle.std.specs.Prelude.{◌≡◌, ◌<◌};
ghost use Rattle.gcr.specs.Bits.{bits};
ghost use Rattle.gcr.specs.Codes.{byte_of, ten_of, ten};

use crate::nibble::*;

// The byte that a ten-bit code stands for, if it stands for one.
pub fn decode(code: u16) -> Option<u8>
    ensures { result ≡ byte_of code }
{
    if code > 1023 {
        return None;
    }
    let high = nibble((code / 32) as u8)?;
    let low = nibble((code % 32) as u8)?;
    Some(high * 16 + low)
}

// The ten-bit code of a byte.
pub fn encode(byte: u8) -> u16
    ensures value { result ≡ ten_of byte }
    ensures small { result < 1024 }
    ensures ten { bits 10 result ≡ ten byte }
{
    u16::from(code(byte / 16)) * 32 + u16::from(code(byte % 16))
}
