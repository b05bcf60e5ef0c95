// CRC-32, as in zip and PNG files.
#![tactic(auto)]

ghost use Rattle.std.specs.Prelude.{◌≡◌};
ghost use Rattle.crc.specs.Crc.{shifted, fed, crc32};

#[cfg(test)]
mod tests;

// The register after one more bit, lowest bit first.
fn shifted(register: u32) -> u32
    ensures { result ≡ shifted register }
{
    if register & 1 == 1 {
        (register >> 1) ^ 0xedb8_8320
    } else {
        register >> 1
    }
}

// The register after one more byte.
fn fed(register: u32, byte: u8) -> u32
    ensures { result ≡ fed register byte }
{
    (0..u8::BITS).fold(register ^ u32::from(byte), |next, _| shifted(next))
}

pub fn crc32(bytes: &[u8]) -> u32
    ensures { result ≡ crc32 bytes.now }
{
    bytes
        .iter()
        .fold(0xffff_ffff, |register, byte| fed(register, *byte))
        ^ 0xffff_ffff
}
