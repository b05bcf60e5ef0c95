// Single bits of bytes, bit 0 being the highest of the first byte.
ghost use Rattle.std.specs.Prelude.{◌≡◌, ◌<◌, false, slice_index_or, slice_set};
ghost use Rattle.gcr.specs.Bits.{bits, bits_of};

// Bit `at` of the bytes; past their end it is false.
pub fn bit_at(bytes: &[u8], at: usize) -> bool
    ensures { result ≡ slice_index_or (bits_of bytes.now) at false }
{
    bytes
        .get(at / 8)
        .is_some_and(|byte| (byte >> (7 - at % 8)) % 2 == 1)
}

// A byte with one bit set.
fn with_bit(byte: u8, at: usize, bit: bool) -> u8
    requires { at < 8 }
    ensures { bits 8 result ≡ slice_set (bits 8 byte) at bit }
{
    let mask = 1 << (7 - at);
    if bit { byte | mask } else { byte & !mask }
}

// Sets bit `at` of the bytes; past their end nothing changes.
#[tactic(auto, using(crate::proofs::Sets::bits_of_set_at, crate::proofs::Sets::bits_of_set_past))]
pub fn set_bit(bytes: &mut [u8], at: usize, bit: bool)
    ensures { bits_of bytes.new ≡ slice_set (bits_of bytes.old) at bit }
{
    // By index: once a loan of `get_mut` ends, a proof knows no element of the bytes (tried; `returns-in-Some` stays open).
    if at / 8 < bytes.len() {
        bytes[at / 8] = with_bit(bytes[at / 8], at % 8, bit);
    }
}
