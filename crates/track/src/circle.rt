// A track as a circle of bits.
ghost use Rattle.std.specs.Prelude.{ℕ, ◌*◌, ◌≤◌, length};

// The circle of the first `bits` bits of a track's bytes; no track has more than 65,536.
#[derive(Clone, Copy)]
pub struct Circle<'a> {
    pub bytes: &'a [u8],
    pub bits: usize,
    pub ghost held: { bits ≤ length bytes.now * 8 },
    pub ghost small: { bits ≤ 65536 },
}

impl<'a> Circle<'a> {
    ghost use Rattle.std.specs.Prelude.{◌≡◌, ◌<◌, false, min, slice_index_or};
    ghost use Rattle.gcr.specs.Bits.{bits_of};
    ghost use Rattle.track.specs.Circles.{circle_of};
    ghost use Rattle.track.specs.Shown.{circle_bits};

    // As many of the wanted bits as the bytes hold, and no more than a track has.
    pub fn new(bytes: &'a [u8], bits: usize) -> Circle<'a>
        ensures { circle_bits result ≡ circle_of (min bits 65536) bytes.now }
    {
        let held = bits.min(65536).min(bytes.len().min(8192) * 8);
        Circle { bytes, bits: held }
    }

    // Bit `at` of the circle's bytes. By index, where gcr's `bit_at` asks for each bit whether the bytes have it: a circle's do.
    pub(crate) fn bit(&self, at: usize) -> bool
        requires { at < self.now.bits }
        ensures { result ≡ slice_index_or (bits_of self.now.bytes.now) at false }
    {
        (self.bytes[at / 8] >> (7 - at % 8)) % 2 == 1
    }
}
