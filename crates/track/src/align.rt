// Turning a circle: the first place right after a sync, and the bits written out from a place on.
ghost use Rattle.std.specs.Prelude.{◌≡◌, ℕ, ◌+◌, ◌*◌, ◌<◌, ◌≤◌, ◌∷◌, min, length, drop};
ghost use Rattle.track.specs.Circles.{circle_of, turned};
ghost use Rattle.track.specs.Fetching.{pack, laid};
ghost use Rattle.track.specs.Aligning.{first_start, pack_buffer};
ghost use Rattle.track.specs.Shown.{circle_bits, turned_bits};

use crate::circle::Circle;
use crate::turned::Turned;

impl<'a> Turned<'a> {
    // The eight bits of byte `k`; past the circle's end they are zeros, where `Window::byte` asks for no bit past its frame.
    fn packed_byte(&self, k: usize) -> u8
        requires { k * 8 < self.now.circle.bits }
        ensures { pack (drop (k * 8) (turned_bits self.now)) ≡ result ∷ pack (drop (k * 8 + 8) (turned_bits self.now)) }
    {
        // Bit by bit, as there: of a `fold` it stays open that its closure may be called with the number so far.
        let mut code = 0;
        for j in 0..8 {
            let i = k * 8 + j;
            let bit = i < self.circle.bits && self.bit(i);
            code = code * 2 + bit as u8;
        }
        code
    }

    // Writes the bits into a buffer that holds them, the last byte filled with zeros.
    fn pack(&self, buffer: &mut [u8])
        requires { 8192 ≤ length buffer.old }
        ensures { buffer.new ≡ laid (pack (turned_bits self.now)) buffer.old }
    {
        let count = self.circle.bits.div_ceil(8);
        for (k, byte) in buffer[..count].iter_mut().enumerate() {
            *byte = self.packed_byte(k);
        }
    }
}

impl<'a> Circle<'a> {
    // The first place right after a sync, or 0 where there is none: a circle turned to 0 stays as it is.
    pub fn first_start(&self) -> usize
        ensures place { result ≡ first_start (circle_bits self.now) }
        ensures small { result < 65536 }
    {
        self.next_start(0).unwrap_or(0)
    }

    // Writes the circle, turned to begin at bit `first`, into a buffer, the last byte filled with zeros. A buffer too small for any track stays as it is.
    pub fn pack_turned(&self, first: usize, buffer: &mut [u8])
        ensures { buffer.new ≡ pack_buffer (turned first (circle_bits self.now)) buffer.old }
    {
        if buffer.len() < 8192 {
            return;
        }
        // A circle turned past its end stays as it is, and one of no bits has none to write.
        if let Some(turned) = self.turned_at(first).or(self.turned_at(0)) {
            turned.pack(buffer);
        }
    }
}

// The first place right after a sync, or 0, of any bytes and any number of bits.
pub fn first_start(track: &[u8], bits: usize) -> usize
    ensures place { result ≡ first_start (circle_of (min bits 65536) track.now) }
    ensures small { result < 65536 }
{
    Circle::new(track, bits).first_start()
}

// Writes the circle of any bytes and any number of bits, turned to begin at bit `first`, as the method of that name does.
pub fn pack_turned(track: &[u8], bits: usize, first: usize, buffer: &mut [u8])
    ensures { buffer.new ≡ pack_buffer (turned first (circle_of (min bits 65536) track.now)) buffer.old }
{
    Circle::new(track, bits).pack_turned(first, buffer)
}
