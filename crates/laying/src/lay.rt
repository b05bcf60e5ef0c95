// Laying bits on the circle that bytes hold.
ghost use Rattle.std.specs.Prelude.{◌≡◌, ◌+◌, ◌-◌, ◌<◌, if◌then◌else◌, nat_le, drop};
ghost use Rattle.gcr.specs.Bits.{bits_of};
ghost use Rattle.track.specs.Circles.{circle_of};
ghost use Rattle.laying.specs.Laid.{laid_circle};

use crate::check::span_fits;
use gcr::single::*;
use track::medium::Strip;

// The place `at` places on from place `start` of a circle of `bits` bits. By cases, since it is asked for each bit: over a chain of the places up to the circle's end and those from its begin, laying takes a third more time.
fn place_on(bits: usize, start: usize, at: usize) -> usize
    requires start { start < bits }
    requires at { at < bits }
    ensures { result ≡ (if nat_le bits (start + at) then start + at - bits else start + at) }
{
    let left = bits - start;
    if at < left { start + at } else { at - left }
}

// Puts the bits of `strip` on the circle of the first `bits` bits of `track`, from bit `start` on and round its end. Where they do not fit, nothing changes.
// `bits` stands beside the bytes, since a circle need not fill its last byte.
pub fn lay_bits(track: &mut [u8], bits: usize, start: usize, strip: Strip<'_>)
    ensures circle { circle_of bits track.new ≡ laid_circle bits start strip.entry.count strip.entry.bytes.now track.old }
    ensures spare { drop bits (bits_of track.new) ≡ drop bits (bits_of track.old) }
{
    if bits.div_ceil(8) > track.len() || !span_fits(bits, start, strip.count, strip.bytes.len()) {
        return;
    }
    for at in 0..strip.count {
        set_bit(track, place_on(bits, start, at), bit_at(strip.bytes, at));
    }
}
