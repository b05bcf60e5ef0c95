// A G64 image as a medium: bits are laid into the bytes that a track has in the file.
ghost use Rattle.std.specs.Prelude.{◌≡◌, ℕ, true, length, take, if◌then◌else◌, nat_eq};
ghost use Rattle.disk.specs.Bytes.{Bytes};
ghost use Rattle.gcr.specs.Bits.{bits_of};
ghost use Rattle.track.specs.Laying.{laid_on, fits};
ghost use Rattle.g64.specs.Layout.{valid};
ghost use Rattle.g64.specs.Image.{given, circle_on};

use crate::image::*;
use crate::layout::*;
use disk::bytes::*;
use disk::refusal::*;
use laying::check::*;
use laying::lay::*;
use track::medium::*;

// Lays bits that fit on a track; the file is still an image, and no other track changes. By begin and length, since the track is known to have bits: `extent_of` would give an `Option` to take apart again.
fn lay_stored(file: &mut [u8], track: u8, start: usize, strip: Strip<'_>)
    requires given { given file.old track ≡ true }
    requires fits { fits (length (circle_on file.old track)) start strip.count (length strip.bytes.now) ≡ true }
    ensures small { Bytes file.new }
    ensures valid { valid file.new ≡ true }
    ensures circle { (u : ℕ) → circle_on file.new u ≡ (if nat_eq u track then laid_on start (take strip.entry.count (bits_of strip.entry.bytes.now)) (circle_on file.old u) else circle_on file.old u) }
{
    let begin = offset_of(file, track) + 2;
    let size = length_of(file, track);
    lay_bits(&mut file[begin..begin + size], 8 * size, start, strip);
    are_bytes(file);
}

impl TrackMedium for G64 {
    ghost protected = { λ s. s.protected };

    fn is_protected(&self) -> bool {
        self.protected
    }

    fn lay(&mut self, track: u8, start: usize, strip: Strip<'_>) -> Result<(), Refusal> {
        let size = self.bits_on(track);
        let Strip { bytes, count } = strip;
        lay_check(self.protected, size, track, start, count, bytes.len())?;
        lay_stored(self.image.as_mut_slice(), track, start, strip);
        Ok(())
    }
}
