// What gives the tracks of a disk and can be written.
ghost use Rattle.std.specs.Prelude.{◌≡◌, ℕ, Bool, length};
ghost use Rattle.track.specs.Laying.{lay_result, lay_circle};

use crate::source::TrackSource;
use disk::refusal::*;

// Bits to be laid on a track: the first `count` bits of `bytes`. Any count may be asked for; laying refuses one that the bytes do not have.
#[derive(Clone, Copy, Debug)]
pub struct Strip<'a> {
    pub bytes: &'a [u8],
    pub count: usize,
}

pub trait TrackMedium: TrackSource {
    // Whether it is write protected; no call changes that.
    ghost protected: { Self → Bool };

    fn is_protected(&self) -> bool
        ensures { result ≡ protected self.now };

    // Puts the bits of `strip` on a track's circle, from bit `start` on and round its end. No other bit of any track changes. `start` is no part of the strip, since a medium may lay the same strip elsewhere than it was asked to.
    fn lay(&mut self, track: u8, start: usize, strip: Strip<'_>) -> Result<(), Refusal>
        ensures answer { result ≡ lay_result (protected self.old) (length (Self.TrackSource.circle self.old track)) track start strip.entry.count (length strip.entry.bytes.now) }
        ensures circle { (u : ℕ) → Self.TrackSource.circle self.new u ≡ lay_circle (protected self.old) (Self.TrackSource.circle self.old) track start strip.entry.count strip.entry.bytes.now u }
        ensures protected { protected self.new ≡ protected self.old };
}
