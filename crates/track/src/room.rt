// Where on its track a block is written.
ghost use Rattle.std.specs.Prelude.{◌≡◌, min, Err, MatchResult};
ghost use Rattle.track.specs.Circles.{circle_of, frames};
ghost use Rattle.track.specs.Room.{room_for, FreeAt};
ghost use Rattle.track.specs.Shown.{circle_bits};

use crate::circle::Circle;
use disk::cause::*;
use disk::place::*;

// The fewest bits of a frame that takes a data block: 260 coded bytes.
pub const DATA_BITS: usize = 2600;

impl<'a> Circle<'a> {
    // The place from which on the data of a block goes, or why it cannot be written.
    pub fn data_start(&self, wanted: Place) -> Result<usize, Cause>
        ensures { MatchResult result (λ p. FreeAt (circle_bits self.now) wanted.0 wanted.1 p) (λ e. room_for (frames (circle_bits self.now)) wanted.0 wanted.1 ≡ Err e) }
    {
        let window = self.find(wanted)?;
        if window.header().is_some() {
            return Err(Cause::NoData);
        }
        if window.count < DATA_BITS {
            return Err(Cause::ShortFrame);
        }
        Ok(window.turned.first)
    }
}

// The same from any bytes and any number of bits.
pub fn data_start(track: &[u8], bits: usize, wanted: Place) -> Result<usize, Cause>
    ensures { MatchResult result (λ p. FreeAt (circle_of (min bits 65536) track.now) wanted.0 wanted.1 p) (λ e. room_for (frames (circle_of (min bits 65536) track.now)) wanted.0 wanted.1 ≡ Err e) }
{
    Circle::new(track, bits).data_start(wanted)
}
