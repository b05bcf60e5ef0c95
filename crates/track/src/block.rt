// Finding a block's frames, and reading it.
ghost use Rattle.std.specs.Prelude.{◌≡◌, ℕ, ◌<◌, min, true, MatchResult};
ghost use Rattle.track.specs.Circles.{circle_of, frames};
ghost use Rattle.track.specs.Places.{data_place};
ghost use Rattle.track.specs.Shown.{shown, circle_bits};
ghost use Rattle.track.specs.Reading.{data_of, reading_result, reading_buffer, sought, at, missing, read_block};

use crate::circle::Circle;
use crate::room::DATA_BITS;
use crate::window::{Header, Window};
use disk::cause::*;
use disk::place::*;
use gcr::sum::*;

impl<'a> Window<'a> {
    // Reads the block that a data frame holds.
    fn data(&self, block: &mut [u8; 256]) -> Result<(), Cause>
        ensures answer { result ≡ reading_result (data_of (shown self.now)) }
        ensures buffer { block.new ≡ reading_buffer (data_of (shown self.now)) block.old }
    {
        if self.byte(0) != Some(7) {
            return Err(Cause::NoData);
        }
        if self.count < DATA_BITS {
            return Err(Cause::ShortFrame);
        }
        let mut bytes = [0; 256];
        for (k, byte) in bytes.iter_mut().enumerate() {
            *byte = self.byte(k as u16 + 1).ok_or(Cause::BadCode)?;
        }
        let sum = self.byte(257).ok_or(Cause::BadCode)?;
        if checksum(&bytes) != sum {
            return Err(Cause::BadChecksum);
        }
        *block = bytes;
        Ok(())
    }
}

impl<'a> Circle<'a> {
    // Finds the frame that holds the data of a block: it follows the one sound header that names the block.
    pub(crate) fn find(&self, wanted: Place) -> Result<Window<'a>, Cause>
        ensures { MatchResult result (λ w. (sought (frames (circle_bits self.now)) wanted.0 wanted.1 ≡ at (shown w)) × (w.turned.first < self.now.bits) × (data_place (circle_bits self.now) wanted.0 wanted.1 w.turned.first ≡ true)) (λ n. sought (frames (circle_bits self.now)) wanted.0 wanted.1 ≡ missing n) }
    {
        let mut frames = self.frames();
        let first = frames.next().ok_or(Cause::NoFrame)?;
        let mut coming = Some(first);
        let mut data = None;
        let mut unsound = false;
        // By `next` and no `for`, one frame ahead where a frame is the block's header: what follows it is the frame that comes, and none is looked for twice.
        while let Some(window) = coming {
            let Some(header) = window.header() else {
                coming = frames.next();
                continue;
            };
            match header {
                Header::Sound(place) if place == wanted => {
                    if data.is_some() {
                        return Err(Cause::TwoHeaders);
                    }
                    coming = frames.next();
                    data = Some(coming.unwrap_or(first));
                    continue;
                }
                Header::Unsound(place) if place == wanted => unsound = true,
                _ => {}
            }
            coming = frames.next();
        }
        data.ok_or(if unsound {
            Cause::BadHeader
        } else {
            Cause::NoHeader
        })
    }

    // Reads a block.
    pub fn read_block(&self, wanted: Place, block: &mut [u8; 256]) -> Result<(), Cause>
        ensures answer { result ≡ reading_result (read_block (frames (circle_bits self.now)) wanted.0 wanted.1) }
        ensures buffer { block.new ≡ reading_buffer (read_block (frames (circle_bits self.now)) wanted.0 wanted.1) block.old }
    {
        self.find(wanted)?.data(block)
    }
}

// Reads a block from the first `bits` bits of its track: of any bytes and any number, of which `Circle::new` takes as many as there are.
pub fn read_block(
    track: &[u8],
    bits: usize,
    wanted: Place,
    block: &mut [u8; 256],
) -> Result<(), Cause>
    ensures answer { result ≡ reading_result (read_block (frames (circle_of (min bits 65536) track.now)) wanted.0 wanted.1) }
    ensures buffer { block.new ≡ reading_buffer (read_block (frames (circle_of (min bits 65536) track.now)) wanted.0 wanted.1) block.old }
{
    Circle::new(track, bits).read_block(wanted, block)
}
