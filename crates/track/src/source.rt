// What gives the bits of tracks.
ghost use Rattle.std.specs.Prelude.{◌≡◌, ℕ, ◌≤◌, Bool, List, length};
ghost use Rattle.track.specs.Fetching.{fetch_result, fetch_buffer};

use disk::refusal::*;

pub trait TrackSource {
    // The circle of bits of each track.
    ghost circle: { Self → ℕ → List Bool };

    // The bits of a track, into `buffer`, the last byte filled with zeros; how many bits they are. Later bytes of the buffer stay.
    fn fetch(&self, track: u8, buffer: &mut [u8]) -> Result<usize, Refusal>
        ensures answer { result ≡ fetch_result (circle self.now) track (length buffer.old) }
        ensures buffer { buffer.new ≡ fetch_buffer (circle self.now) track buffer.old };

    ghost bounded: { (s : Self) (t : ℕ) → length (circle s t) ≤ 65536 };
}
