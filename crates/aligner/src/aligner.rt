// Any track source or medium as another, each circle turned to begin right after a sync.
ghost use Rattle.std.specs.Prelude.{◌≡◌, ℕ, ◌≤◌, if◌then◌else◌, slice_index};
ghost use Rattle.track.specs.Circles.{turned};
ghost use Rattle.track.specs.Fetching.{on_disk};
ghost use Rattle.track.specs.Aligning.{first_start};
ghost use Rattle.aligner.specs.Turning.{unturned, turned_bounded};

use disk::cause::*;
use disk::refusal::*;
use track::circle::*;
use track::medium::*;
use track::source::*;

// The place on each track where its circle begins, by the track's number; none for number 0.
#[derive(Drop)]
pub struct Aligner<S> {
    source: S,
    starts: [u16; 36],
}

// The first place of a track right after a sync, or 0 where there is none or no such track.
fn start_of<S: TrackSource>(source: &S, track: u8) -> u16
    ensures { result ≡ (if on_disk track then first_start (S.TrackSource.circle source.now track) else 0) }
{
    let mut plain = [0; 8192];
    let Ok(bits) = source.fetch(track, &mut plain) else {
        return 0;
    };
    Circle::new(&plain, bits).first_start() as u16
}

impl<S: TrackSource> Aligner<S> {
    // Fetches each track once, for its start. Number 0 is no track, and its start is 0.
    pub fn new(source: S) -> Aligner<S>
        ensures kept { result.source ≡ source }
        ensures starts { (t : ℕ) → 1 ≤ t → t ≤ 35 → slice_index result.starts t ≡ first_start (S.TrackSource.circle source t) }
    {
        let starts = std::array::from_fn(|track| start_of(&source, track as u8));
        Aligner { source, starts }
    }

    pub fn into_source(self) -> S
        ensures { result ≡ self.source }
    {
        self.source
    }
}

impl<S: TrackSource> TrackSource for Aligner<S> {
    ghost circle = { λ a t. turned (slice_index a.starts t) (S.TrackSource.circle a.source t) };

    ghost bounded = { λ s t. turned_bounded (slice_index s.starts t) (S.TrackSource.circle s.source t) (S.TrackSource.bounded s.source t) };

    fn fetch(&self, track: u8, buffer: &mut [u8]) -> Result<usize, Refusal> {
        let mut plain = [0; 8192];
        let bits = self.source.fetch(track, &mut plain)?;
        if buffer.len() < 8192 {
            return Err(Refusal::by_caller(Cause::ShortBuffer));
        }
        let first = self.starts[track as usize] as usize;
        Circle::new(&plain, bits).pack_turned(first, buffer);
        Ok(bits)
    }
}

// Place `start` of a circle of `size` bits that is turned to begin at place `first`, as a place of the circle itself. Past the circle's end no place has another name.
// By cases: `(first + start) % size` would need a bound on the sum, which no parameter gives. Not by the cases of track's `Turned::bit`, which knows that both numbers are in range and is run for each bit.
fn place_of(size: usize, first: usize, start: usize) -> usize
    ensures { result ≡ unturned size first start }
{
    if first >= size || start >= size {
        start
    } else if start < size - first {
        first + start
    } else {
        start - (size - first)
    }
}

impl<M: TrackMedium> TrackMedium for Aligner<M> {
    ghost protected = { λ a. M.TrackMedium.protected a.source };

    fn is_protected(&self) -> bool {
        self.source.is_protected()
    }

    fn lay(&mut self, track: u8, start: usize, strip: Strip<'_>) -> Result<(), Refusal> {
        let mut plain = [0; 8192];
        let size = self.source.fetch(track, &mut plain)?;
        let first = self.starts[track as usize] as usize;
        self.source.lay(track, place_of(size, first, start), strip)
    }
}
