// Any medium of tracks as a device of blocks.
ghost use Rattle.std.specs.Prelude.{◌≡◌, ℕ, true, false, Err, MatchResult};
ghost use Rattle.disk.specs.Geometry.{legal};
ghost use Rattle.sector.specs.Device.{allowed, written};
ghost use Rattle.track.specs.Room.{FreeAt};
ghost use Rattle.laying.specs.Laws.{SameSyncs};
ghost use Rattle.decoder.specs.Decoding.{decoded};
ghost use Rattle.decoder.specs.Writing.{decoder_answers};

use crate::coder::*;
use crate::decoder::Decoder;
use disk::cause::*;
use disk::place::*;
use disk::refusal::*;
use sector::device::*;
use sector::source::*;
use track::circle::*;
use track::medium::*;
use track::room::*;
use track::source::*;

// The place on its track from which on the data of a block goes, or why it may not be written. Its steps are those of `read`, with the test of protection in between, so that no call would serve both.
fn find_room<M: TrackMedium>(medium: &M, place: Place) -> Result<usize, Refusal>
    ensures { MatchResult result (λ p. (legal place ≡ true) × (M.TrackMedium.protected medium.now ≡ false) × FreeAt (M.TrackSource.circle medium.now place.0) place.0 place.1 p) (λ e. Err e ≡ allowed (decoder_answers (M.TrackMedium.protected medium.now) (M.TrackSource.circle medium.now)) place) }
{
    if !exists(place) {
        return Err(fault_at(Cause::NoSuchBlock, place));
    }
    if medium.is_protected() {
        return Err(fault_at(Cause::Protected, place));
    }
    let mut buffer = [0; 8192];
    let bits = medium.fetch(place.0, &mut buffer)?;
    Circle::new(&buffer, bits)
        .data_start(place)
        .map_err(|cause| fault_at(cause, place))
}

impl<M: TrackMedium> SectorDevice for Decoder<M> {
    ghost answers = { λ d. decoder_answers (M.TrackMedium.protected d.source) (M.TrackSource.circle d.source) };

    fn ask(&self, place: Place) -> Result<(), Refusal> {
        find_room(&self.source, place)?;
        Ok(())
    }

    // No sync of any track comes, goes or changes.
    fn write(&mut self, place: Place, block: &[u8; 256]) -> Result<(), Refusal>
        ensures answer { result ≡ allowed (decoder_answers (M.TrackMedium.protected self.old.source) (M.TrackSource.circle self.old.source)) place }
        ensures contents { (q : ℕ × ℕ) → decoded (M.TrackSource.circle self.new.source) q ≡ written (decoder_answers (M.TrackMedium.protected self.old.source) (M.TrackSource.circle self.old.source)) (decoded (M.TrackSource.circle self.old.source)) place block.now q }
        ensures answers { (q : ℕ × ℕ) → decoder_answers (M.TrackMedium.protected self.new.source) (M.TrackSource.circle self.new.source) q ≡ decoder_answers (M.TrackMedium.protected self.old.source) (M.TrackSource.circle self.old.source) q }
        ensures syncs { (u : ℕ) → SameSyncs (M.TrackSource.circle self.old.source u) (M.TrackSource.circle self.new.source u) }
    {
        let start = find_room(&self.source, place)?;
        let strip = Strip {
            bytes: &data_block(block),
            count: DATA_BITS,
        };
        self.source.lay(place.0, start, strip)
    }
}
