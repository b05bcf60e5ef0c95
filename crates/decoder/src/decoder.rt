// Any source of tracks as a source of blocks.
ghost use Rattle.std.specs.Prelude.{◌≡◌};
ghost use Rattle.decoder.specs.Decoding.{decoded};
ghost use Rattle.decoder.specs.Wholes.{decoded_whole};

use disk::cause::*;
use disk::place::*;
use disk::refusal::*;
use sector::source::*;
use track::circle::*;
use track::source::*;

#[derive(Drop)]
pub struct Decoder<S> {
    pub(crate) source: S,
}

impl<S> Decoder<S> {
    pub fn new(source: S) -> Decoder<S>
        ensures { result.source ≡ source }
    {
        Decoder { source }
    }

    // Hands the source back.
    pub fn into_source(self) -> S
        ensures { result ≡ self.source }
    {
        self.source
    }
}

impl<S: TrackSource> SectorSource for Decoder<S> {
    ghost contents = { λ d. decoded (S.TrackSource.circle d.source) };

    ghost whole = { λ s p. decoded_whole (S.TrackSource.circle s.source) p };

    fn read(&self, place: Place, block: &mut [u8; 256]) -> Result<(), Refusal> {
        if !exists(place) {
            return Err(fault_at(Cause::NoSuchBlock, place));
        }
        let mut buffer = [0; 8192];
        let bits = self.source.fetch(place.0, &mut buffer)?;
        Circle::new(&buffer, bits)
            .read_block(place, block)
            .map_err(|cause| fault_at(cause, place))
    }
}
