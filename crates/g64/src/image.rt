// A G64 image that owns its bytes.
ghost use Rattle.std.specs.Prelude.{◌≡◌, ◌<◌, ◌≤◌, length};
ghost use Rattle.g64.specs.Layout.{valid};
ghost use Rattle.disk.specs.Bytes.{Bytes};
ghost use Rattle.g64.specs.Image.{stored_on, circle_on, checked};
ghost use Rattle.g64.specs.Stored.{circle_small};
ghost use Rattle.track.specs.Fetching.{on_disk};

use crate::layout::*;
use disk::bytes::*;
use disk::cause::*;
use disk::file::*;
use disk::refusal::*;
use track::source::*;

// `sound` holds what the check said, so that a fetch need not check again. It is a flag beside the bytes, and no `Option` of them, since bytes that fail the check are kept too, to be handed back.
#[derive(Drop)]
pub struct G64 {
    pub(crate) image: Vec<u8>,
    pub(crate) protected: bool,
    sound: bool,
    ghost small: { Bytes image.items },
    ghost known: { sound ≡ valid image.items },
}

impl ImageFile for G64 {
    ghost checked = { checked };

    ghost bytes = { λ d. d.image };

    ghost locked = { λ d. d.protected };

    fn check(file: &[u8]) -> Result<(), Refusal> {
        if !is_valid(file) {
            return Err(Refusal::by_image(Cause::BadImage));
        }
        Ok(())
    }

    // Where the check fails, no track has bits.
    fn new(image: Vec<u8>, protected: bool) -> G64 {
        are_bytes(image.as_slice());
        let sound = is_valid(image.as_slice());
        G64 {
            image,
            protected,
            sound,
        }
    }

    fn is_protected(&self) -> bool {
        self.protected
    }

    fn into_bytes(self) -> Vec<u8> {
        self.image
    }
}

// Whether the disk has a track.
fn is_on_disk(track: u8) -> bool
    ensures { result ≡ on_disk track }
{
    (1..=35).contains(&track)
}

impl G64 {
    // The bytes of a track.
    fn stored(&self, track: u8) -> &[u8]
        ensures value { result.now ≡ stored_on self.now.image.items track }
        ensures small { length result.now ≤ 7928 }
    {
        let file = self.image.as_slice();
        if !self.sound || !is_on_disk(track) {
            return &[];
        }
        match extent_of(file, track) {
            Some(extent) => &file[extent.start + 2..extent.end],
            None => &[],
        }
    }

    // How many bits a track has.
    pub(crate) fn bits_on(&self, track: u8) -> usize
        ensures { result ≡ length (circle_on self.now.image.items track) }
    {
        8 * self.stored(track).len()
    }
}

impl TrackSource for G64 {
    ghost circle = { λ s. circle_on s.image.items };

    ghost bounded = { λ s t. circle_small s.image.items t };

    fn fetch(&self, track: u8, buffer: &mut [u8]) -> Result<usize, Refusal> {
        if !is_on_disk(track) {
            return Err(Refusal::by_track(Cause::NoSuchBlock, track));
        }
        if buffer.len() < 8192 {
            return Err(Refusal::by_caller(Cause::ShortBuffer));
        }
        let bytes = self.stored(track);
        let count = bytes.len();
        buffer[..count].copy_from_slice(bytes);
        Ok(8 * count)
    }
}
