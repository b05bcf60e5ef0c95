// The one answer of every call that does not do what it was asked.
ghost use Rattle.std.specs.Prelude.{◌≡◌, Some};
ghost use Rattle.disk.specs.Refusals.{by_image, by_caller, by_track, by_volume};
ghost use Rattle.disk.specs.Words.{refusal_shown};

use crate::cause::*;
use crate::layer::*;
use crate::place::*;
use std::fmt;

#[derive(Clone, Copy, Debug, PartialEq, Eq)]
pub struct Refusal {
    pub cause: Cause,
    pub layer: Layer,
    pub place: Place,
}

impl Refusal {
    // A fault of an image file, at no block. One maker for each layer: its name is no longer than the layer as an argument, and no other layer can be given.
    pub fn by_image(cause: Cause) -> Self
        ensures { result ≡ by_image cause }
    {
        Refusal {
            cause,
            layer: Layer::Image,
            place: (0, 0),
        }
    }

    // A fault of the call itself, at no block.
    pub fn by_caller(cause: Cause) -> Self
        ensures { result ≡ by_caller cause }
    {
        Refusal {
            cause,
            layer: Layer::Caller,
            place: (0, 0),
        }
    }

    // A fault of a track, at its sector 0.
    pub fn by_track(cause: Cause, track: u8) -> Self
        ensures { result ≡ by_track cause track }
    {
        Refusal {
            cause,
            layer: Layer::Track,
            place: (track, 0),
        }
    }

    // A fault of the volume, found at a block, or at 0/0 for none.
    pub fn by_volume(cause: Cause, place: Place) -> Self
        ensures { result ≡ by_volume cause place }
    {
        Refusal {
            cause,
            layer: Layer::Volume,
            place,
        }
    }
}

impl fmt::Display for Refusal {
    ghost output = { λ r. Some (refusal_shown r) };

    fn fmt<W: fmt::Write>(&self, f: &mut fmt::Formatter<W>) -> fmt::Result {
        let Refusal {
            cause,
            layer,
            place: (track, sector),
        } = *self;
        let (number, layer) = (u8::from(cause), u8::from(layer));
        write!(f, "FAULT {number} {layer} {track:02}/{sector:02}: {cause}")
    }
}
