// Frames as windows on a circle.
ghost use Rattle.std.specs.Prelude.{ℕ, ◌≤◌};

use crate::turned::Turned;
use disk::place::*;
use gcr::byte::*;

// A frame: the first `count` bits of a circle turned to its begin. It may run over the circle's end.
#[derive(Clone, Copy)]
pub(crate) struct Window<'a> {
    pub turned: Turned<'a>,
    pub count: usize,
    ghost within: { count ≤ turned.circle.bits },
}

// What a frame says as a header: the block that it names, and whether its checksum is right. No `Result`, since an unsound header is read as well as a sound one, and is looked at for the block that it names.
#[derive(Clone, Copy, Debug, PartialEq, Eq)]
pub(crate) enum Header {
    Sound(Place),
    Unsound(Place),
}

impl<'a> Window<'a> {
    ghost use Rattle.std.specs.Prelude.{◌≡◌, ◌<◌, false, slice_index_or};
    ghost use Rattle.std.specs.Option.{option_map};
    ghost use Rattle.track.specs.Headers.{byte_at, header};
    ghost use Rattle.track.specs.Shown.{shown, said};

    // Bit `i` of the frame.
    pub(crate) fn bit(&self, i: usize) -> bool
        requires { i < self.now.count }
        ensures { result ≡ slice_index_or (shown self.now) i false }
    {
        self.turned.bit(i)
    }

    // Coded byte `k` of the frame.
    pub(crate) fn byte(&self, k: u16) -> Option<u8>
        ensures { result ≡ byte_at (shown self.now) k }
    {
        let from = k as usize * 10;
        if self.count < from + 10 {
            return None;
        }
        // Bit by bit: of a `fold` it stays open that its closure may be called with the number so far.
        let mut code = 0;
        for j in 0..10 {
            code = code * 2 + self.bit(from + j) as u16;
        }
        decode(code)
    }

    // What the frame says as a header.
    pub(crate) fn header(&self) -> Option<Header>
        ensures { option_map said result ≡ header (shown self.now) }
    {
        let mark = self.byte(0)?;
        let sum = self.byte(1)?;
        let sector = self.byte(2)?;
        let track = self.byte(3)?;
        let id2 = self.byte(4)?;
        let id1 = self.byte(5)?;
        if mark != 8 {
            return None;
        }
        let place = (track, sector);
        Some(if sum == sector ^ track ^ id2 ^ id1 {
            Header::Sound(place)
        } else {
            Header::Unsound(place)
        })
    }
}
