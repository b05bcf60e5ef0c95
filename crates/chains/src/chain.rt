// What following blocks gives.
ghost use Rattle.std.specs.Prelude.{◌<◌, ◌≤◌, length};

use arrayvec::ArrayVec;
use disk::place::*;

// The blocks that were followed, in order, and the bytes of the last of them. A proof knows no more of a vector than its items, so `few` says for how many it has room.
#[derive(Drop)]
pub struct Chain {
    pub places: ArrayVec<Place, 683>,
    pub block: [u8; 256],
    pub ghost some: { 0 < length places.items },
    pub ghost few: { length places.items ≤ 683 },
}
