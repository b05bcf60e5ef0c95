// Tracks, sectors and the order of the 683 blocks.
ghost use Rattle.std.specs.Prelude.{◌≡◌, ◌<◌, true, false, MatchOption};
ghost use Rattle.disk.specs.Geometry.{sectors_on, zone_of, legal, index_of, order_of, placed_at};

// Track and sector.
pub type Place = (u8, u8);

// How many blocks a disk has.
pub const BLOCKS: usize = 683;

// How many sectors a track has; 0 where there is no such track.
pub fn sector_count(track: u8) -> u8
    ensures { result ≡ sectors_on track }
{
    match track {
        1..=17 => 21,
        18..=24 => 19,
        25..=30 => 18,
        31..=35 => 17,
        _ => 0,
    }
}

// The speed zone of a track.
pub fn zone(track: u8) -> Option<u8>
    ensures { result ≡ zone_of track }
{
    match track {
        1..=17 => Some(3),
        18..=24 => Some(2),
        25..=30 => Some(1),
        31..=35 => Some(0),
        _ => None,
    }
}

// Whether the disk has a block there.
#[tactic(auto, unfolding(crate::specs::Geometry::legal))]
pub fn exists(place: Place) -> bool
    ensures { result ≡ legal place }
{
    place.1 < sector_count(place.0)
}

// The number of a block in place order, from 0.
#[tactic(auto, unfolding(crate::specs::Geometry::legal, crate::specs::Geometry::index_of, crate::specs::Geometry::order_of))]
pub fn block_index(place: Place) -> Option<usize>
    ensures value { result ≡ order_of place }
    ensures there { MatchOption result (legal place ≡ false) (λ i. (legal place ≡ true) × (i ≡ index_of place) × (i < 683)) }
{
    if !exists(place) {
        return None;
    }
    let (track, sector) = (usize::from(place.0), usize::from(place.1));
    let before = match track {
        0..=17 => (track - 1) * 21,
        18..=24 => 357 + (track - 18) * 19,
        25..=30 => 490 + (track - 25) * 18,
        _ => 598 + (track - 31) * 17,
    };
    Some(before + sector)
}

// The block of a number in place order; the other way round than `block_index`, by the same `match` with ranges.
#[tactic(auto, unfolding(crate::specs::Geometry::placed_at))]
pub fn block_place(index: usize) -> Option<Place>
    ensures { result ≡ placed_at index }
{
    match index {
        0..=356 => Some(((index / 21 + 1) as u8, (index % 21) as u8)),
        357..=489 => Some((((index - 357) / 19 + 18) as u8, ((index - 357) % 19) as u8)),
        490..=597 => Some((((index - 490) / 18 + 25) as u8, ((index - 490) % 18) as u8)),
        598..=682 => Some((((index - 598) / 17 + 31) as u8, ((index - 598) % 17) as u8)),
        _ => None,
    }
}
