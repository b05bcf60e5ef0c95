// Where the tracks lie in a file, and whether it is an image.
// Functions of a file and a track, since `is_clear` looks at one track and runs over all later ones: a type for the pair would be made anew at each call.
ghost use Rattle.std.specs.Prelude.{◌≡◌, ◌<◌, ◌≤◌, ◌&&◌};
ghost use Rattle.g64.specs.Layout.{offset_of, length_of, extent_of, headed, inside, apart_from, all_inside, clear, all_clear, valid};

use crate::number::*;
use std::ops::Range;

// What the file's own table says of where a track begins, in which 0 stands for a track without bits; `extent_of` turns that into an `Option`.
#[tactic(auto, unfolding(crate::specs::Layout::offset_of))]
pub(crate) fn offset_of(file: &[u8], track: u8) -> usize
    ensures value { result ≡ offset_of file.now track }
    ensures small { result < 4294967296 }
{
    read32(file, 12 + 8 * usize::from(track.saturating_sub(1)))
}

// How many bytes a track has, its two bytes of length not counted.
#[tactic(auto, unfolding(crate::specs::Layout::length_of))]
pub(crate) fn length_of(file: &[u8], track: u8) -> usize
    ensures value { result ≡ length_of file.now track }
    ensures small { result < 65536 }
{
    read16(file, offset_of(file, track))
}

// Where a track that has bits lies, its two bytes of length first.
#[tactic(auto, unfolding(crate::specs::Layout::length_of))]
pub(crate) fn extent_of(file: &[u8], track: u8) -> Option<Range<usize>>
    ensures { result ≡ extent_of file.now track }
{
    match offset_of(file, track) {
        0 => None,
        begin => Some(begin..begin + 2 + read16(file, begin)),
    }
}

// Whether the file begins as an image does: the name, version 0, 84 entries.
fn has_head(file: &[u8]) -> bool
    ensures { result ≡ headed file.now }
{
    file.starts_with(b"GCR-1541\x00\x54")
}

// Whether a track, if it has bits, keeps to the room after the tables and to the largest size.
#[tactic(auto, unfolding(crate::specs::Layout::inside))]
fn is_inside(file: &[u8], track: u8) -> bool
    ensures { result ≡ inside file.now track }
{
    let Some(extent) = extent_of(file, track) else {
        return true;
    };
    let largest = read16(file, 10);
    684 <= extent.start && extent.len() <= 2 + largest && extent.end <= file.len()
}

// Whether a track that lies there and another one, if that has bits, share no byte.
fn is_apart(file: &[u8], own: &Range<usize>, other: u8) -> bool
    ensures { result ≡ apart_from own.now (extent_of file.now other) }
{
    match extent_of(file, other) {
        Some(extent) => own.end <= extent.start || extent.end <= own.start,
        None => true,
    }
}

// Whether no later track shares a byte with this one, which is looked up once for all of them.
fn is_clear(file: &[u8], track: u8) -> bool
    requires { track ≤ 35 }
    ensures { result ≡ clear file.now track }
{
    let Some(own) = extent_of(file, track) else {
        return true;
    };
    (track + 1..36).all(|other| is_apart(file, &own, other))
}

// Whether all tracks keep to that room, and no two share a byte.
// Two looks, not one: a file that is cut short is refused before any two tracks are compared.
fn all_fit(file: &[u8]) -> bool
    ensures { result ≡ (all_inside file.now && all_clear file.now) }
{
    (1..36).all(|track| is_inside(file, track)) && (1..36).all(|track| is_clear(file, track))
}

// Whether the file is an image.
#[tactic(auto, unfolding(crate::specs::Layout::valid))]
pub(crate) fn is_valid(file: &[u8]) -> bool
    ensures { result ≡ valid file.now }
{
    file.len() >= 684 && has_head(file) && read16(file, 10) <= 7928 && all_fit(file)
}
