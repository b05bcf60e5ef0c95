// The eight entries of a directory block.
ghost use Rattle.std.specs.Prelude.{◌≡◌, ◌<◌};
ghost use Rattle.directory.specs.Entries.{entry_of, is_of, slot_of};

use crate::kind::*;
use disk::place::*;

#[derive(Clone, Copy, Debug)]
pub struct Entry {
    pub status: Status,
    pub first: Place,
    pub name: [u8; 16],
    pub blocks: u16,
}

// The entry of a slot; slots of other blocks have the same places in theirs.
#[tactic(auto, unfolding(crate::specs::Entries::entry_of))]
pub fn entry_at(block: &[u8; 256], slot: usize) -> Entry
    ensures { result ≡ entry_of block.now slot }
{
    let at = 32 * (slot % 8);
    let mut name = [0; 16];
    name.copy_from_slice(&block[at + 5..at + 21]);
    Entry {
        status: Status::from(block[at + 2]),
        first: (block[at + 3], block[at + 4]),
        name,
        blocks: u16::from_le_bytes([block[at + 30], block[at + 31]]),
    }
}

// Whether the slot is filled and has the name.
#[tactic(auto, using(crate::proofs::Entries::named_by), unfolding(crate::specs::Entries::is_of))]
pub fn is_named(block: &[u8; 256], slot: usize, name: &[u8; 16]) -> bool
    ensures { result ≡ is_of block.now name.now slot }
{
    let entry = entry_at(block, slot);
    entry.status != Status::Empty && entry.name == *name
}

// The first filled slot of the name among the eight of a block.
pub fn named_slot(block: &[u8; 256], name: &[u8; 16]) -> Option<usize>
    ensures { result ≡ slot_of block.now name.now }
{
    (0..8).find(|slot| is_named(block, *slot, name))
}
