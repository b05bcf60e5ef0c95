// A D64 image that owns its bytes.
ghost use Rattle.std.specs.Prelude.{◌≡◌, ◌+◌, ◌≤◌, length, vec_len};
ghost use Rattle.std.proofs.Math.Seq.{paste};
ghost use Rattle.disk.specs.Bytes.{Bytes};
ghost use Rattle.d64.specs.Image.{answers_of, begin_of, block_at, checked_length, writable_at};
ghost use Rattle.d64.specs.Blocks.{whole_block};

use disk::bytes::*;
use disk::cause::*;
use disk::file::*;
use disk::place::*;
use disk::refusal::*;
use sector::device::*;
use sector::source::*;

// How many bytes an image has: 683 blocks of 256.
pub const LENGTH: usize = 174_848;

#[derive(Drop)]
pub struct D64 {
    image: Vec<u8>,
    protected: bool,
    ghost small: { Bytes image.items },
}

impl ImageFile for D64 {
    ghost checked = { λ f. checked_length (length f) };

    ghost bytes = { λ d. d.image };

    ghost locked = { λ d. d.protected };

    fn check(file: &[u8]) -> Result<(), Refusal> {
        if file.len() != LENGTH {
            return Err(Refusal::by_image(Cause::BadImage));
        }
        Ok(())
    }

    // Of a wrong length, each block of it has no header.
    fn new(image: Vec<u8>, protected: bool) -> D64 {
        are_bytes(image.as_slice());
        D64 { image, protected }
    }

    fn is_protected(&self) -> bool {
        self.protected
    }

    fn into_bytes(self) -> Vec<u8> {
        self.image
    }
}

// Copies a block over the bytes from `at` on.
fn put_block(image: &mut Vec<u8>, at: usize, block: &[u8; 256])
    requires { at + 256 ≤ vec_len image.old }
    ensures items { image.new.items ≡ paste image.old.items at block.now 256 }
    ensures small { Bytes image.new.items }
{
    image.as_mut_slice()[at..at + 256].copy_from_slice(block);
    are_bytes(image.as_slice());
}

impl D64 {
    // Where a block begins, or the refusal of reading it.
    #[tactic(auto, unfolding(crate::specs::Image::begin_of))]
    fn begin_of(&self, place: Place) -> Result<usize, Refusal>
        ensures { result ≡ begin_of self.now.image.items place }
    {
        let index = block_index(place).ok_or(fault_at(Cause::NoSuchBlock, place))?;
        if self.image.len() != LENGTH {
            return Err(fault_at(Cause::NoHeader, place));
        }
        Ok(256 * index)
    }

    // Where a block begins that may be written, or the refusal of writing it.
    #[tactic(auto, unfolding(crate::specs::Image::writable_at))]
    fn writable_at(&self, place: Place) -> Result<usize, Refusal>
        ensures { result ≡ writable_at self.now.image.items self.now.protected place }
    {
        if self.protected && exists(place) {
            return Err(fault_at(Cause::Protected, place));
        }
        self.begin_of(place)
    }
}

impl SectorSource for D64 {
    ghost contents = { λ s. block_at s.image.items };

    ghost whole = { λ s p. whole_block s.image.items s.small p };

    #[tactic(auto, using(crate::proofs::Begins::loads))]
    fn read(&self, place: Place, block: &mut [u8; 256]) -> Result<(), Refusal> {
        let at = self.begin_of(place)?;
        block.copy_from_slice(&self.image.as_slice()[at..at + 256]);
        Ok(())
    }
}

impl SectorDevice for D64 {
    ghost answers = { λ s. answers_of s.image.items s.protected };

    #[tactic(auto, using(crate::proofs::Begins::allows))]
    fn ask(&self, place: Place) -> Result<(), Refusal> {
        self.writable_at(place)?;
        Ok(())
    }

    #[tactic(auto, using(crate::proofs::Begins::allows))]
    fn write(&mut self, place: Place, block: &[u8; 256]) -> Result<(), Refusal> {
        let at = self.writable_at(place)?;
        put_block(&mut self.image, at, block);
        Ok(())
    }
}
