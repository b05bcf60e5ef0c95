// What holds the blocks of a disk and can be written.
ghost use Rattle.std.specs.Prelude.{◌≡◌, ℕ};
ghost use Rattle.sector.specs.Device.{Answer, allowed, written};

use crate::source::SectorSource;
use disk::place::*;
use disk::refusal::*;

pub trait SectorDevice: SectorSource {
    // Whether each block may be written, or the cause by which it may not; no write changes that.
    ghost answers: { Self → ℕ × ℕ → Answer };

    // Whether the block at `place` may be written.
    fn ask(&self, place: Place) -> Result<(), Refusal>
        ensures { result ≡ allowed (answers self.now) place };

    // Makes these bytes the contents of the block at `place`, and changes no other block.
    fn write(&mut self, place: Place, block: &[u8; 256]) -> Result<(), Refusal>
        ensures answer { result ≡ allowed (answers self.old) place }
        ensures contents { (q : ℕ × ℕ) → Self.SectorSource.contents self.new q ≡ written (answers self.old) (Self.SectorSource.contents self.old) place block.now q }
        ensures answers { (q : ℕ × ℕ) → answers self.new q ≡ answers self.old q };
}
