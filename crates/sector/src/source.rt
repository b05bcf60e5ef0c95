// What gives the blocks of a disk, and reading one of them.
ghost use Rattle.std.specs.Prelude.{◌≡◌, ℕ};
ghost use Rattle.sector.specs.Source.{Reading, Whole, fault_at, loaded, answered, lent};

use disk::cause::*;
use disk::layer::*;
use disk::place::*;
use disk::refusal::*;

pub trait SectorSource {
    // What each block holds: its bytes, or the cause by which it is refused.
    ghost contents: { Self → ℕ × ℕ → Reading };

    // The block at `place`, into `block`, which a refusal leaves as it was.
    fn read(&self, place: Place, block: &mut [u8; 256]) -> Result<(), Refusal>
        ensures answer { result ≡ answered (loaded (contents self.now) place) }
        ensures buffer { block.new ≡ lent (loaded (contents self.now) place) block.old };

    // Bytes of a block are 256, and each is a byte.
    ghost whole: { (s : Self) (p : ℕ × ℕ) → Whole (contents s p) };
}

// The refusal of a block that a source does not give: a track without frames, which is the number 21 from any device, is the
// track's fault, any other the sector's.
pub fn fault_at(cause: Cause, place: Place) -> Refusal
    ensures { result ≡ fault_at cause place }
{
    let layer = match cause {
        Cause::NoFrame | Cause::Other(21) => Layer::Track,
        _ => Layer::Sector,
    };
    Refusal {
        cause,
        layer,
        place,
    }
}

// The block at `place`, as a value.
pub fn load<D: SectorSource>(disk: &D, place: Place) -> Result<[u8; 256], Refusal>
    ensures { result ≡ loaded (D.SectorSource.contents disk.now) place }
{
    let mut block = [0; 256];
    disk.read(place, &mut block)?;
    Ok(block)
}
