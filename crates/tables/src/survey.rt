// The survey: how each block of a disk reads.
ghost use Rattle.std.specs.Prelude.{◌≡◌, ◌<◌, length, Err};
ghost use Rattle.tables.specs.Tables.{fill_result};
ghost use Rattle.tables.specs.Surveys.{found, found_at, surveyed};

use crate::table::*;
use disk::place::*;
use disk::refusal::*;
use sector::source::*;

// Number and layer of a block's refusal, or zeros for a block that reads: numbers and no `Option`, since that is how the survey's table is laid down.
#[derive(Clone, Copy, Debug, Default, PartialEq, Eq)]
pub struct Finding {
    pub number: u8,
    pub layer: u8,
}

impl From<Refusal> for Finding {
    ghost from_gives = { λ refusal finding. finding ≡ found (Err refusal) };

    fn from(refusal: Refusal) -> Finding {
        Finding {
            number: u8::from(refusal.cause),
            layer: u8::from(refusal.layer),
        }
    }
}

// How the block of a number reads.
#[tactic(auto, using(disk::proofs::Places::filled_at), unfolding(crate::specs::Surveys::found_at))]
fn look_at<D: SectorSource>(disk: &D, index: usize) -> Finding
    requires { index < 683 }
    ensures { result ≡ found_at (D.SectorSource.contents disk.now) index }
{
    let place = block_place(index).unwrap();
    match load(disk, place) {
        Ok(_) => Finding::default(),
        Err(refusal) => Finding::from(refusal),
    }
}

// Looks at every block in place order.
#[tactic(auto, unfolding(crate::specs::Surveys::found_first))]
pub fn survey<D: SectorSource>(disk: &D, table: &mut [Finding]) -> Result<(), Refusal>
    ensures answer { result ≡ fill_result (length table.old) }
    ensures after { table.new ≡ surveyed (D.SectorSource.contents disk.now) table.old }
{
    check_length(table.len())?;
    for (index, finding) in table[..BLOCKS].iter_mut().enumerate() {
        *finding = look_at(disk, index);
    }
    Ok(())
}
