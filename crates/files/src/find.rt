// From a name to its entry and its chain.
ghost use Rattle.std.specs.Prelude.{◌≡◌, ◌<◌, ◌≤◌, length, IfOk};
ghost use Rattle.files.specs.Found.{last_of, located, closed_at, file_chain};
ghost use Rattle.chains.specs.Told.{told};

use chains::chain::*;
use chains::follow::*;
use chains::route::*;
use directory::entry::*;
use directory::kind::*;
use directory::name::*;
use disk::cause::*;
use disk::place::*;
use disk::refusal::*;
use sector::source::*;

// An entry, and the directory block in which it stands.
#[derive(Clone, Copy, Debug)]
pub struct Located {
    pub at: Place,
    pub entry: Entry,
}

// The last block of a chain.
fn last_place(chain: &Chain) -> Place
    ensures { result ≡ last_of chain.now.places.items }
{
    *chain.places.last().unwrap()
}

// The first filled slot of the name, looking no further along the directory than that.
#[tactic(auto, unfolding(crate::specs::Found::located))]
pub fn locate<D: SectorSource>(disk: &D, name: &[u8]) -> Result<Located, Refusal>
    ensures { result ≡ located (D.SectorSource.contents disk.now) name.now }
{
    let title = entry_name(name)?;
    let chain = follow(disk, &Route::Search(title), (18, 0), (18, 1))?;
    let slot = named_slot(&chain.block, &title).ok_or(Refusal::by_volume(Cause::NotFound, (0, 0)))?;
    Ok(Located {
        at: last_place(&chain),
        entry: entry_at(&chain.block, slot),
    })
}

// Accepts the entry of a closed file.
fn check_closed(found: &Located) -> Result<(), Refusal>
    ensures { result ≡ closed_at found.now }
{
    match found.entry.status {
        Status::Closed(_) => Ok(()),
        Status::Unclosed(_) => Err(Refusal::by_volume(Cause::Unclosed, found.at)),
        Status::Foreign(_) | Status::Empty => Err(Refusal::by_volume(Cause::ForeignType, found.at)),
    }
}

// The blocks of the closed file of the name.
#[tactic(auto, unfolding(crate::specs::Found::file_chain))]
pub fn find_file<D: SectorSource>(disk: &D, name: &[u8]) -> Result<Chain, Refusal>
    ensures value { told result ≡ file_chain (D.SectorSource.contents disk.now) name.now }
    ensures within { IfOk result (λ c. (0 < length c.places.items) × (length c.places.items ≤ 683)) }
{
    let found = locate(disk, name)?;
    check_closed(&found)?;
    follow(disk, &Route::File, found.at, found.entry.first)
}
