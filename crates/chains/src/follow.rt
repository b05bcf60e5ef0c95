// Following blocks from link to link, over any source.
ghost use Rattle.std.specs.Prelude.{◌≡◌, ◌<◌, ◌≤◌, length, IfOk};
ghost use Rattle.chains.specs.Sets.{holds};
ghost use Rattle.chains.specs.Chains.{visited, chain_of};
ghost use Rattle.chains.specs.Told.{told};

use crate::chain::*;
use crate::route::*;
use crate::set::*;
use arrayvec::ArrayVec;
use disk::cause::*;
use disk::place::*;
use disk::refusal::*;
use sector::source::*;

// Reads the block `here`, to which the block `from` leads.
#[tactic(auto, unfolding(crate::specs::Chains::visited))]
fn visit<D: SectorSource>(
    disk: &D,
    route: &Route,
    met: &PlaceSet,
    from: Place,
    here: Place,
) -> Result<[u8; 256], Refusal>
    ensures { result ≡ visited (D.SectorSource.contents disk.now) route.now (holds met.now here) from here }
{
    if !route.admits(here) {
        return Err(Refusal::by_volume(route.stray_cause(), from));
    }
    if met.has(here) {
        return Err(Refusal::by_volume(Cause::BadStructure, from));
    }
    load(disk, here)
}

// Follows the blocks from `first` on, to which the block `from` leads.
#[tactic(auto, using(crate::proofs::Chains::turns))]
pub fn follow<D: SectorSource>(
    disk: &D,
    route: &Route,
    from: Place,
    first: Place,
) -> Result<Chain, Refusal>
    ensures value { told result ≡ chain_of (D.SectorSource.contents disk.now) route.now from first }
    ensures within { IfOk result (λ c. (0 < length c.places.items) × (length c.places.items ≤ 683)) }
{
    // Beside `places` for speed: with `places.contains` in its stead, which proves too, extracting a file of 664 blocks takes eight times as long.
    let mut met = PlaceSet::new();
    let mut places = ArrayVec::new();
    let mut back = from;
    let mut here = first;
    for _ in 0..route.longest() {
        let block = visit(disk, route, &met, back, here)?;
        met.add(here);
        places.push(here);
        let Some(next) = route.link(here, &block)? else {
            return Ok(Chain { places, block });
        };
        back = here;
        here = next;
    }
    Err(Refusal::by_volume(Cause::BadStructure, back))
}
