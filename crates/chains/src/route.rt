// By which rules blocks are followed, and where a block leads.
ghost use Rattle.std.specs.Prelude.{◌≡◌, ◌≤◌};
ghost use Rattle.chains.specs.Chains.{on_route, stray, halts, most, link_of};

use directory::entry::*;
use disk::cause::*;
use disk::place::*;
use disk::refusal::*;

// An enum that each method matches on, since the definitions and the law on the bound speak of every route as one value; with a trait or a closure for `halts`, `follow` and they would have to carry its test beside the route.
#[derive(Clone, Copy, Debug)]
pub enum Route {
    // a file's blocks, to the last one
    File,
    // the directory's blocks, to the last one
    Directory,
    // the directory's blocks, to the first that has a filled slot of the name
    Search([u8; 16]),
}

impl Route {
    // Whether the route may lead over the block: a file keeps off track 18, the directory has its sectors from 1 on.
    pub fn admits(&self, place: Place) -> bool
        ensures { result ≡ on_route self.now place }
    {
        exists(place)
            && match self {
                Route::File => place.0 != 18,
                Route::Directory | Route::Search(_) => place.0 == 18 && place.1 != 0,
            }
    }

    // Why a link to any other block is refused.
    pub fn stray_cause(&self) -> Cause
        ensures { result ≡ stray self.now }
    {
        match self {
            Route::File => Cause::NoSuchBlock,
            Route::Directory | Route::Search(_) => Cause::BadStructure,
        }
    }

    // How many blocks the route can have before one was met twice.
    pub fn longest(&self) -> usize
        ensures value { result ≡ most self.now }
        ensures within { result ≤ 683 }
    {
        match self {
            Route::File => 683,
            Route::Directory | Route::Search(_) => 18,
        }
    }

    // Whether the route ends at the block, wherever its link leads.
    fn halts(&self, block: &[u8; 256]) -> bool
        ensures { result ≡ halts self.now block.now }
    {
        match self {
            Route::File | Route::Directory => false,
            Route::Search(name) => named_slot(block, name).is_some(),
        }
    }

    // Where the block at `here` leads, if on. The last block of a file names its last used byte, never byte 0.
    #[tactic(auto, unfolding(crate::specs::Chains::link_of))]
    pub fn link(&self, here: Place, block: &[u8; 256]) -> Result<Option<Place>, Refusal>
        ensures { result ≡ link_of self.now here block.now }
    {
        if self.halts(block) {
            return Ok(None);
        }
        if block[0] != 0 {
            return Ok(Some((block[0], block[1])));
        }
        match self {
            Route::File if block[1] == 0 => Err(Refusal::by_volume(Cause::BadStructure, here)),
            _ => Ok(None),
        }
    }
}
