// A set of blocks: a flag for each in place order, since a set of std would lie on the heap, where nothing in reading may.
ghost use Rattle.std.specs.Prelude.{◌≡◌, ℕ};
ghost use Rattle.chains.specs.Sets.{holds, nothing, with_place};

use disk::place::*;
use std::marker::Model;

#[derive(Drop)]
pub struct PlaceSet {
    flags: [bool; 683],
}

impl Model for PlaceSet {
    ghost use Rattle.std.specs.Prelude.{Bool, List};

    ghost Value = { List Bool };

    ghost view = { λ set. set.flags };
}

impl PlaceSet {
    pub fn new() -> Self
        ensures { (p : ℕ × ℕ) → holds result p ≡ nothing p }
    {
        PlaceSet {
            flags: [false; 683],
        }
    }

    #[tactic(auto, unfolding(crate::specs::Sets::holds))]
    pub fn has(&self, place: Place) -> bool
        ensures { result ≡ holds self.now place }
    {
        block_index(place).is_some_and(|index| self.flags[index])
    }

    // Puts a block into the set; what is no block stays out.
    #[tactic(auto, using(crate::proofs::Sets::holds_more))]
    pub fn add(&mut self, place: Place)
        ensures { (p : ℕ × ℕ) → holds self.new p ≡ with_place place (holds self.old) p }
    {
        if let Some(index) = block_index(place) {
            self.flags[index] = true;
        }
    }
}
