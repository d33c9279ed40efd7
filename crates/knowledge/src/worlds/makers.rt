// How lists of worlds are made and read.
ghost use Rattle.std.specs.Prelude.{◌≡◌, ℕ, ◌<◌, ◌≤◌, [], ◌∷◌, map, length, take, MatchOption, MatchResult, slice_index};
ghost use Rattle.fluents.specs.Refusals.{fault_at};
ghost use Rattle.fluents.specs.declared.faults.Refusal.TheVariants.{UnfitLength};
ghost use Rattle.knowledge.specs.Worlds.{list_of, world_of, FitCount, SameWorlds};

use super::{World, WorldList};
use crate::orders::Distinct;
use fluents::faults::{Fault, Refusal};
use least::keep_least;

// The worlds in an array, in the same order, as elements of the keeper's kind; a list itself holds plain numbers.
// By a loop over the worlds, here and in `padded`: `array::from_fn` goes over all 64 places, and misses its speed.
fn spread(worlds: &[World]) -> [Distinct; 64]
    requires { length worlds.now ≤ 64 }
    ensures long { length result ≡ 64 }
    ensures front { map world_of (take (length worlds.now) result) ≡ worlds.now }
{
    let mut items = [Distinct { world: 0 }; 64];
    for (i, world) in worlds.iter().enumerate() {
        items[i] = Distinct { world: *world };
    }
    items
}

// The worlds in an array, in the same order, and zeros after them.
fn padded(items: &[Distinct]) -> [World; 64]
    requires { length items.now ≤ 64 }
    ensures long { length result ≡ 64 }
    ensures front { take (length items.now) result ≡ map world_of items.now }
    ensures blank { (k : ℕ) → length items.now ≤ k → slice_index result k ≡ 0 }
{
    let mut array = [0; 64];
    for (i, item) in items.iter().enumerate() {
        array[i] = item.world;
    }
    array
}

impl WorldList {
    // The list of these worlds, or a refusal exactly where there are none or over 64. They may be
    // in any order, and a repeated one is counted again but kept once.
    pub fn new(worlds: &[World]) -> Result<WorldList, Fault>
        ensures { MatchResult result (λ l. FitCount (length worlds.now) × SameWorlds (list_of l) worlds.now) (λ e. (FitCount (length worlds.now) → ⊥) × (e ≡ fault_at UnfitLength 0)) }
    {
        if !(1..=64).contains(&worlds.len()) {
            return Err(Refusal::UnfitLength.into());
        }
        let mut items = spread(worlds);
        let len = keep_least(&mut items[..worlds.len()]);
        Ok(WorldList {
            worlds: padded(&items[..len]),
            len,
        })
    }

    // The list of one world.
    pub fn single(world: World) -> WorldList
        ensures { list_of result ≡ world ∷ [] }
    {
        let mut worlds = [0; 64];
        worlds[0] = world;
        WorldList { worlds, len: 1 }
    }

    // How many worlds the list has.
    pub fn len(&self) -> usize
        ensures { result ≡ length (list_of self.now) }
    {
        self.len
    }

    // The world at a place, or none exactly where the list has no such place.
    pub fn get(&self, i: usize) -> Option<World>
        ensures { MatchOption result (length (list_of self.now) ≤ i) (λ w. (i < length (list_of self.now)) × (w ≡ slice_index (list_of self.now) i)) }
    {
        self.as_slice().get(i).copied()
    }

    // The worlds, in ascending order.
    pub fn as_slice(&self) -> &[World]
        ensures { result.now ≡ list_of self.now }
    {
        &self.worlds[..self.len]
    }
}
