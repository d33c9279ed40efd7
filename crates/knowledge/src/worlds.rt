// Worlds, and lists of worlds.
ghost use Rattle.std.specs.Prelude.{◌≡◌, ℕ, ◌^◌, ◌<◌, ◌≤◌, length, slice_index};

use fluents::sets::Set;

pub mod kind;
pub mod makers;

// The set of the fluents that are true in the world; the others are false in it.
pub type World = Set;

// 1 to 64 worlds, strictly ascending. What follows them is 0, so that the same worlds are the same
// value. The numbers lie in an array beside their count, and not in an `ArrayVec`, which is not `Copy`.
#[derive(Clone, Copy, PartialEq, Eq, Debug)]
pub struct WorldList {
    worlds: [World; 64],
    len: usize,
    ghost some: { 1 ≤ len },
    ghost few: { len ≤ 64 },
    ghost long: { length worlds ≡ 64 },
    ghost ascends: { (i j : ℕ) → i < j → j < len → slice_index worlds i < slice_index worlds j },
    ghost blank: { (i : ℕ) → len ≤ i → slice_index worlds i ≡ 0 },
    ghost fit: { (i : ℕ) → slice_index worlds i < 2 ^ 64 },
}
