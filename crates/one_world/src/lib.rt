// A kind of knowledge of its own: exactly one world is held possible.
#![tactic(auto)]

ghost use Rattle.std.specs.Prelude.{◌^◌, ◌<◌};

use knowledge::worlds::World;

pub mod kind;
pub mod makers;
#[cfg(test)]
mod tests;

// The one world that is held possible, of 64 bits.
#[derive(Clone, Copy, PartialEq, Eq, Debug)]
pub struct OneWorld {
    world: World,
    ghost fit: { world < 2 ^ 64 },
}
