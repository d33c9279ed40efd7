// How one world is made and read.
ghost use Rattle.std.specs.Prelude.{◌≡◌};

use crate::OneWorld;
use knowledge::worlds::World;

impl OneWorld {
    pub fn new(world: World) -> OneWorld
        ensures { result.world ≡ world }
    {
        OneWorld { world }
    }

    // The world that is held possible.
    pub fn world(self) -> World
        ensures { result ≡ self.world }
    {
        self.world
    }
}
