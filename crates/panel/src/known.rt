// What is known at the panel: a case for each kind that a file's start may have.
ghost use Rattle.panel.specs.Cases.{worlds_in};
ghost use Rattle.panel.specs.Possible.{known_some, known_fit};

use fluents::faults::Fault;
use fluents::literals::Literal;
use knowledge::actions::DoingAction;
use knowledge::kinds::Knowledge;
use knowledge::states::PartialState;
use knowledge::worlds::WorldList;

// A partial state, or a list of worlds.
#[derive(Clone, Copy)]
pub enum Known {
    Partial(PartialState),
    Worlds(WorldList),
}

// The worlds of the case; each call is that of its kind.
impl Knowledge for Known {
    ghost worlds = { worlds_in };

    ghost some = { known_some };

    ghost fit = { known_fit };

    fn knows(&self, literal: Literal) -> bool {
        match *self {
            Known::Partial(state) => state.knows(literal),
            Known::Worlds(list) => list.knows(literal),
        }
    }

    fn apply(self, action: DoingAction) -> Known {
        match self {
            Known::Partial(state) => Known::Partial(state.apply(action)),
            Known::Worlds(list) => Known::Worlds(list.apply(action)),
        }
    }

    fn learn(self, literal: Literal) -> Result<Known, Fault> {
        match self {
            Known::Partial(state) => Ok(Known::Partial(state.learn(literal)?)),
            Known::Worlds(list) => Ok(Known::Worlds(list.learn(literal)?)),
        }
    }
}
