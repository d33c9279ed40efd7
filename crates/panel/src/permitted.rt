// What an armed run and a waiting reading both hold.
ghost use Rattle.std.specs.Prelude.{◌≡◌, true};
ghost use Rattle.permit.specs.Words.{bit_zero};

use crate::answers::Over;
use kept::Kept;
use permit::Permit;
use procedure::loaded::Loaded;

// The procedure of a run, and the permit, whose bit is set as long as the run lasts. It cannot be let go: the type is not `Drop`.
pub struct Permitted<'f, 'w> {
    // in `Kept` for the reason given at `Over`
    pub(crate) loaded: Kept<Loaded<'f>>,
    pub(crate) permit: Permit<'w>,
    ghost raised: { bit_zero permit.word.now ≡ true },
}

impl<'f, 'w> Permitted<'f, 'w> {
    ghost use Rattle.panel.specs.Confirming.{GivenBack};

    // Ends the run: its bit gets its earlier value back.
    pub(crate) fn end(self) -> Over<'f, 'w>
        ensures { GivenBack self.entry result }
    {
        let Permitted { loaded, permit } = self;
        let word = permit.lower();
        Over { loaded, word }
    }
}
