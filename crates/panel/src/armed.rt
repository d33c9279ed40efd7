// An armed run.
ghost use Rattle.panel.specs.Ready.{Ready};

use crate::known::Known;
use crate::permitted::Permitted;
use runs::run::Run;

pub mod keys;

// The procedure under its permit, and the run at one of its nodes. From the node and what is known there the plan holds.
pub struct Armed<'f, 'w> {
    pub(crate) permitted: Permitted<'f, 'w>,
    pub(crate) run: Run<Known>,
    ghost ready: { ∥ Ready permitted.loaded.value.file.now run ∥₁ },
}
