// A reading that waits for its value at the panel.
ghost use Rattle.panel.specs.Ready.{Asked};

use crate::known::Known;
use crate::permitted::Permitted;
use runs::pending::Pending;

pub mod settling;

// It holds the run until it is settled or withdrawn, and cannot be let go: the type is not `Drop`. In the branch of each value
// that may come the plan holds.
pub struct Reading<'f, 'w> {
    pub(crate) permitted: Permitted<'f, 'w>,
    pub(crate) pending: Pending<Known>,
    ghost asked: { ∥ Asked permitted.loaded.value.file.now pending ∥₁ },
}
