// How a reading is settled.
ghost use Rattle.std.specs.Prelude.{◌≡◌, ◌<◌, IfOk};
ghost use Rattle.panel.specs.Confirming.{SettledAs, GivenBack};

use super::Reading;
use crate::answers::{Denied, Over};
use crate::armed::Armed;
use crate::permitted::Permitted;
use fluents::literals::Fluent;
use kept::Kept;

impl<'f, 'w> Reading<'f, 'w> {
    // The place of the reading node.
    pub fn place(&self) -> usize
        ensures { result ≡ self.now.pending.place }
    {
        self.pending.place()
    }

    // The number of the reading action.
    pub fn number(&self) -> u8
        ensures { result ≡ self.now.pending.number }
    {
        self.pending.number()
    }

    // The fluent that is read.
    pub fn fluent(&self) -> Fluent
        ensures { result ≡ self.now.pending.fluent }
    {
        self.pending.fluent()
    }

    // The value is learned, and the run goes on in its branch; or no world has it, and the run ends.
    pub fn settle(self, value: bool) -> Result<Armed<'f, 'w>, Denied<'f, 'w>>
        ensures value { SettledAs self.entry value result }
        ensures onward { IfOk result (λ armed. self.entry.pending.place < armed.run.place) }
    {
        let Reading { permitted, pending } = self;
        let Permitted { loaded, permit } = permitted;
        let loaded = loaded.take();
        let settled = pending.settle(&loaded, value);
        let loaded = Kept::put(loaded);
        let permitted = Permitted { loaded, permit };
        match settled {
            Ok(run) => Ok(Armed { permitted, run }),
            Err(fault) => Err(Denied {
                over: permitted.end(),
                fault,
            }),
        }
    }

    // The reading is withdrawn, and the run ends.
    pub fn withdraw(self) -> Over<'f, 'w>
        ensures { GivenBack self.entry.permitted result }
    {
        let Reading {
            permitted,
            pending: _,
        } = self;
        permitted.end()
    }
}
