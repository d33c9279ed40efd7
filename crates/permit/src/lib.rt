// The permit: bit 0 of a lent word, which is set while a run is armed.
#![tactic(auto)]

ghost use Rattle.std.specs.Prelude.{◌≡◌};
ghost use Rattle.permit.specs.Words.{lowered};

pub mod guard;
#[cfg(test)]
mod tests;

// Holds the lent word while its bit 0 is set, and keeps what that bit was before. The bit gets its earlier value back on
// every way out: where the word is given back, and where the permit is let go.
pub struct Permit<'w> {
    word: &'w mut u32,
    earlier: bool,
}

// A permit that is let go gives bit 0 its earlier value back.
impl Drop for Permit<'_> {
    fn drop(self)
        ensures { self.exit.0.now ≡ lowered self.entry.earlier self.entry.word.now }
    {
        let Permit { word, earlier } = self;
        restore(word, earlier);
    }
}

// Clears bit 0, unless it was set earlier.
fn restore(word: &mut u32, earlier: bool)
    ensures { word.new ≡ lowered earlier word.old }
{
    if !earlier {
        *word ^= *word & 1;
    }
}
