// How the permit is raised and given back.
ghost use Rattle.std.specs.Prelude.{◌≡◌, ℕ, true, ◌≢◌};
ghost use Rattle.fluents.specs.Sets.{bit};
ghost use Rattle.permit.specs.Words.{bit_zero, raised, lowered};

use super::{Permit, restore};

impl<'w> Permit<'w> {
    // Sets bit 0 of the word, and holds the word.
    pub fn raise(word: &'w mut u32) -> Permit<'w>
        ensures held { result.word.ghost_name ≡ word.entry.ghost_name }
        ensures set { result.word.now ≡ raised word.old }
        ensures zero { bit_zero result.word.now ≡ true }
        ensures kept { result.earlier ≡ bit_zero word.old }
        ensures back { lowered result.earlier result.word.now ≡ word.old }
        ensures others { (i : ℕ) → (i ≢ 0) → bit result.word.now i ≡ bit word.old i }
    {
        let earlier = *word & 1 == 1;
        *word |= 1;
        Permit { word, earlier }
    }

    // The word as it is now.
    pub fn value(&self) -> u32
        ensures { result ≡ self.now.word.now }
    {
        *self.word
    }

    // Gives bit 0 its earlier value back, and gives the word back.
    pub fn lower(self) -> &'w mut u32
        ensures { (result.ghost_name ≡ self.entry.word.ghost_name) × (result.now ≡ lowered self.entry.earlier self.entry.word.now) }
    {
        let Permit { word, earlier } = self;
        restore(word, earlier);
        word
    }
}
