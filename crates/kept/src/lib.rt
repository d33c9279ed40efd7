// A value on its way through an enum: the procedure of an armed run, beside the word that is lent to it.
//
// A struct whose `Model` has `also_owns` is opaque to the checker's generated proofs: they pass it
// on whole. `Kept` takes no memory of its own: it is its value.
#![tactic(auto)]

ghost use Rattle.std.specs.Prelude.{◌≡◌};
ghost use Rattle.std.specs.Borrow.{ftrue};

use std::marker::Model;

#[derive(Drop)]
pub struct Kept<T> {
    value: T,
}

impl<T> Model for Kept<T> {
    ghost also_owns = { λ _. ftrue };
}

impl<T> Kept<T> {
    pub fn put(value: T) -> Kept<T>
        ensures { result.value ≡ value }
    {
        Kept { value }
    }

    pub fn take(self) -> T
        ensures { result ≡ self.value }
    {
        let Self { value } = self;
        value
    }
}
