// A partial state: some fluents are true, some are false, nothing is said of the others.
ghost use Rattle.std.specs.Prelude.{◌^◌, ◌<◌};
ghost use Rattle.fluents.specs.Sets.{Apart};

use fluents::sets::Set;

pub mod kind;
pub mod makers;

// Goals, conditions and rows are partial states. No fluent is both true and false, and both sets have 64 bits.
#[derive(Clone, Copy, PartialEq, Eq, Debug)]
pub struct PartialState {
    trues: Set,
    falses: Set,
    ghost apart: { Apart trues falses },
    ghost fit: { trues < 2 ^ 64 },
    ghost fit_falses: { falses < 2 ^ 64 },
}

// A partial state as plain numbers, as it lies in arrays and slices; it is made into the value by a check. Rows ascend
// by their true fluents, then by the false ones.
#[derive(Clone, Copy, PartialEq, Eq, PartialOrd, Ord, Debug)]
pub struct Row {
    pub trues: Set,
    pub falses: Set,
}
