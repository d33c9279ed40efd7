// Actions: a doing action changes fluents, a reading action tells one.
ghost use Rattle.fluents.specs.Sets.{Apart};

use crate::states::PartialState;
use fluents::literals::Fluent;
use fluents::sets::Set;

pub mod makers;

// Makes the fluents of `add` true and those of `del` false where its conditions are known.
#[derive(Clone, Copy, PartialEq, Eq, Debug)]
pub struct DoingAction {
    conditions: PartialState,
    add: Set,
    del: Set,
    ghost apart: { Apart add del },
}

// Tells the value of one fluent where its conditions are known.
#[derive(Clone, Copy, PartialEq, Eq, Debug)]
pub struct ReadingAction {
    pub conditions: PartialState,
    pub fluent: Fluent,
}

#[derive(Clone, Copy, PartialEq, Eq, Debug)]
pub enum Action {
    Doing(DoingAction),
    Reading(ReadingAction),
}
