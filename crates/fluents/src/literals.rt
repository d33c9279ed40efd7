// Fluents and literals: both are made by a check, so that every value is in range.
ghost use Rattle.std.specs.Prelude.{◌<◌};

pub mod makers;

// One of the 64 fluents.
#[derive(Clone, Copy, PartialEq, Eq, Debug)]
pub struct Fluent {
    index: u8,
    ghost within: { index < 64 },
}

// A fluent with the truth value that it is said to have.
#[derive(Clone, Copy, PartialEq, Eq, Debug)]
pub struct Literal {
    pub fluent: Fluent,
    pub value: bool,
}
