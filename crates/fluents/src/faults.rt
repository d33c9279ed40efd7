// The numbered refusals, and the fault that a refused call answers.
ghost use Rattle.std.specs.Prelude.{◌≡◌, Some};
ghost use Rattle.fluents.specs.Refusals.{number_of, layer_of, fault_at, fault_text};

use std::fmt;

// Why a call was refused; there is one name for each number.
#[derive(Clone, Copy, PartialEq, Eq, Debug)]
pub enum Refusal {
    // the file ends before a whole frame, or before the start frame
    Incomplete = 1,
    // the sum at the end of a frame is not that of its bytes
    WrongSum = 2,
    // the kind of a frame is unknown or not due, or a byte follows the start frame
    UnexpectedKind = 3,
    // the length of a frame does not fit its kind, or a list has too few or too many worlds
    UnfitLength = 4,
    // a field holds what it must not: sets that meet, a bit or a fluent out of range
    BadField = 5,
    // the plan has a bad byte or action, ends early, or leaves bytes over
    BadPlan = 6,
    // a ninth reading on one path of the plan
    TooManyReadings = 7,
    // a 65th action
    TooManyActions = 8,
    // over 16 rows at a node of the plan
    TooManyRows = 9,
    // a value that no world has
    Contradiction = 10,
    // the plan does not reach its goal from the start
    VerdictFails = 11,
}

// What a refusal is about.
#[derive(Clone, Copy, PartialEq, Eq, Debug)]
pub enum Layer {
    Frame,
    Procedure,
    Plan,
    Rows,
    Run,
}

impl Refusal {
    // The number that stands for this refusal wherever one is printed.
    pub fn number(self) -> u8
        ensures { result ≡ number_of self }
    {
        self as u8
    }

    // The layer that this refusal belongs to.
    pub fn layer(self) -> Layer
        ensures { result ≡ layer_of self }
    {
        match self {
            Refusal::Incomplete
            | Refusal::WrongSum
            | Refusal::UnexpectedKind
            | Refusal::UnfitLength
            | Refusal::TooManyActions => Layer::Frame,
            Refusal::BadField => Layer::Procedure,
            Refusal::BadPlan | Refusal::TooManyReadings => Layer::Plan,
            Refusal::TooManyRows => Layer::Rows,
            Refusal::Contradiction | Refusal::VerdictFails => Layer::Run,
        }
    }

    // The fault that names this refusal and a place.
    pub fn at(self, place: usize) -> Fault
        ensures { result ≡ fault_at self place }
    {
        Fault {
            refusal: self,
            place,
        }
    }
}

// A refused call: why, and at which place of the file. A call that has no file says place 0.
#[derive(Clone, Copy, PartialEq, Eq, Debug)]
pub struct Fault {
    pub refusal: Refusal,
    pub place: usize,
}

impl Fault {
    pub fn number(self) -> u8
        ensures { result ≡ number_of self.refusal }
    {
        self.refusal.number()
    }

    pub fn layer(self) -> Layer
        ensures { result ≡ layer_of self.refusal }
    {
        self.refusal.layer()
    }
}

// A call that has no file is refused at place 0.
impl From<Refusal> for Fault {
    ghost from_gives = { λ refusal fault. fault ≡ fault_at refusal 0 };

    fn from(refusal: Refusal) -> Fault {
        refusal.at(0)
    }
}

// `refused` with the number and the place.
impl fmt::Display for Fault {
    ghost output = { λ fault. Some (fault_text fault) };

    fn fmt<W: fmt::Write>(&self, f: &mut fmt::Formatter<W>) -> fmt::Result {
        write!(f, "refused {} {}", self.number(), self.place)
    }
}
