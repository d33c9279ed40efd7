// What is answered about a plan.
ghost use Rattle.std.specs.Prelude.{◌≡◌, Some};
ghost use Rattle.meaning.specs.Causes.{cause_number};
ghost use Rattle.meaning.specs.Texts.{verdict_text};

use fluents::faults::Fault;
use std::fmt;

// Why a plan fails at a node.
#[derive(Clone, Copy, PartialEq, Eq, Debug)]
pub enum Cause {
    // the conditions of the node's action are not known
    UnmetConditions = 1,
    // the plan ends, and the goal is not known
    GoalUnknown = 2,
    // the plan has a gap there
    Gap = 3,
}

impl Cause {
    // The number that stands for this cause wherever one is printed.
    pub fn number(self) -> u8
        ensures { result ≡ cause_number self }
    {
        self as u8
    }
}

// Whether a plan reaches its goal from what is known; or the first node that fails, by its place in the file, and why. An enum
// of its own, by a rule of the project: that a plan fails is an answer, and refuses nothing.
#[derive(Clone, Copy, PartialEq, Eq, Debug)]
pub enum Verdict {
    Holds,
    Fails { place: usize, cause: Cause },
}

// `holds`, or `fails` with the place and the number of the cause.
impl fmt::Display for Verdict {
    ghost output = { λ verdict. Some (verdict_text verdict) };

    fn fmt<W: fmt::Write>(&self, f: &mut fmt::Formatter<W>) -> fmt::Result {
        match self {
            Verdict::Holds => write!(f, "holds"),
            Verdict::Fails { place, cause } => {
                let number = cause.number();
                write!(f, "fails {place} {number}")
            }
        }
    }
}

// How a walk stopped: at an end with the goal known; at a failing node; at a reading node whose value no world has; or
// at a reading node with no value left.
#[derive(Clone, Copy, PartialEq, Eq, Debug)]
pub enum Stop {
    EndedWell,
    Failed { place: usize, cause: Cause },
    Refused(Fault),
    UsedUp { place: usize },
}
