// Plans: trees of actions written as bytes, each node before what follows it. This crate checks that
// the bytes spell a tree, that its actions are of the right sorts, and that no path has too many
// readings.
#![tactic(auto)]

ghost use Rattle.std.specs.Prelude.{◌≡◌, ℕ, ◌+◌, ◌<◌, ◌≤◌, ◌⊎◌, true, false, length, drop, is_ok, IfErr, Ok, Err, IfOk, OnOk, MatchResult, slice_index};
ghost use Rattle.fluents.specs.Sets.{bit};
ghost use Rattle.plans.specs.Checks.{bad, node_of, plan_at, plan_of, ending, verdict};
ghost use Rattle.plans.specs.Flaws.{Refused, Placed};
ghost use Rattle.plans.specs.Kinds.{code_of, Decodes};
ghost use Rattle.plans.specs.declared.Node.TheVariants.{Reading};
ghost use Rattle.plans.specs.Trees.{Plan, encode, Spells};

use fluents::faults::Refusal;
use fluents::sets::{Set, has};

// The kind of a node, with its first byte.
#[derive(Clone, Copy, PartialEq, Eq, Debug)]
pub enum Kind {
    // the plan ends
    End = 0,
    // it does an action: the action's number and the rest follow
    Doing = 1,
    // it reads a fluent by an action, whose number follows, then the plan for true, then that for false
    Reading = 2,
    // the plan has a gap
    Gap = 3,
}

impl TryFrom<u8> for Kind {
    type Error = Refusal;

    ghost try_from_gives = { Decodes };

    fn try_from(byte: u8) -> Result<Kind, Refusal> {
        match byte {
            0 => Ok(Kind::End),
            1 => Ok(Kind::Doing),
            2 => Ok(Kind::Reading),
            3 => Ok(Kind::Gap),
            _ => Err(Refusal::BadPlan),
        }
    }
}

// So many readings may lie on one path.
const MOST_READINGS: u8 = 8;

// Which action numbers are doing actions and which are reading actions: bit a stands for action a. Clauses
// take them as two tests (`bit doing`, `bit reading`), since the definitions also serve lists of actions.
#[derive(Clone, Copy)]
pub struct Sorts {
    pub doing: u64,
    pub reading: u64,
}

// Why a plan was refused, and which of its bytes that is about. The offset counts from the plan's first
// byte and not from the file's, so it is not a `Fault`.
#[derive(Clone, Copy, PartialEq, Eq, Debug)]
pub struct Flaw {
    pub refusal: Refusal,
    pub offset: usize,
}

impl Flaw {
    fn new(refusal: Refusal, offset: usize) -> Flaw
        ensures { (result.refusal ≡ refusal) × (result.offset ≡ offset) }
    {
        Flaw { refusal, offset }
    }
}

// A node of a plan, with the number of its action.
#[derive(Clone, Copy)]
pub enum Node {
    End,
    Doing(u8),
    Reading(u8),
    Gap,
}

// A plan that is not checked yet: its bytes, and the sorts of the actions that it may name.
#[derive(Clone, Copy)]
struct Draft<'a> {
    bytes: &'a [u8],
    sorts: Sorts,
}

impl Draft<'_> {
    // The byte at an offset; there must be one.
    fn byte(&self, at: usize) -> Result<u8, Flaw>
        ensures { MatchResult result (λ b. (at < length self.now.bytes.now) × (b ≡ slice_index self.now.bytes.now at)) (λ e. (length self.now.bytes.now ≤ at) × (e ≡ bad at)) }
    {
        self.bytes
            .get(at)
            .copied()
            .ok_or(Flaw::new(Refusal::BadPlan, at))
    }

    // The kind of the node at an offset; its first byte must be there, and that of a kind.
    fn kind(&self, at: usize) -> Result<Kind, Flaw>
        ensures found { IfOk result (λ kind. (at < length self.now.bytes.now) × (code_of kind ≡ slice_index self.now.bytes.now at)) }
        ensures refused { IfErr result (λ e. (e ≡ bad at) × (at < length self.now.bytes.now → 3 < slice_index self.now.bytes.now at)) }
    {
        Kind::try_from(self.byte(at)?).map_err(|refusal| Flaw::new(refusal, at))
    }

    // The action of a node at an offset; it must be there, and in the set.
    fn action(&self, at: usize, set: Set) -> Result<u8, Flaw>
        requires { at < length self.now.bytes.now }
        ensures found { IfOk result (λ a. (at + 1 < length self.now.bytes.now) × (a ≡ slice_index self.now.bytes.now (at + 1)) × (bit set a ≡ true)) }
        ensures absent { IfErr result (λ e. length self.now.bytes.now ≤ at + 1 → e ≡ bad (at + 1)) }
        ensures other_sort { IfErr result (λ e. at + 1 < length self.now.bytes.now → (e ≡ bad at) × (bit set (slice_index self.now.bytes.now (at + 1)) ≡ false)) }
    {
        let action = self.byte(at + 1)?;
        if has(set, action) {
            Ok(action)
        } else {
            Err(Flaw::new(Refusal::BadPlan, at))
        }
    }

    // The node at an offset, below `depth` readings. Its action must be there and of the node's sort, and
    // a reading must have room on its path.
    #[tactic(auto, using(crate::proofs::Nodes::reads))]
    fn node_at(&self, at: usize, depth: u8) -> Result<Node, Flaw>
        ensures within { OnOk result (at < length self.now.bytes.now) }
        ensures low { (a : ℕ) → result ≡ Ok (Reading a) → depth < 8 }
        ensures node { result ≡ node_of (bit self.now.sorts.doing) (bit self.now.sorts.reading) at depth (drop at self.now.bytes.now) }
    {
        match self.kind(at)? {
            Kind::End => Ok(Node::End),
            Kind::Doing => Ok(Node::Doing(self.action(at, self.sorts.doing)?)),
            Kind::Reading => {
                let action = self.action(at, self.sorts.reading)?;
                if depth < MOST_READINGS {
                    Ok(Node::Reading(action))
                } else {
                    Err(Flaw::new(Refusal::TooManyReadings, at))
                }
            }
            Kind::Gap => Ok(Node::Gap),
        }
    }

    // The offset just past the plan that stands at an offset, below `depth` readings. The calls nest at
    // most half as deep as the plan has bytes, and the stack is to hold those of 1,024 bytes, the most
    // that a caller may pass.
    #[tactic(auto, using(crate::proofs::Turns::ending_is))]
    fn subplan(&self, at: usize, depth: u8) -> Result<usize, Flaw>
        ensures onward { IfOk result (λ end. at < end) }
        ensures end { result ≡ ending (plan_at (bit self.now.sorts.doing) (bit self.now.sorts.reading) self.now.bytes.now at depth) }
    {
        match self.node_at(at, depth)? {
            Node::End | Node::Gap => Ok(at + 1),
            Node::Doing(_) => self.subplan(at + 2, depth),
            Node::Reading(_) => {
                let other = self.subplan(at + 2, depth + 1)?;
                self.subplan(other, depth + 1)
            }
        }
    }

    // Whether the bytes spell a plan within the limits, with none left over; else the first refusal.
    #[tactic(auto, using(crate::proofs::Turns::verdict_is))]
    fn whole(&self) -> Result<(), Flaw>
        ensures { result ≡ verdict (plan_of (bit self.now.sorts.doing) (bit self.now.sorts.reading) self.now.bytes.now) }
    {
        let end = self.subplan(0, 0)?;
        if end == self.bytes.len() {
            Ok(())
        } else {
            Err(Flaw::new(Refusal::BadPlan, end))
        }
    }
}

// Whether the bytes spell a plan within the limits, with none left over; else the first refusal. So
// it is Ok exactly where some tree within the limits has these bytes, of which there is at most one,
// and a refusal exactly where the rules of the refusals give that one.
pub fn check(plan: &[u8], sorts: Sorts) -> Result<(), Flaw>
    ensures value { result ≡ verdict (plan_of (bit sorts.doing) (bit sorts.reading) plan.now) }
    ensures trees { (is_ok result ≡ true → (p : Plan) × Spells (bit sorts.doing) (bit sorts.reading) plan.now p)
        × ((p : Plan) → Spells (bit sorts.doing) (bit sorts.reading) plan.now p → is_ok result ≡ true) }
    ensures flaws { ((e : Flaw) → result ≡ Err e → Refused (bit sorts.doing) (bit sorts.reading) plan.now e)
        × ((e : Flaw) → Refused (bit sorts.doing) (bit sorts.reading) plan.now e → result ≡ Err e) }
    ensures tree { (p : Plan) → Spells (bit sorts.doing) (bit sorts.reading) plan.now p
        → plan_of (bit sorts.doing) (bit sorts.reading) plan.now ≡ Ok p }
    ensures unique { (p q : Plan) → plan.now ≡ encode p → plan.now ≡ encode q → p ≡ q }
    ensures place { IfErr result (Placed (length plan.now)) }
{
    Draft { bytes: plan, sorts }.whole()
}

#[cfg(test)]
mod tests {
    use super::*;

    // Actions 0 to 3 are doing actions, and action 4 is a reading action.
    const SORTS: Sorts = Sorts {
        doing: 0b01111,
        reading: 0b10000,
    };

    fn refused(refusal: Refusal, offset: usize) -> Result<(), Flaw> {
        Err(Flaw { refusal, offset })
    }

    #[test]
    fn bytes_past_the_end(rt: HostRuntime) {
        assert_eq!(rt; check(b"\x00", SORTS), Ok(()));
        assert_eq!(rt; check(b"\x00\x00", SORTS), refused(Refusal::BadPlan, 1));
    }

    #[test]
    fn bytes_that_lack(rt: HostRuntime) {
        assert_eq!(rt; check(b"", SORTS), refused(Refusal::BadPlan, 0));
        assert_eq!(rt; check(b"\x01\x02\x01", SORTS), refused(Refusal::BadPlan, 3));
    }

    #[test]
    fn actions_of_the_other_sort(rt: HostRuntime) {
        let doing = b"\x02\x04\x01\x04\x00\x00";
        assert_eq!(rt; check(doing, SORTS), refused(Refusal::BadPlan, 2));
        let reading = b"\x02\x04\x00\x02\x03\x00\x00";
        assert_eq!(rt; check(reading, SORTS), refused(Refusal::BadPlan, 3));
    }

    #[test]
    fn eight_readings_on_a_path(rt: HostRuntime) {
        let plan =
            b"\x02\x04\x02\x04\x02\x04\x02\x04\x02\x04\x02\x04\x02\x04\x02\x04\0\0\0\0\0\0\0\0\x03";
        assert_eq!(rt; check(plan, SORTS), Ok(()));
    }

    #[test]
    fn nine_readings_on_a_path(rt: HostRuntime) {
        let plan =
            b"\x02\x04\x02\x04\x02\x04\x02\x04\x02\x04\x02\x04\x02\x04\x02\x04\x02\x04\0\0\0\0\0\0\0\0\0\0";
        assert_eq!(rt; check(plan, SORTS), refused(Refusal::TooManyReadings, 16));
    }
}
