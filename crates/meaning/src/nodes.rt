// The nodes of a loaded plan, by their places in the file.
ghost use Rattle.std.specs.Prelude.{◌≡◌, ℕ, true, List, ◌++◌, length, Ok, Some, IsSomeAnd};
ghost use Rattle.plans.specs.Trees.{Plan, encode, past};
ghost use Rattle.plans.specs.declared.Kind.TheVariants.{Doing, Reading};
ghost use Rattle.procedure.specs.Procedures.{does_at, reads_at};
ghost use Rattle.meaning.specs.Nodes.{Shown, ShownDoing, ShownReading};
ghost use Rattle.procedure.specs.Asked.{IfLoads, IfNode};

use knowledge::actions::{Action, DoingAction, ReadingAction};
use plans::Kind;
use procedure::loaded::Loaded;

// A node with the number of its action and the action itself.
#[derive(Clone, Copy)]
pub enum Node {
    End,
    Doing { number: u8, action: DoingAction },
    Reading { number: u8, action: ReadingAction },
    Gap,
}

// The node of this kind with the action of this number, where that is an action of this kind.
fn acting_node(loaded: &Loaded, kind: Kind, number: u8) -> Option<Node>
    ensures doing { IfLoads loaded.now (λ p. kind ≡ Doing → does_at p.actions number ≡ true → IsSomeAnd result (ShownDoing p.actions number)) }
    ensures reading { IfLoads loaded.now (λ p. kind ≡ Reading → reads_at p.actions number ≡ true → IsSomeAnd result (ShownReading p.actions number)) }
{
    match (kind, loaded.action(number as usize)?) {
        (Kind::Doing, Action::Doing(action)) => Some(Node::Doing { number, action }),
        (Kind::Reading, Action::Reading(action)) => Some(Node::Reading { number, action }),
        _ => None,
    }
}

// The plan's bytes from this place on, unless it lies before the plan or past its end.
fn bytes_from<'a>(loaded: &Loaded<'a>, place: usize) -> Option<&'a [u8]>
    ensures { IfLoads loaded.now (λ p. IfNode p place (λ q. IsSomeAnd result (λ bytes. (rest : List ℕ) × (bytes.now ≡ encode q ++ rest)))) }
{
    let plan = loaded.plan();
    let at = place.checked_sub(plan.place)?;
    plan.bytes.get(at..)
}

// The node that begins at this place, where one does.
fn node_there(loaded: &Loaded, place: usize) -> Option<Node>
    ensures { IfLoads loaded.now (λ p. IfNode p place (λ q. IsSomeAnd result (Shown p.actions q))) }
{
    let (&first, rest) = bytes_from(loaded, place)?.split_first()?;
    match Kind::try_from(first).ok()? {
        Kind::End => Some(Node::End),
        Kind::Gap => Some(Node::Gap),
        kind => acting_node(loaded, kind, *rest.first()?),
    }
}

// The node that begins at this place. Where none does, the answer is safe and says nothing.
pub fn node_at(loaded: &Loaded, place: usize) -> Node
    ensures { IfLoads loaded.now (λ p. IfNode p place (λ q. Shown p.actions q result)) }
{
    node_there(loaded, place).unwrap_or(Node::Gap)
}

// The length of the plan that these bytes begin with, if one does. `due` counts the plans that are still to come, which no
// iterator does: a leaf ends one, and a reading adds one.
fn length_of_first(bytes: &[u8]) -> Option<usize>
    ensures { (q : Plan) (rest : List ℕ) → bytes.now ≡ encode q ++ rest → result ≡ Some (length (encode q)) }
{
    let mut rest = bytes.iter();
    let mut due: usize = 1;
    while due > 0 {
        match Kind::try_from(*rest.next()?).ok()? {
            Kind::End | Kind::Gap => due -= 1,
            Kind::Doing => {
                rest.next();
            }
            Kind::Reading => {
                rest.next();
                due += 1;
            }
        }
    }
    Some(bytes.len() - rest.len())
}

// How many bytes the subplan has that begins at this place, where one does.
fn subplan_length(loaded: &Loaded, place: usize) -> Option<usize>
    ensures { IfLoads loaded.now (λ p. IfNode p place (λ q. result ≡ Some (length (encode q)))) }
{
    length_of_first(bytes_from(loaded, place)?)
}

// The place just past the subplan that begins at this place.
pub fn place_past(loaded: &Loaded, place: usize) -> usize
    ensures { IfLoads loaded.now (λ p. IfNode p place (λ q. result ≡ past place q)) }
{
    place.saturating_add(subplan_length(loaded, place).unwrap_or(0))
}
