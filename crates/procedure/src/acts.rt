// The actions of a file.
ghost use Rattle.std.specs.Prelude.{◌≡◌, ℕ, ◌<◌, ◌≤◌, true, ◌&&◌, ◌||◌, List, length, IfSome, Ok, Err, MatchOption, MatchResult, OnSome, ◌==◌, slice_index_or};
ghost use Rattle.fluents.specs.Refusals.{fault_at};
ghost use Rattle.fluents.specs.Sets.{bit};
ghost use Rattle.fluents.specs.declared.faults.Refusal.TheVariants.{BadField};
ghost use Rattle.frames.specs.Frames.{is_action, Frame as Sheet};
ghost use Rattle.frames.specs.Seen.{Shows, kind_of, Fits};
ghost use Rattle.procedure.specs.Acts.{act_seen, is_do, is_read, Sorted};
ghost use Rattle.procedure.specs.Procedures.{Act, act_of, acts_of};
ghost use Rattle.procedure.specs.Asked.{IfFramed};

use crate::fields::{doing_action, reading_action};
use fluents::faults::{Fault, Refusal};
use frames::frame::{Due, Frame};
use frames::selected::Selected;
use knowledge::actions::Action;
use plans::Sorts;

// The place just past the header frame: 17 bytes of payload, and 6 around it.
const HEADER_END: usize = 23;

// The action of a frame, where it is an action with good fields.
// `requires` says that the length fits the kind, since an enum has no invariant of its own.
pub(crate) fn action_of(frame: Frame, n: u8) -> Option<Action>
    requires { Fits frame × (n ≤ 64) }
    ensures action { OnSome result (is_action (kind_of frame.entry) ≡ true) }
    ensures value { (sheet : Sheet) → Shows frame.entry sheet → is_action sheet.kind ≡ true → MatchOption result (act_of n sheet ≡ Err (fault_at BadField sheet.place)) (λ a. act_of n sheet ≡ Ok (act_seen a)) }
{
    match frame {
        Frame::Doing(payload) => doing_action(payload.bytes, n).map(Action::Doing),
        Frame::Reading(payload) => reading_action(payload.bytes, n).map(Action::Reading),
        Frame::Header(_) | Frame::Plan(_) | Frame::PartialStart(_) | Frame::WorldStart(_) => None,
    }
}

// The sorts with action k noted as well.
fn noted(sorts: Sorts, k: usize, action: Action) -> Sorts
    requires { k < 64 }
    ensures does { (a : ℕ) → bit result.doing a ≡ (bit sorts.doing a || (a == k && is_do (act_seen action))) }
    ensures reads { (a : ℕ) → bit result.reading a ≡ (bit sorts.reading a || (a == k && is_read (act_seen action))) }
{
    match action {
        Action::Doing(_) => Sorts {
            doing: sorts.doing | 1 << k,
            ..sorts
        },
        Action::Reading(_) => Sorts {
            reading: sorts.reading | 1 << k,
            ..sorts
        },
    }
}

// The sorts of the actions of a selected file, where the fields of all are good.
// It reads frame after frame, as `action_frame` does: an iterator for both is no plainer, since it would
// take more lines than the two that they share.
pub(crate) fn sorts_of(selected: &Selected, n: u8) -> Result<Sorts, Fault>
    requires { n ≤ 64 }
    ensures { IfFramed selected.now.file.now (λ whole. MatchResult result (λ sorts. (acts : List Act) × (acts_of n whole.rest.actions ≡ Ok acts) × Sorted acts sorts) (λ e. acts_of n whole.rest.actions ≡ Err e)) }
{
    let file = selected.file();
    let mut place = HEADER_END;
    let mut sorts = Sorts {
        doing: 0,
        reading: 0,
    };
    for k in 0..selected.actions() {
        let frame = Frame::read(file, place, Due::Body(k))?;
        let action = action_of(frame, n).ok_or(Refusal::BadField.at(place))?;
        sorts = noted(sorts, k, action);
        place = frame.end();
    }
    Ok(sorts)
}

// The frame of the action of this number, where the file has that many actions. By a loop, since an iterator over frames
// would be longer than it.
pub(crate) fn action_frame(file: &[u8], number: usize) -> Option<Frame<'_>>
    ensures fits { IfSome result (λ frame. Fits frame) }
    ensures value { IfFramed file.now (λ whole. number < length whole.rest.actions → MatchOption result ⊥ (λ frame. (sheet : Sheet) × ((d : Sheet) → slice_index_or whole.rest.actions number d ≡ sheet) × Shows frame sheet × (is_action sheet.kind ≡ true))) }
{
    let mut place = HEADER_END;
    for k in 0..number {
        place = Frame::read(file, place, Due::Body(k)).ok()?.end();
    }
    Frame::read(file, place, Due::Body(number)).ok()
}
