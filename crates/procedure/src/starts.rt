// The start of a file.
ghost use Rattle.std.specs.Prelude.{◌≡◌, ◌/◌, ◌≤◌, true, false, length, IfNone, Ok, Err, MatchOption, OnSome};
ghost use Rattle.std.specs.List.{list_all};
ghost use Rattle.fluents.specs.Refusals.{fault_at};
ghost use Rattle.fluents.specs.declared.faults.Refusal.TheVariants.{BadField};
ghost use Rattle.frames.specs.Frames.{is_due, Frame as Sheet};
ghost use Rattle.frames.specs.Seen.{Shows, kind_of, Fits};
ghost use Rattle.frames.specs.declared.frame.Due.TheVariants.{Start as StartDue};
ghost use Rattle.procedure.specs.Fields.{is_inside, worlds_in, are_inside};
ghost use Rattle.procedure.specs.Procedures.{Known, worlds, known_of};
ghost use Rattle.procedure.specs.Starts.{Gives};

use crate::fields::{is_inside, set_at, state_at};
use arrayvec::ArrayVec;
use frames::frame::Frame;
use knowledge::states::PartialState;
use knowledge::worlds::{World, WorldList};

// What is known at the start of a procedure.
#[derive(Clone, Copy)]
pub enum Start {
    // a partial state
    Partial(PartialState),
    // the worlds that were put into the lent list, which a rule of the project has them go to
    Worlds,
}

// The worlds of a payload, in the order of the file: each is eight bytes.
// Each is read at its place, as every set of a payload is; chunks of eight would be a second way to read one.
fn worlds_in(bytes: &[u8]) -> ArrayVec<World, 64>
    requires { length bytes.now ≤ 512 }
    ensures items { result.items ≡ worlds_in bytes.now }
    ensures len { length result.items ≡ length bytes.now / 8 }
{
    let mut worlds = ArrayVec::new();
    for i in 0..bytes.len() / 8 {
        worlds.push(set_at(bytes, 8 * i));
    }
    worlds
}

// Whether all worlds have only members below n.
fn are_inside(worlds: &[World], n: u8) -> bool
    ensures { result ≡ list_all (λ w. is_inside n w) worlds.now }
{
    worlds.iter().all(|world| is_inside(*world, n))
}

// Puts the worlds of a payload into the list, where they have only members below n.
fn worlds_into(bytes: &[u8], n: u8, list: &mut WorldList) -> Option<Start>
    requires { (8 ≤ length bytes.now) × (length bytes.now ≤ 512) }
    ensures { MatchOption result ((are_inside n (worlds_in bytes.now) ≡ false) × (list.new ≡ list.old)) (λ start. (are_inside n (worlds_in bytes.now) ≡ true) × Gives start list.old list.new (worlds (worlds_in bytes.now))) }
{
    let worlds = worlds_in(bytes);
    if !are_inside(&worlds, n) {
        return None;
    }
    *list = WorldList::new(&worlds).ok()?;
    Some(Start::Worlds)
}

// The start of a frame, where its fields are good; worlds go into the list, which otherwise stays as it was.
// `requires` says that the length fits the kind, since an enum has no invariant of its own.
pub(crate) fn start_into(frame: Frame, n: u8, list: &mut WorldList) -> Option<Start>
    requires { Fits frame }
    ensures kind { OnSome result (is_due StartDue (kind_of frame.entry) ≡ true) }
    ensures stays { IfNone result (list.new ≡ list.old) }
    ensures value { (sheet : Sheet) → Shows frame.entry sheet → is_due StartDue sheet.kind ≡ true → MatchOption result (known_of n sheet ≡ Err (fault_at BadField sheet.place)) (λ start. (known : Known) × (known_of n sheet ≡ Ok known) × Gives start list.old list.new known) }
{
    match frame {
        Frame::PartialStart(payload) => state_at(payload.bytes, 0, n).map(Start::Partial),
        Frame::WorldStart(payload) => worlds_into(payload.bytes, n, list),
        Frame::Header(_) | Frame::Doing(_) | Frame::Reading(_) | Frame::Plan(_) => None,
    }
}
