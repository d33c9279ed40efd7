// The contents of a selected file, frame by frame in file order.
ghost use Rattle.std.specs.Prelude.{◌≡◌, ◌≤◌, true, List, length, IfOk, Ok, Err, MatchResult, OnErr, slice_index};
ghost use Rattle.procedure.specs.Acts.{Sorted, row_of};
ghost use Rattle.procedure.specs.Fields.{is_header, row_at};
ghost use Rattle.procedure.specs.Procedures.{Act, Known, Procedure, good_or, placed, does_at, reads_at, known_of, procedure_of};
ghost use Rattle.procedure.specs.Said.{Says};
ghost use Rattle.procedure.specs.Starts.{Gives};
ghost use Rattle.plans.specs.Checks.{plan_of};
ghost use Rattle.plans.specs.Trees.{Plan};
ghost use Rattle.procedure.specs.Asked.{IfFramed};

use crate::acts::sorts_of;
use crate::fields::{Header, header_fields};
use crate::starts::{Start, start_into};
use fluents::faults::{Fault, Refusal};
use frames::frame::{Due, Frame, Payload};
use frames::selected::Selected;
use knowledge::worlds::WorldList;
use plans::Sorts;

// The header of a selected file.
fn read_header(selected: &Selected) -> Result<Header, Fault>
    ensures few { IfOk result (λ h. h.n ≤ 64) }
    ensures value { IfFramed selected.now.file.now (λ whole. MatchResult result (λ h. (good_or whole.header (is_header whole.header.payload) (slice_index whole.header.payload 0) ≡ Ok h.n) × (row_of h.goal ≡ row_at whole.header.payload 1)) (λ e. good_or whole.header (is_header whole.header.payload) (slice_index whole.header.payload 0) ≡ Err e)) }
{
    let frame = Frame::read(selected.file(), 0, Due::Header)?;
    header_fields(frame.payload().bytes).ok_or(Refusal::BadField.at(0))
}

// Checks the plan of a selected file, and answers how many bytes it has.
fn check_plan(selected: &Selected, sorts: Sorts) -> Result<usize, Fault>
    ensures { IfFramed selected.now.file.now (λ whole. (acts : List Act) → Sorted acts sorts → MatchResult result (λ len. (len ≡ length whole.rest.plan.payload) × ((plan : Plan) × (plan_of (does_at acts) (reads_at acts) whole.rest.plan.payload ≡ Ok plan))) (λ e. placed whole.rest.plan (plan_of (does_at acts) (reads_at acts) whole.rest.plan.payload) ≡ Err e)) }
{
    let due = Due::Body(selected.actions());
    let Payload { bytes, place } = Frame::read(selected.file(), selected.plan(), due)?.payload();
    plans::check(bytes, sorts).map_err(|flaw| flaw.refusal.at(place + flaw.offset))?;
    Ok(bytes.len())
}

// The start of a selected file; worlds go into the list, which otherwise stays as it was.
fn read_start(selected: &Selected, n: u8, list: &mut WorldList) -> Result<Start, Fault>
    ensures stays { OnErr result (list.new ≡ list.old) }
    ensures value { IfFramed selected.now.file.now (λ whole. MatchResult result (λ start. (known : Known) × (known_of n whole.rest.start ≡ Ok known) × Gives start list.old list.new known) (λ e. known_of n whole.rest.start ≡ Err e)) }
{
    let place = selected.start();
    let frame = Frame::read(selected.file(), place, Due::Start)?;
    start_into(frame, n, list).ok_or(Refusal::BadField.at(place))
}

// What the fields of a file say.
#[derive(Clone, Copy)]
pub(crate) struct Contents {
    pub header: Header,
    // how many bytes the plan has
    pub len: usize,
    pub start: Start,
}

// Checks all fields of a selected file, or says the first refusal; worlds go into the list, which otherwise stays as it was.
pub(crate) fn contents_of(selected: &Selected, list: &mut WorldList) -> Result<Contents, Fault>
    ensures { MatchResult result (λ found. (p : Procedure) × (procedure_of selected.now.file.now ≡ Ok p) × Says found selected.now.actions selected.now.plan p × Gives found.start list.old list.new p.start) (λ e. (procedure_of selected.now.file.now ≡ Err e) × (list.new ≡ list.old)) }
{
    let header = read_header(selected)?;
    let sorts = sorts_of(selected, header.n)?;
    let len = check_plan(selected, sorts)?;
    let start = read_start(selected, header.n, list)?;
    Ok(Contents { header, len, start })
}
