use crate::answers::Rejection;
use crate::armed::Armed;
use crate::known::Known;
use crate::visit::visit;
use fluents::faults::Refusal;
use frames::selected::Selected;
use knowledge::states::PartialState;
use knowledge::worlds::WorldList;
use meaning::answers::{Cause, Stop};
use procedure::loaded::Loaded;
use runs::walk::Walked;
use std::process::Abort;
use std::test::Fail;

// Fluent 2 is read: where it is true, action 0 (which needs fluent 0) makes fluent 1 true, the goal; where it is false,
// action 1 (which needs fluent 0 false) makes fluent 0 true before that. The reading stands at place 187, the true branch at 189.
// Each crate has its own copy, since tests cannot use another crate's tests.
const FILE: &[u8; 221] = b"\
\x11\x00\x01\x00\x03\x02\x00\x00\x00\x00\x00\x00\x00\x00\x00\x00\x00\x00\x00\x00\x00\x17\x00\
\x20\x00\x02\x00\x01\x00\x00\x00\x00\x00\x00\x00\x00\x00\x00\x00\x00\x00\x00\x00\x02\x00\x00\x00\x00\x00\x00\x00\x00\x00\x00\x00\x00\x00\x00\x00\x25\x00\
\x20\x00\x02\x00\x00\x00\x00\x00\x00\x00\x00\x00\x01\x00\x00\x00\x00\x00\x00\x00\x01\x00\x00\x00\x00\x00\x00\x00\x00\x00\x00\x00\x00\x00\x00\x00\x24\x00\
\x11\x00\x03\x00\x00\x00\x00\x00\x00\x00\x00\x00\x00\x00\x00\x00\x00\x00\x00\x00\x00\x14\x00\
\x20\x00\x02\x00\x00\x00\x00\x00\x00\x00\x00\x00\x00\x00\x00\x00\x00\x00\x00\x00\x00\x00\x00\x00\x00\x00\x00\x00\x02\x00\x00\x00\x00\x00\x00\x00\x24\x00\
\x11\x00\x03\x00\x00\x00\x00\x00\x00\x00\x00\x00\x00\x00\x00\x00\x00\x00\x00\x00\x02\x16\x00\
\x0a\x00\x04\x00\x02\x04\x01\x00\x00\x01\x01\x01\x00\x00\x18\x00\
\x10\x00\x05\x00\x00\x00\x00\x00\x00\x00\x00\x00\x02\x00\x00\x00\x00\x00\x00\x00\x17\x00";

// A visit of the file's procedure: how it came out, and that the word came back.
fn visited(
    rt: &impl Abort,
    start: Known,
    before: u32,
    readings: &[bool],
) -> Result<Result<Walked, Rejection>, Fail> {
    let selected = Selected::select(FILE)?;
    let mut list = WorldList::single(0);
    let Ok(opened) = Loaded::load(selected, &mut list) else {
        return Err(Fail::new("not loaded"));
    };
    let mut word = before;
    let finished = visit(opened.loaded, start, &mut word, readings);
    assert_eq!(rt; *finished.word, before);
    Ok(finished.visited)
}

// The same with the words 0, 1 and all ones: the run stops so, having taken so many values.
fn stops(
    rt: &impl Abort,
    start: Known,
    readings: &[bool],
    stop: Stop,
    used: usize,
) -> Result<(), Fail> {
    for before in [0, 1, u32::MAX] {
        assert_eq!(rt;
            visited(rt, start, before, readings)?,
            Ok(Walked { stop, used })
        );
    }
    Ok(())
}

#[test]
fn a_run_ends_well(rt: HostRuntime) -> Result<(), Fail> {
    let start = Known::Worlds(WorldList::new(&[0, 5])?);
    stops(&rt, start, &[true], Stop::EndedWell, 1)?;
    stops(
        &rt,
        Known::Partial(PartialState::new(0, 5)?),
        &[false, true],
        Stop::EndedWell,
        1,
    )
}

#[test]
fn a_value_that_no_world_has_ends_the_run(rt: HostRuntime) -> Result<(), Fail> {
    stops(
        &rt,
        Known::Partial(PartialState::new(0, 5)?),
        &[true],
        Stop::Refused(Refusal::Contradiction.at(187)),
        1,
    )
}

#[test]
fn a_reading_without_a_value_is_withdrawn(rt: HostRuntime) -> Result<(), Fail> {
    stops(
        &rt,
        Known::Partial(PartialState::new(5, 0)?),
        &[],
        Stop::UsedUp { place: 187 },
        0,
    )
}

#[test]
fn a_start_from_which_the_plan_fails_is_not_armed(rt: HostRuntime) -> Result<(), Fail> {
    for before in [0, 1, u32::MAX] {
        let visited = visited(&rt, Known::Partial(PartialState::new(0, 2)?), before, &[])?;
        let fault = Refusal::VerdictFails.at(189);
        let cause = Cause::UnmetConditions;
        assert_eq!(rt; visited, Err(Rejection { fault, cause }));
    }
    Ok(())
}

// The word while a run is armed, and after the run was given up.
fn given_up(rt: &impl Abort, before: u32) -> Result<(), Fail> {
    let selected = Selected::select(FILE)?;
    let mut list = WorldList::single(0);
    let Ok(opened) = Loaded::load(selected, &mut list) else {
        return Err(Fail::new("not loaded"));
    };
    let mut word = before;
    let start = Known::Worlds(WorldList::single(0));
    let Ok(armed) = Armed::arm(opened.loaded, start, &mut word) else {
        return Err(Fail::new("not armed"));
    };
    let raised = armed.word();
    let place = armed.place();
    let over = armed.give_up();
    let after = *over.word;
    assert_eq!(rt; raised, before | 1);
    assert_eq!(rt; place, 187);
    assert_eq!(rt; after, before);
    Ok(())
}

#[test]
fn a_run_is_given_up(rt: HostRuntime) -> Result<(), Fail> {
    given_up(&rt, 0)?;
    given_up(&rt, 1)?;
    given_up(&rt, u32::MAX)
}
