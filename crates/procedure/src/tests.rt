use crate::loaded::Loaded;
use crate::starts::Start;
use frames::selected::Selected;
use knowledge::worlds::WorldList;
use std::alloc::{AllocError, Global};
use std::process::Abort;
use std::test::Fail;

// The place of the plan's first byte: the header frame and the action's have 23 bytes each.
const PLAN: usize = 50;

// The place of the start frame behind a plan of one byte.
const START: usize = 53;

// Adds a frame with this payload of at most 255 bytes.
fn add(file: &mut Vec<u8>, kind: u8, payload: &[u8]) -> Result<(), AllocError> {
    let len = (payload.len() & 0xff) as u8;
    let mut sum = u16::from(len).wrapping_add(u16::from(kind));
    for byte in payload {
        sum = sum.wrapping_add(u16::from(*byte));
    }
    file.extend_from_slice(&[len, 0, kind, 0])?;
    file.extend_from_slice(payload)?;
    file.extend_from_slice(&sum.to_le_bytes())
}

// A file with n fluents, one action, which reads fluent 0, this plan, and a start of this kind.
fn file_of(
    heap: Global,
    n: u8,
    plan: &[u8],
    kind: u8,
    start: &[u8],
) -> Result<Vec<u8>, AllocError> {
    let mut header = [0; 17];
    header[0] = n;
    let mut file = Vec::new(heap);
    add(&mut file, 1, &header)?;
    add(&mut file, 3, &[0; 17])?;
    add(&mut file, 4, plan)?;
    add(&mut file, kind, start)?;
    Ok(file)
}

// A plan of so many readings, each in the true branch of the one before.
fn nested(heap: Global, readings: usize) -> Result<Vec<u8>, AllocError> {
    let mut plan = Vec::new(heap);
    for _ in 0..readings {
        plan.extend_from_slice(&[2, 0])?;
    }
    plan.push(0)?;
    for _ in 0..readings {
        plan.push(0)?;
    }
    Ok(plan)
}

// The list has just the world 7.
fn has_seven(rt: &impl Abort, list: &WorldList) -> Result<(), Fail> {
    assert_eq!(rt; list.len(), 1);
    assert_eq!(rt; list.get(0), Some(7));
    Ok(())
}

// Load refuses the file by this number at this place, gives it back, and leaves the list as it was.
fn refused(rt: &impl Abort, file: &[u8], number: u8, place: usize) -> Result<(), Fail> {
    let mut list = WorldList::single(7);
    match Loaded::load(Selected::select(file)?, &mut list) {
        Ok(_) => Err(Fail::new("not refused")),
        Err(unloaded) => {
            assert_eq!(rt; unloaded.fault.number(), number);
            assert_eq!(rt; unloaded.fault.place, place);
            assert_eq!(rt; unloaded.selected.actions(), 1);
            assert_eq!(rt; unloaded.selected.plan(), PLAN - 4);
            has_seven(rt, &list)
        }
    }
}

// The start of a file that is loaded, and has this plan.
fn start_of(
    rt: &impl Abort,
    file: &[u8],
    plan: &[u8],
    list: &mut WorldList,
) -> Result<Start, Fail> {
    match Loaded::load(Selected::select(file)?, list) {
        Ok(opened) => {
            assert_eq!(rt; opened.loaded.actions(), 1);
            assert!(rt; opened.loaded.action(0).is_some());
            assert!(rt; opened.loaded.action(1).is_none());
            assert_eq!(rt; opened.loaded.plan().place, PLAN);
            assert_eq!(rt; opened.loaded.plan().bytes, plan);
            Ok(opened.start)
        }
        Err(_) => Err(Fail::new("refused")),
    }
}

#[test]
fn a_header_without_fluents_is_refused(rt: HostRuntime) -> Result<(), Fail> {
    refused(&rt, &file_of(rt.alloc(), 0, &[0], 5, &[0; 16])?, 5, 0)
}

#[test]
fn a_plan_with_a_byte_left_over_is_refused(rt: HostRuntime) -> Result<(), Fail> {
    refused(
        &rt,
        &file_of(rt.alloc(), 1, &[0, 0], 5, &[0; 16])?,
        6,
        PLAN + 1,
    )
}

#[test]
fn the_ninth_reading_is_refused(rt: HostRuntime) -> Result<(), Fail> {
    let plan = nested(rt.alloc(), 9)?;
    refused(
        &rt,
        &file_of(rt.alloc(), 1, &plan, 5, &[0; 16])?,
        7,
        PLAN + 16,
    )
}

#[test]
fn a_world_out_of_range_is_refused(rt: HostRuntime) -> Result<(), Fail> {
    let worlds = [1, 0, 0, 0, 0, 0, 0, 0, 2, 0, 0, 0, 0, 0, 0, 0];
    refused(&rt, &file_of(rt.alloc(), 1, &[0], 6, &worlds)?, 5, START)
}

#[test]
fn a_partial_start_leaves_the_list(rt: HostRuntime) -> Result<(), Fail> {
    let plan = nested(rt.alloc(), 8)?;
    let mut partial = [0; 16];
    partial[0] = 1;
    let file = file_of(rt.alloc(), 1, &plan, 5, &partial)?;
    let mut list = WorldList::single(7);
    match start_of(&rt, &file, &plan, &mut list)? {
        Start::Partial(state) => {
            assert_eq!(rt; state.trues(), 1);
            assert_eq!(rt; state.falses(), 0);
        }
        Start::Worlds => return Err(Fail::new("not partial")),
    }
    has_seven(&rt, &list)
}

#[test]
fn worlds_go_into_the_list(rt: HostRuntime) -> Result<(), Fail> {
    let mut worlds = [0; 24];
    worlds[0] = 5;
    worlds[16] = 5;
    let file = file_of(rt.alloc(), 3, &[0], 6, &worlds)?;
    let mut list = WorldList::single(7);
    match start_of(&rt, &file, &[0], &mut list)? {
        Start::Partial(_) => return Err(Fail::new("not worlds")),
        Start::Worlds => {}
    }
    assert_eq!(rt; list.len(), 2);
    assert_eq!(rt; list.get(0), Some(0));
    assert_eq!(rt; list.get(1), Some(5));
    Ok(())
}
