use crate::actions::DoingAction;
use crate::kinds::Knowledge;
use crate::states::PartialState;
use crate::worlds::WorldList;
use fluents::faults::Fault;
use fluents::literals::{Fluent, Literal};
use std::process::Abort;
use std::test::Fail;

// The call was refused by this number, at place 0.
// Each crate has its own copy, since tests cannot use another crate's tests.
fn refused<T: Drop>(rt: &impl Abort, answer: Result<T, Fault>, number: u8) -> Result<(), Fail> {
    match answer {
        Ok(_) => Err(Fail::new("not refused")),
        Err(fault) => {
            assert_eq!(rt; fault.number(), number);
            assert_eq!(rt; fault.place, 0);
            Ok(())
        }
    }
}

#[test]
fn sets_that_meet_are_refused(rt: HostRuntime) -> Result<(), Fail> {
    refused(&rt, PartialState::new(1, 1), 5)?;
    let always = PartialState::new(0, 0)?;
    refused(&rt, DoingAction::new(always, 6, 2), 5)
}

#[test]
fn a_world_list_has_1_to_64_worlds(rt: HostRuntime) -> Result<(), Fail> {
    refused(&rt, WorldList::new(&[]), 4)?;
    refused(&rt, WorldList::new(&[7; 65]), 4)?;
    assert_eq!(rt; WorldList::new(&[7; 64])?.len(), 1);
    Ok(())
}

#[test]
fn a_world_list_ascends_without_repeats(rt: HostRuntime) -> Result<(), Fail> {
    let list = WorldList::new(&[5, 0, 5])?;
    assert_eq!(rt; list.len(), 2);
    assert_eq!(rt; list.get(0), Some(0));
    assert_eq!(rt; list.get(1), Some(5));
    assert_eq!(rt; list.get(2), None);
    Ok(())
}

#[test]
fn a_value_that_no_world_has_is_refused(rt: HostRuntime) -> Result<(), Fail> {
    let on = Literal::new(0, true)?;
    refused(&rt, WorldList::single(0).learn(on), 10)?;
    refused(&rt, PartialState::new(0, 1)?.learn(on), 10)
}

#[test]
fn a_list_is_split_on_a_fluent(rt: HostRuntime) -> Result<(), Fail> {
    let halves = WorldList::new(&[0, 5])?.split(Fluent::new(2)?);
    assert!(rt; halves.has_true & halves.has_false);
    assert_eq!(rt; halves.when_true.get(0), Some(5));
    assert_eq!(rt; halves.when_false.get(0), Some(0));
    Ok(())
}
