use crate::OneWorld;
use fluents::faults::{Fault, Refusal};
use fluents::literals::{Fluent, Literal};
use frames::selected::Selected;
use knowledge::actions::DoingAction;
use knowledge::kinds::Knowledge;
use knowledge::states::PartialState;
use knowledge::worlds::WorldList;
use meaning::answers::{Cause, Stop, Verdict};
use procedure::loaded::Loaded;
use procedure::loaded::reader::Opened;
use runs::follow::follow;
use runs::walk::walk;
use std::process::Abort;
use std::test::Fail;

// The value was refused by number 10, at place 0.
// Each crate has its own copy, since tests cannot use another crate's tests.
fn refused(rt: &impl Abort, answer: Result<OneWorld, Fault>) -> Result<(), Fail> {
    match answer {
        Ok(_) => Err(Fail::new("not refused")),
        Err(fault) => {
            assert_eq!(rt; fault.number(), 10);
            assert_eq!(rt; fault.place, 0);
            Ok(())
        }
    }
}

#[test]
fn every_literal_is_known_or_its_opposite(rt: HostRuntime) -> Result<(), Fail> {
    let known = OneWorld::new(5);
    assert!(rt; known.knows(Literal::new(2, true)?));
    assert!(rt; !known.knows(Literal::new(2, false)?));
    assert!(rt; known.knows(Literal::new(63, false)?));
    assert!(rt; !known.knows(Literal::new(63, true)?));
    Ok(())
}

#[test]
fn an_action_takes_del_and_gives_add(rt: HostRuntime) -> Result<(), Fail> {
    let action = DoingAction::new(PartialState::new(0, 0)?, 0b1010, 0b0101)?;
    assert_eq!(rt; OneWorld::new(0b10110).apply(action).world(), 0b11010);
    Ok(())
}

#[test]
fn what_the_world_has_can_be_learned(rt: HostRuntime) -> Result<(), Fail> {
    let known = OneWorld::new(5);
    assert_eq!(rt; known.learn(Literal::new(0, true)?)?, known);
    assert_eq!(rt; known.learn(Literal::new(1, false)?)?, known);
    Ok(())
}

#[test]
fn a_value_that_the_world_has_not_is_refused(rt: HostRuntime) -> Result<(), Fail> {
    let known = OneWorld::new(5);
    refused(&rt, known.learn(Literal::new(0, false)?))?;
    refused(&rt, known.learn(Literal::new(1, true)?))
}

#[test]
fn one_half_of_a_split_is_absent(rt: HostRuntime) -> Result<(), Fail> {
    let known = OneWorld::new(5);
    let on = known.split(Fluent::new(2)?);
    assert!(rt; on.has_true & !on.has_false);
    assert_eq!(rt; on.when_true, known);
    let off = known.split(Fluent::new(1)?);
    assert!(rt; !off.has_true & off.has_false);
    assert_eq!(rt; off.when_false, known);
    Ok(())
}

// Fluent 2 is read: where it is true, action 0 (which needs fluent 0) makes fluent 1 true, the goal; where it is false,
// action 1 (which needs fluent 0 false) makes fluent 0 true before that. The reading stands at place 187, the true branch at 189.
// Each crate has its own copy, since tests cannot use another crate's tests.
const FILE: &[u8; 221] = b"\
\x11\x00\x01\x00\x03\x02\x00\x00\x00\x00\x00\x00\x00\x00\x00\x00\x00\x00\x00\x00\x00\x17\x00\
\x20\x00\x02\x00\x01\x00\x00\x00\x00\x00\x00\x00\x00\x00\x00\x00\x00\x00\x00\x00\x02\x00\x00\x00\x00\x00\x00\x00\x00\x00\x00\x00\x00\x00\x00\x00\x25\x00\
\x20\x00\x02\x00\x00\x00\x00\x00\x00\x00\x00\x00\x01\x00\x00\x00\x00\x00\x00\x00\x01\x00\x00\x00\x00\x00\x00\x00\x00\x00\x00\x00\x00\x00\x00\x00\x24\x00\
\x11\x00\x03\x00\x00\x00\x00\x00\x00\x00\x00\x00\x00\x00\x00\x00\x00\x00\x00\x00\x00\x14\x00\
\x20\x00\x02\x00\x00\x00\x00\x00\x00\x00\x00\x00\x00\x00\x00\x00\x00\x00\x00\x00\x00\x00\x00\x00\x00\x00\x00\x00\x02\x00\x00\x00\x00\x00\x00\x00\x24\x00\
\x11\x00\x03\x00\x00\x00\x00\x00\x00\x00\x00\x00\x00\x00\x00\x00\x00\x00\x00\x00\x02\x16\x00\
\x0a\x00\x04\x00\x02\x04\x01\x00\x00\x01\x01\x01\x00\x00\x18\x00\
\x10\x00\x05\x00\x00\x00\x00\x00\x00\x00\x00\x00\x02\x00\x00\x00\x00\x00\x00\x00\x17\x00";

// The file, loaded.
fn opened() -> Result<Opened<'static>, Fail> {
    let selected = Selected::select(FILE)?;
    let mut list = WorldList::single(0);
    match Loaded::load(selected, &mut list) {
        Ok(opened) => Ok(opened),
        Err(_) => Err(Fail::new("not loaded")),
    }
}

#[test]
fn a_plan_is_followed(rt: HostRuntime) -> Result<(), Fail> {
    let opened = opened()?;
    assert_eq!(rt; follow(&opened.loaded, OneWorld::new(0)), Verdict::Holds);
    assert_eq!(rt;
        follow(&opened.loaded, OneWorld::new(4)),
        Verdict::Fails {
            place: 189,
            cause: Cause::UnmetConditions,
        }
    );
    Ok(())
}

#[test]
fn a_plan_is_walked(rt: HostRuntime) -> Result<(), Fail> {
    let opened = opened()?;
    let ended = walk(&opened.loaded, OneWorld::new(0), &[false, true]);
    assert_eq!(rt; ended.stop, Stop::EndedWell);
    assert_eq!(rt; ended.used, 1);
    let waits = walk(&opened.loaded, OneWorld::new(0), &[]);
    assert_eq!(rt; waits.stop, Stop::UsedUp { place: 187 });
    assert_eq!(rt; waits.used, 0);
    Ok(())
}

#[test]
fn a_walk_refuses_a_value_and_fails_at_a_node(rt: HostRuntime) -> Result<(), Fail> {
    let opened = opened()?;
    let refused = walk(&opened.loaded, OneWorld::new(0), &[true]);
    assert_eq!(rt; refused.used, 1);
    assert_eq!(rt; refused.stop, Stop::Refused(Refusal::Contradiction.at(187)));
    let failed = walk(&opened.loaded, OneWorld::new(4), &[true]);
    assert_eq!(rt;
        failed.stop,
        Stop::Failed {
            place: 189,
            cause: Cause::UnmetConditions,
        }
    );
    Ok(())
}
