use crate::faults::{Fault, Refusal};
use crate::literals::{Fluent, Literal};
use crate::sets::has;
use std::process::Abort;
use std::test::Fail;

// The call was refused by this number, at place 0.
// Each crate has its own copy, since tests cannot use another crate's tests.
fn refused<T: Drop>(rt: &impl Abort, answer: Result<T, Fault>, number: u8) -> Result<(), Fail> {
    match answer {
        Ok(_) => Err(Fail::new("not refused")),
        Err(fault) => {
            assert_eq!(rt; fault.number(), number);
            assert_eq!(rt; fault.place, 0);
            Ok(())
        }
    }
}

#[test]
fn fluents_end_at_63(rt: HostRuntime) -> Result<(), Fail> {
    refused(&rt, Fluent::new(64), 5)?;
    refused(&rt, Literal::new(64, true), 5)?;
    let last = Fluent::new(63)?;
    assert_eq!(rt; last.alone(), 1 << 63);
    Ok(())
}

#[test]
fn no_set_has_a_member_above_63(rt: HostRuntime) {
    assert!(rt; has(1 << 63, 63));
    assert!(rt; !has(u64::MAX, 64));
}

#[test]
fn a_fault_is_printed_with_number_and_place(rt: HostRuntime) -> Result<(), Fail> {
    let fault = Refusal::TooManyReadings.at(65535);
    let text = format!(in rt.alloc(); "{fault}")?;
    assert_eq!(rt; text.as_str(), "refused 7 65535");
    let direct = Fault::from(Refusal::Contradiction);
    let text = format!(in rt.alloc(); "{direct}")?;
    assert_eq!(rt; text.as_str(), "refused 10 0");
    Ok(())
}
