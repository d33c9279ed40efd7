use crate::Permit;
use std::process::Abort;

// Bit 0 is set while the permit is held, and the word is as before once it is given back.
fn given_back(rt: &impl Abort, before: u32) {
    let mut word = before;
    let permit = Permit::raise(&mut word);
    let word = permit.lower();
    assert_eq!(rt; *word, before);
}

// The same where the permit is let go.
fn let_go(rt: &impl Abort, before: u32) {
    let mut word = before;
    {
        let _permit = Permit::raise(&mut word);
    }
    assert_eq!(rt; word, before);
}

#[test]
fn the_word_comes_back(rt: HostRuntime) {
    given_back(&rt, 0);
    given_back(&rt, 1);
    given_back(&rt, u32::MAX);
    given_back(&rt, u32::MAX - 1);
}

#[test]
fn a_permit_that_is_let_go_is_lowered(rt: HostRuntime) {
    let_go(&rt, 0);
    let_go(&rt, 1);
    let_go(&rt, u32::MAX);
    let_go(&rt, u32::MAX - 1);
}
