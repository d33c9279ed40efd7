use crate::selected::Selected;
use std::alloc::{AllocError, Global};
use std::process::Abort;
use std::test::Fail;

// The file was refused by this number, at this place.
fn refused(rt: &impl Abort, file: &[u8], number: u8, place: usize) -> Result<(), Fail> {
    match Selected::select(file) {
        Ok(_) => Err(Fail::new("not refused")),
        Err(fault) => {
            assert_eq!(rt; fault.number(), number);
            assert_eq!(rt; fault.place, place);
            Ok(())
        }
    }
}

// Adds a frame whose payload is all zeros.
fn add(file: &mut Vec<u8>, kind: u8, len: u8) -> Result<(), AllocError> {
    file.extend_from_slice(&[len, 0, kind, 0])?;
    for _ in 0..len {
        file.push(0)?;
    }
    file.extend_from_slice(&[len.wrapping_add(kind), 0])
}

// A file with so many doing actions.
fn file_of(heap: Global, actions: usize) -> Result<Vec<u8>, AllocError> {
    let mut file = Vec::new(heap);
    add(&mut file, 1, 17)?;
    for _ in 0..actions {
        add(&mut file, 2, 32)?;
    }
    add(&mut file, 4, 1)?;
    add(&mut file, 5, 16)?;
    Ok(file)
}

#[test]
fn smallest_files_that_are_refused(rt: HostRuntime) -> Result<(), Fail> {
    refused(&rt, &[], 1, 0)?;
    refused(&rt, &[0, 0, 4, 0, 5, 0], 2, 0)?;
    refused(&rt, &[3, 0, 9, 0, 1, 2, 3, 18, 0], 3, 0)?;
    refused(&rt, &[0, 0, 1, 0, 1, 0], 4, 0)
}

#[test]
fn the_65th_action_is_refused(rt: HostRuntime) -> Result<(), Fail> {
    let most = file_of(rt.alloc(), 64)?;
    assert!(rt; Selected::select(&most).is_ok());
    refused(&rt, &file_of(rt.alloc(), 65)?, 8, 23 + 64 * 38)
}

#[test]
fn a_byte_behind_the_start_is_refused(rt: HostRuntime) -> Result<(), Fail> {
    let mut file = file_of(rt.alloc(), 0)?;
    let end = file.len();
    assert!(rt; Selected::select(&file).is_ok());
    file.push(0)?;
    refused(&rt, &file, 3, end)
}
