//! Programs of a run that are not read to their ends, or not waited for.

use crate::breaking::{Fault, Object};
use crate::scripts::{A_AND_B, A_PASSED, B_PASSED, ENDED, NEVER, RUN};
use crate::trying::{is_left, play_over};
use edge_io::Finish;
use std::sync::Wait;
use std::test::Fail;
use std::thread::Threads;
use trial_calls::{NOTHING, tells_of};

const TWO_RUNS: (u8, &[u8], &[u8]) = (0, b"runs=2\n", NOTHING);

// No call of the outside fails.
const NO_FAULT: Fault = Fault {
    object: Object::Folder,
    call: NEVER,
};

// So many bytes from the front.
fn front(bytes: &[u8], size: usize) -> &[u8] {
    &bytes[..size.min(bytes.len())]
}

// Whether a listing that gives this and ends so is told of, and the folder is as before.
fn listing_is_told_of<R: Threads + Wait + Sync + AllocGlobal>(
    rt: &R,
    output: &[u8],
    finish: Finish,
) -> Result<bool, Fail> {
    let outputs = [(output, finish), (A_PASSED, ENDED), (B_PASSED, ENDED)];
    let mut left = play_over(rt, &RUN, &outputs, NO_FAULT, &[])?;
    Ok(
        left.told
            .is(4, NOTHING, b"testr: fault reading a program\n")
            && left.project.spawner.started().len() == 1
            && is_left(rt, &RUN, &mut left.shelf, false)?,
    )
}

#[test]
fn a_listing_that_is_not_read_to_its_end_is_told_of(rt: HostRuntime) -> Result<(), Fail> {
    for size in 0..21 {
        let output = front(A_AND_B, size);
        assert!(rt;
            listing_is_told_of(&rt, output, Finish::ReadFault)?,
            "{size} bytes"
        );
    }
    assert!(rt; listing_is_told_of(&rt, A_AND_B, Finish::WaitFault)?);
    Ok(())
}

// What is reported of a worker that was not read to its end.
const READ_FAULT: &str =
    "======================================================================\nFAIL: process-returncode\n----------------------------------------------------------------------\nread fault\n";

// Whether the bytes tell so.
fn reports_read_fault(report: &[u8]) -> bool {
    match str::from_utf8(report) {
        Ok(report) => report.contains(READ_FAULT),
        Err(_) => false,
    }
}

// Whether a run whose first worker gives this and ends so is kept, and its report tells so.
fn worker_is_told_of<R: Threads + Wait + Sync + AllocGlobal>(
    rt: &R,
    output: &[u8],
    finish: Finish,
) -> Result<bool, Fail> {
    let outputs = [(A_AND_B, ENDED), (output, finish), (B_PASSED, ENDED)];
    let mut left = play_over(rt, &RUN, &outputs, NO_FAULT, &[])?;
    Ok(
        left.told.status == 1
            && reports_read_fault(&left.told.out)
            && tells_of(
                rt,
                &["testr", "stats"],
                &mut left.shelf,
                NOTHING,
                1,
                TWO_RUNS,
            )?,
    )
}

#[test]
fn a_worker_that_is_not_read_to_its_end_fails(rt: HostRuntime) -> Result<(), Fail> {
    for size in 0..11 {
        let output = front(A_PASSED, size);
        assert!(rt;
            worker_is_told_of(&rt, output, Finish::ReadFault)?,
            "{size} bytes"
        );
    }
    assert!(rt; worker_is_told_of(&rt, A_PASSED, Finish::WaitFault)?);
    Ok(())
}
