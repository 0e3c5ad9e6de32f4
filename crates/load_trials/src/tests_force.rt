//! `testr load --force-init`: a repository is made where there is none, and then all goes on.

use crate::folders::{empty, of_format};
use edge_io::{MemShelf, Shelf};
use std::process::Abort;
use std::sync::Wait;
use std::test::Fail;
use std::thread::Threads;
use trial_calls::{
    FOO, FOO_KEPT, NOTHING, PASSED_AS_0, PASSED_AS_1, SHELF_FAULT, has_file, loads,
    tells_and_leaves,
};

const NO_STORE: &[u8] = b"testr: no repository here\n";

const FORMAT: &[u8] = b"subunit-store 1\n";

const FORCED: &[&str] = &["testr", "load", "--force-init"];

// Whether a load that makes a repository where there is none tells this of `FOO`, and leaves so many bytes of it.
fn forced<R: Threads + Wait + Sync + AllocGlobal>(
    rt: &R,
    shelf: &mut MemShelf,
    wanted: (u8, &[u8], &[u8]),
    left: usize,
) -> Result<bool, Fail> {
    tells_and_leaves(rt, FORCED, shelf, FOO, 12, wanted, left)
}

fn is_made_on_the_way<R: Threads + Wait + Sync + AllocGlobal + Abort>(
    rt: &R,
    shelf: &mut MemShelf,
) -> Result<(), Fail> {
    assert!(rt; forced(rt, shelf, (0, PASSED_AS_0, NOTHING), 0)?);
    assert!(rt; has_file(shelf, "format", FORMAT)?);
    assert!(rt; has_file(shelf, "0", FOO_KEPT)?);
    // The second one finds it there, and a load without the option does.
    assert!(rt; forced(rt, shelf, (0, PASSED_AS_1, NOTHING), 0)?);
    assert!(rt; has_file(shelf, "1", FOO_KEPT)?);
    Ok(())
}

#[test]
fn a_repository_is_made_on_the_way(rt: HostRuntime) -> Result<(), Fail> {
    let mut shelf = empty(rt.alloc(), &[])?;
    assert!(rt; loads(&rt, &mut shelf, FOO, (3, NOTHING, NO_STORE))?);
    is_made_on_the_way(&rt, &mut shelf)
}

#[test]
fn another_format_is_left_and_refused(rt: HostRuntime) -> Result<(), Fail> {
    for bytes in [b"1\n".as_slice(), NOTHING] {
        let mut shelf = of_format(rt.alloc(), bytes)?;
        let line = b"testr: unknown repository format\n";
        assert!(rt; forced(&rt, &mut shelf, (3, NOTHING, line), 12)?);
        assert!(rt; has_file(&mut shelf, "format", bytes)?);
    }
    Ok(())
}

// Whether a load whose folder fails tells of it, having left so much of the input, and the next one reports so.
fn fails_at<R: Threads + Wait + Sync + AllocGlobal>(
    rt: &R,
    shelf: &mut MemShelf,
    left: usize,
    report: &[u8],
) -> Result<bool, Fail> {
    Ok(
        forced(rt, shelf, (4, NOTHING, SHELF_FAULT), left)?
            && forced(rt, shelf, (0, report, NOTHING), 0)?
            && has_file(shelf, "format", FORMAT)?
            && has_file(shelf, "0", FOO_KEPT)?,
    )
}

#[test]
fn each_call_of_the_folder_may_fail(rt: HostRuntime) -> Result<(), Fail> {
    // Seven calls make the repository: the barrier, the format's length, the draft, its bytes, its sync, the publish, the
    // barrier. Nine keep the run, of which four look and one begins the draft before the input is read.
    for call in 0..16 {
        let mut shelf = empty(rt.alloc(), &[call])?;
        let left = if call < 12 { 12 } else { 0 };
        let report = if call == 15 { PASSED_AS_1 } else { PASSED_AS_0 };
        assert!(rt; fails_at(&rt, &mut shelf, left, report)?, "call {call}");
    }
    Ok(())
}

// Whether a stop leaves the one of the three that it must: no repository, one without a run, or one with the run.
fn is_left_after<R: Threads + Wait + Sync + AllocGlobal>(
    rt: &R,
    shelf: &MemShelf,
    moment: u64,
    choice: bool,
) -> Result<bool, Fail> {
    let mut image = shelf.image(moment, choice)?;
    // The sixth call names the format, and the fifteenth the run.
    let made = moment >= 7 || (moment == 6 && choice);
    let kept = moment >= 16 || (moment == 15 && choice);
    let wanted = match (made, kept) {
        (false, _) => (3, NOTHING, NO_STORE),
        (true, false) => (0, PASSED_AS_0, NOTHING),
        (true, true) => (0, PASSED_AS_1, NOTHING),
    };
    Ok(image.length("0")?.is_some() == kept && loads(rt, &mut image, FOO, wanted)?)
}

fn is_left_after_each<R: Threads + Wait + Sync + AllocGlobal + Abort>(
    rt: &R,
    shelf: &MemShelf,
) -> Result<(), Fail> {
    for moment in 0..18 {
        for choice in [false, true] {
            assert!(rt;
                is_left_after(rt, shelf, moment, choice)?,
                "moment {moment}, {choice}"
            );
        }
    }
    Ok(())
}

#[test]
fn a_stop_leaves_no_repository_an_empty_one_or_one_with_the_run(
    rt: HostRuntime,
) -> Result<(), Fail> {
    let mut shelf = empty(rt.alloc(), &[])?;
    assert!(rt; forced(&rt, &mut shelf, (0, PASSED_AS_0, NOTHING), 0)?);
    is_left_after_each(&rt, &shelf)
}
