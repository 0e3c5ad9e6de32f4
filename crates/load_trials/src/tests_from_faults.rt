//! Calls of `testr upgrade --from=DIR` that fail or are stopped: the next call goes on with what they leave.

use crate::folders::empty;
use crate::other_folder::{
    FROM_OLD, OLD_FORMAT, UPGRADED, call_at, is_upgraded, site_of, tells_at, upgrades_from,
};
use edge_io::{MapSite, MemShelf, Shelf};
use std::ops::Range;
use std::process::Abort;
use std::sync::Wait;
use std::test::Fail;
use std::thread::Threads;
use trial_calls::{FOO, NOTHING, SHELF_FAULT, has_file, tells_of};

const NOT_OLD: (u8, &[u8], &[u8]) = (3, NOTHING, b"testr: nothing to upgrade\n");

const FAULT_HERE: (u8, &[u8], &[u8]) = (4, NOTHING, SHELF_FAULT);

const FAULT_THERE: (u8, &[u8], &[u8]) = (4, NOTHING, b"testr: fault reading a file\n");

// The calls of the folder here up to the last copy: a sync, a look for `format`, the names, and a look for each of six files.
// Five of these are not here, and are kept in five calls.
const COPY_CALLS: u64 = 34;

// The upgrade behind them has at most 64 calls.
const ALL_CALLS: u64 = 98;

// No call has more reads of the other folder.
const MOST_READS: u64 = 16;

// Whether the next call makes the folder a repository: the same call where it is none of the two tools, and an upgrade where it
// is an old one. Else it must be one already.
fn goes_on<R: Threads + Wait + Sync + AllocGlobal>(
    rt: &R,
    shelf: &mut MemShelf,
) -> Result<bool, Fail> {
    if shelf.length("format")?.is_none() {
        return Ok(upgrades_from(rt, shelf)? && is_upgraded(shelf)?);
    }
    let wanted = if has_file(shelf, "format", OLD_FORMAT)? {
        UPGRADED
    } else {
        NOT_OLD
    };
    Ok(tells_of(rt, &["testr", "upgrade"], shelf, FOO, 12, wanted)? && is_upgraded(shelf)?)
}

// Whether it does so behind a stop at this moment, by either choice.
fn is_left_well<R: Threads + Wait + Sync + AllocGlobal>(
    rt: &R,
    shelf: &MemShelf,
    moment: u64,
) -> Result<bool, Fail> {
    let mut image = shelf.image(moment, false)?;
    let mut other = shelf.image(moment, true)?;
    Ok(goes_on(rt, &mut image)? && goes_on(rt, &mut other)?)
}

// Whether the call is done, which is told in `done`, or tells this fault, as it may only where none with a lower number was done:
// a fault that is passed over would end the row of those that are told.
fn fails_in_turn<R: Threads + Wait + Sync + AllocGlobal>(
    rt: &R,
    shelf: &mut MemShelf,
    site: &mut MapSite,
    fault: (u8, &[u8], &[u8]),
    done: &mut bool,
) -> Result<bool, Fail> {
    let (status, out, err) = fault;
    let told = call_at(rt, FROM_OLD, shelf, site)?;
    let fails = told.is(status, out, err);
    let was_done = *done;
    *done = told.is(0, UPGRADED.1, NOTHING);
    Ok(*done || (fails && !was_done))
}

// Whether a copy fails at this call of the folder here, and what it leaves is well.
fn copy_fails_well<R: Threads + Wait + Sync + AllocGlobal>(
    rt: &R,
    number: u64,
) -> Result<bool, Fail> {
    let mut shelf = empty(rt.alloc(), &[number])?;
    let mut site = site_of(rt.alloc(), &[])?;
    Ok(
        tells_at(rt, FROM_OLD, &mut shelf, &mut site, FAULT_HERE)?
            && is_left_well(rt, &shelf, ALL_CALLS)?,
    )
}

// The same of the upgrade behind it, if there is such a call.
fn upgrade_fails_well<R: Threads + Wait + Sync + AllocGlobal>(
    rt: &R,
    number: u64,
    done: &mut bool,
) -> Result<bool, Fail> {
    let mut shelf = empty(rt.alloc(), &[number])?;
    let mut site = site_of(rt.alloc(), &[])?;
    Ok(
        fails_in_turn(rt, &mut shelf, &mut site, FAULT_HERE, done)?
            && is_left_well(rt, &shelf, ALL_CALLS)?,
    )
}

// The same of this read of the other folder.
fn read_fails_well<R: Threads + Wait + Sync + AllocGlobal>(
    rt: &R,
    number: u64,
    done: &mut bool,
) -> Result<bool, Fail> {
    let mut shelf = empty(rt.alloc(), &[])?;
    let mut site = site_of(rt.alloc(), &[number])?;
    Ok(
        fails_in_turn(rt, &mut shelf, &mut site, FAULT_THERE, done)?
            && is_left_well(rt, &shelf, ALL_CALLS)?,
    )
}

#[test]
fn each_call_of_a_copy_may_fail(rt: HostRuntime) -> Result<(), Fail> {
    for number in 0..COPY_CALLS {
        assert!(rt; copy_fails_well(&rt, number)?, "call {number}");
    }
    Ok(())
}

#[test]
fn each_call_behind_the_copies_may_fail(rt: HostRuntime) -> Result<(), Fail> {
    let mut done = false;
    for number in COPY_CALLS..ALL_CALLS {
        assert!(rt;
            upgrade_fails_well(&rt, number, &mut done)?,
            "call {number}"
        );
    }
    assert!(rt; done, "there are more calls");
    Ok(())
}

#[test]
fn each_read_there_may_fail(rt: HostRuntime) -> Result<(), Fail> {
    let mut done = false;
    for number in 0..MOST_READS {
        assert!(rt; read_fails_well(&rt, number, &mut done)?, "read {number}");
    }
    assert!(rt; done, "there are more reads");
    Ok(())
}

fn stops_well<R: Threads + Wait + Sync + AllocGlobal + Abort>(
    rt: &R,
    moments: Range<u64>,
) -> Result<(), Fail> {
    let mut shelf = empty(rt.alloc(), &[])?;
    assert!(rt; upgrades_from(rt, &mut shelf)?);
    for moment in moments {
        assert!(rt; is_left_well(rt, &shelf, moment)?, "moment {moment}");
    }
    Ok(())
}

#[test]
fn a_stop_among_the_copies_can_go_on(rt: HostRuntime) -> Result<(), Fail> {
    stops_well(&rt, 0..COPY_CALLS)
}

#[test]
fn a_stop_behind_the_copies_can_go_on(rt: HostRuntime) -> Result<(), Fail> {
    stops_well(&rt, COPY_CALLS..ALL_CALLS)
}
