//! The files of the caches under the commands: which one is taken, and which runs are not read then.

ghost use Rattle.std.specs.Prelude.{◌≡◌, None};
ghost use Rattle.edge_io.specs.MemState.{folder_of};

use crate::configured::{CONF, ENDED, project_beside};
use edge_io::MemShelf;
use std::alloc::Global;
use std::sync::Wait;
use std::test::Fail;
use std::thread::Threads;
use trial_calls::{NOTHING, SHELF_FAULT, call_in, has_started, put, repository, tells_of};

// `a` and `b` failed.
const A_AND_B_FAILED: &[u8] =
    b"\xb3\x29\x06\x0a\x01\x61\xea\x1f\x37\x88\xb3\x29\x06\x0a\x01\x62\x73\x16\x66\x32";

// `a` passed and `c` failed.
const A_PASSED_C_FAILED: &[u8] =
    b"\xb3\x29\x03\x0a\x01\x61\xdd\xc1\xc7\xba\xb3\x29\x06\x0a\x01\x63\x04\x11\x56\xa4";

// `b` passed.
const B_PASSED: &[u8] = b"\xb3\x29\x03\x0a\x01\x62\x44\xc8\x96\x00";

fn put_three(alloc: Global, shelf: &mut MemShelf, cache: &[u8]) -> Result<(), Fail>
    requires { (folder_of shelf.old).disk.pending ≡ None }
{
    put(alloc, shelf, b"0", A_AND_B_FAILED)?;
    put(alloc, shelf, b"1.part", A_PASSED_C_FAILED)?;
    put(alloc, shelf, b"2.part", B_PASSED)?;
    put(alloc, shelf, b"failing.set", cache)
}

// A repository of a full run and two partial ones, with this cache of the failing set. The folder fails at these calls.
fn three_runs(alloc: Global, cache: &[u8], fails: &[u64]) -> Result<MemShelf, Fail> {
    let mut shelf = repository(alloc, fails)?;
    put_three(alloc, &mut shelf, cache)?;
    Ok(shelf)
}

// Whether this is told of the failing tests of the three runs.
fn tells_failing<R: Threads + Wait + Sync + AllocGlobal>(
    rt: &R,
    cache: &[u8],
    fails: &[u64],
    wanted: (u8, &[u8], &[u8]),
) -> Result<bool, Fail> {
    let mut shelf = three_runs(rt.alloc(), cache, fails)?;
    let words = ["testr", "failing", "--list"];
    tells_of(rt, &words, &mut shelf, NOTHING, 1, wanted)
}

#[test]
fn a_cache_of_all_runs_is_the_answer_and_no_run_is_read(rt: HostRuntime) -> Result<(), Fail> {
    // The barrier, the length and the bytes of `format`, the names, and the length and the bytes of the cache come first.
    let z = (1, b"z\n".as_slice(), NOTHING);
    assert!(rt; tells_failing(&rt, b"subunit-failing 1\n3\nz\0", &[6], z)?);
    let fault = (4, NOTHING, SHELF_FAULT);
    assert!(rt; tells_failing(&rt, b"x", &[6], fault)?);
    Ok(())
}

const OTHER_CACHES: [&[u8]; 3] = [
    b"x",
    b"subunit-failing 1\n2\nb\0c\0",
    b"subunit-failing 1\n4\nz\0",
];

#[test]
fn a_cache_of_fewer_runs_is_gone_on_with_and_one_of_more_is_not_taken(
    rt: HostRuntime,
) -> Result<(), Fail> {
    let c = (1, b"c\n".as_slice(), NOTHING);
    for cache in &OTHER_CACHES {
        assert!(rt; tells_failing(&rt, cache, &[], c)?);
    }
    Ok(())
}

// Caches of the times, and the ids of the first worker and the second one.
const DIVIDED: [(&[u8], &[u8], &[u8]); 2] = [
    (
        b"subunit-times 1\n1\na\x009\0b\x002\0c\x001\0",
        b"a\n",
        b"b\nc\n",
    ),
    // It covers more runs than there are, so no time is known.
    (
        b"subunit-times 1\n2\na\x009\0b\x002\0c\x001\0",
        b"a\nc\n",
        b"b\n",
    ),
];

// A repository of an empty run, with this cache of the times.
fn with_times(alloc: Global, cache: &[u8]) -> Result<MemShelf, Fail> {
    let mut shelf = repository(alloc, &[])?;
    put(alloc, &mut shelf, b"0", NOTHING)?;
    put(alloc, &mut shelf, b"times.set", cache)?;
    Ok(shelf)
}

const LIST_ON_TWO: [&str; 5] = [
    "testr",
    "run",
    "--load-list=l",
    "--parallel",
    "--concurrency=2",
];

// Whether the tests are divided into these jobs.
fn are_divided<R: Threads + Wait + Sync + AllocGlobal>(
    rt: &R,
    cache: &[u8],
    jobs: &[[&[u8]; 3]],
) -> Result<bool, Fail> {
    let outputs = [(NOTHING, ENDED), (NOTHING, ENDED)];
    let mut project = project_beside(rt.alloc(), CONF, &outputs, b"l", b"a\nb\nc\n")?;
    let mut shelf = with_times(rt.alloc(), cache)?;
    call_in(rt, &LIST_ON_TWO, &mut shelf, &mut project, &[])?;
    Ok(has_started(&project, jobs))
}

#[test]
fn the_times_of_a_cache_divide_the_tests(rt: HostRuntime) -> Result<(), Fail> {
    for (cache, first, second) in &DIVIDED {
        let jobs: [[&[u8]; 3]; 2] = [
            [b"run ", b".testr-ids.0", first],
            [b"run ", b".testr-ids.1", second],
        ];
        assert!(rt; are_divided(&rt, cache, &jobs)?);
    }
    Ok(())
}
