//! The commands that tell of a repository.

use edge_io::{MemShelf, Shelf};
use std::process::Abort;
use std::sync::Wait;
use std::test::Fail;
use std::thread::Threads;
use trial_calls::{
    CallOutcome, FAIL, FAIL_KEPT, FOO, NOTHING, SHELF_FAULT, call, load, repository, source,
    tells_of,
};

const FAIL_REPORT: &[u8] =
    b"======================================================================\nFAIL: foo\n----------------------------------------------------------------------\nRan 1 tests\nFAILED (id=0, failures=1)\n";

// `a` and `b` failed.
const A_AND_B_FAILED: &[u8] =
    b"\xb3\x29\x06\x0a\x01\x61\xea\x1f\x37\x88\xb3\x29\x06\x0a\x01\x62\x73\x16\x66\x32";

// `a` passed and `c` failed.
const A_PASSED_C_FAILED: &[u8] =
    b"\xb3\x29\x03\x0a\x01\x61\xdd\xc1\xc7\xba\xb3\x29\x06\x0a\x01\x63\x04\x11\x56\xa4";

// `b` took 564,000,000 nanoseconds, and `a` 1,000,500,000.
const TIMED: &[u8] =
    b"\xb3\x2b\x02\x0f\x00\x00\x00\x64\x00\x01\x62\xe3\x66\x3a\x02\xb3\x2b\x03\x12\x00\x00\x00\x64\xe1\x9d\xf5\x00\x01\x62\xd0\xa4\x38\x36\xb3\x2b\x02\x0f\x00\x00\x00\x64\x00\x01\x61\x7a\x6f\x6b\xb8\xb3\x2b\x03\x11\x00\x00\x00\x65\x87\xa1\x20\x01\x61\x98\x4b\xbb\x31";

// `a` and `c` were skipped, and `b` without a word: the file `reason` of `a` has two lines.
const SKIPPED: &[u8] =
    b"\xb3\x29\x45\x1e\x01\x61\x06\x72\x65\x61\x73\x6f\x6e\x0c\x6e\x6f\x20\x6e\x65\x74\x0a\x74\x6f\x64\x61\x79\x15\x4f\x45\xb3\xb3\x29\x05\x0a\x01\x62\x61\xa3\xc9\xdc\xb3\x29\x45\x18\x01\x63\x06\x72\x65\x61\x73\x6f\x6e\x06\x6e\x6f\x20\x6e\x65\x74\x24\xbc\x35\x42";

// They are kept under lane 0.
const SKIPPED_KEPT: &[u8] =
    b"\xb3\x2d\x45\x20\x01\x61\x06\x72\x65\x61\x73\x6f\x6e\x0c\x6e\x6f\x20\x6e\x65\x74\x0a\x74\x6f\x64\x61\x79\x01\x30\x79\xed\xb3\xdf\xb3\x2d\x05\x0c\x01\x62\x01\x30\xca\x21\x53\x05\xb3\x2d\x45\x1a\x01\x63\x06\x72\x65\x61\x73\x6f\x6e\x06\x6e\x6f\x20\x6e\x65\x74\x01\x30\x8c\xaa\xdc\x40";

const SKIPS: &[u8] = b"Ran 3 tests\nPASSED (id=0, skips=3)\nSKIP 2: no net\nSKIP 1: \n";

const NO_RUNS: &[u8] = b"testr: no runs\n";

const SLOWEST: &[u8] = b"     1.001  a\n     0.564  b\n";

fn ask<R: Threads + Wait + Sync + AllocGlobal, H: Shelf>(
    rt: &R,
    shelf: &mut H,
    words: &[&str],
) -> Result<CallOutcome, Fail> {
    let mut input = source(rt.alloc(), NOTHING, 1, &[])?;
    call(rt, words, shelf, &mut input)
}

// Whether the program tells this of a repository.
fn asked<R: Threads + Wait + Sync + AllocGlobal>(
    rt: &R,
    shelf: &mut MemShelf,
    words: &[&str],
    wanted: (u8, &[u8], &[u8]),
) -> Result<bool, Fail> {
    let (status, out, err) = wanted;
    Ok(ask(rt, shelf, words)?.is(status, out, err))
}

// What is told of a repository of one run, in which `foo` failed.
const TOLD_OF_FAIL: [(&[&str], u8, &[u8]); 7] = [
    (&["testr", "last"], 1, FAIL_REPORT),
    (&["testr", "last", "--skips"], 1, FAIL_REPORT),
    (&["testr", "last", "--subunit"], 0, FAIL_KEPT),
    (&["testr", "failing"], 1, b"FAIL: foo\nfailures=1\n"),
    (&["testr", "failing", "--list"], 1, b"foo\n"),
    (&["testr", "slowest"], 0, NOTHING),
    (&["testr", "stats"], 0, b"runs=1\n"),
];

// Whether this is told, and no run is added.
fn tells_alone<R: Threads + Wait + Sync + AllocGlobal>(
    rt: &R,
    shelf: &mut MemShelf,
    words: &[&str],
    status: u8,
    text: &[u8],
) -> Result<bool, Fail> {
    Ok(asked(rt, shelf, words, (status, text, NOTHING))? && shelf.length("1")?.is_none())
}

fn tells_of_fail<R: Threads + Wait + Sync + AllocGlobal + Abort>(
    rt: &R,
    shelf: &mut MemShelf,
) -> Result<(), Fail> {
    for (row, (words, status, text)) in TOLD_OF_FAIL.iter().enumerate() {
        assert!(rt; tells_alone(rt, shelf, words, *status, text)?, "row {row}");
    }
    Ok(())
}

#[test]
fn a_repository_is_told_of(rt: HostRuntime) -> Result<(), Fail> {
    let mut shelf = repository(rt.alloc(), &[])?;
    load(&rt, &mut shelf, FAIL)?;
    tells_of_fail(&rt, &mut shelf)
}

#[test]
fn each_reason_of_a_skip_is_told_and_the_most_frequent_first(rt: HostRuntime) -> Result<(), Fail> {
    let mut shelf = repository(rt.alloc(), &[])?;
    load(&rt, &mut shelf, SKIPPED)?;
    assert!(rt; tells_alone(&rt, &mut shelf, &["testr", "last", "--skips"], 0, SKIPS)?);
    let words = ["testr", "last", "--skips", "--subunit"];
    assert!(rt; tells_alone(&rt, &mut shelf, &words, 0, SKIPPED_KEPT)?);
    Ok(())
}

// The test `a%`, a newline and `::b` failed with a text of two places, and `s` was skipped.
const PLACED: &[u8] =
    b"\xb3\x29\x66\x40\x54\x06\x61\x25\x0a\x3a\x3a\x62\x0a\x74\x65\x78\x74\x2f\x70\x6c\x61\x69\x6e\x09\x74\x72\x61\x63\x65\x62\x61\x63\x6b\x2e\x20\x20\x46\x69\x6c\x65\x20\x22\x78\x2e\x70\x79\x22\x2c\x20\x6c\x69\x6e\x65\x20\x33\x0a\x20\x20\x46\x69\x6c\x65\x20\x22\x79\x2c\x7a\x2e\x70\x79\x22\x2c\x20\x6c\x69\x6e\x65\x20\x34\x30\x9a\x7d\x21\x05\xb3\x29\x45\x18\x01\x73\x06\x72\x65\x61\x73\x6f\x6e\x06\x6e\x6f\x20\x6e\x65\x74\x60\xde\xaa\x0d";

// They are kept under lane 0.
const PLACED_KEPT: &[u8] =
    b"\xb3\x2d\x66\x40\x56\x06\x61\x25\x0a\x3a\x3a\x62\x0a\x74\x65\x78\x74\x2f\x70\x6c\x61\x69\x6e\x09\x74\x72\x61\x63\x65\x62\x61\x63\x6b\x2e\x20\x20\x46\x69\x6c\x65\x20\x22\x78\x2e\x70\x79\x22\x2c\x20\x6c\x69\x6e\x65\x20\x33\x0a\x20\x20\x46\x69\x6c\x65\x20\x22\x79\x2c\x7a\x2e\x70\x79\x22\x2c\x20\x6c\x69\x6e\x65\x20\x34\x30\x01\x30\x03\x44\x4c\xf2\xb3\x2d\x45\x1a\x01\x73\x06\x72\x65\x61\x73\x6f\x6e\x06\x6e\x6f\x20\x6e\x65\x74\x01\x30\x9b\xfb\x45\x3d";

const PLACED_REPORT: &[u8] =
    b"======================================================================\nFAIL: a%\n::b\n----------------------------------------------------------------------\n  File \"x.py\", line 3\n  File \"y,z.py\", line 40\nRan 2 tests\nFAILED (id=0, failures=1, skips=1)\n";

const PLACED_NOTED: &[u8] =
    b"======================================================================\nFAIL: a%\n::b\n----------------------------------------------------------------------\n  File \"x.py\", line 3\n  File \"y,z.py\", line 40\nRan 2 tests\nFAILED (id=0, failures=1, skips=1)\n::error file=y%2Cz.py,line=40,title=a%25%0A%3A%3Ab::  File \"x.py\", line 3%0A  File \"y,z.py\", line 40\n";

const PLACED_SKIPS_NOTED: &[u8] =
    b"======================================================================\nFAIL: a%\n::b\n----------------------------------------------------------------------\n  File \"x.py\", line 3\n  File \"y,z.py\", line 40\nRan 2 tests\nFAILED (id=0, failures=1, skips=1)\nSKIP 1: no net\n::error file=y%2Cz.py,line=40,title=a%25%0A%3A%3Ab::  File \"x.py\", line 3%0A  File \"y,z.py\", line 40\n";

// What is told of a repository of this run.
const TOLD_OF_PLACED: [(&[&str], u8, &[u8]); 7] = [
    (&["testr", "last", "--format=github"], 1, PLACED_NOTED),
    (
        &["testr", "last", "--format", "github", "--skips"],
        1,
        PLACED_SKIPS_NOTED,
    ),
    (
        &["testr", "last", "--format=github", "--format=text"],
        1,
        PLACED_REPORT,
    ),
    (
        &["testr", "last", "--format=text", "--format=github"],
        1,
        PLACED_NOTED,
    ),
    (
        &["testr", "last", "--format=github", "--subunit"],
        0,
        PLACED_KEPT,
    ),
    (&["testr", "last", "--format=github", "-q"], 1, NOTHING),
    (&["stestr", "last", "--format=github"], 1, PLACED_NOTED),
];

fn tells_of_placed<R: Threads + Wait + Sync + AllocGlobal + Abort>(
    rt: &R,
    shelf: &mut MemShelf,
) -> Result<(), Fail> {
    for (row, (words, status, text)) in TOLD_OF_PLACED.iter().enumerate() {
        assert!(rt; tells_alone(rt, shelf, words, *status, text)?, "row {row}");
    }
    Ok(())
}

#[test]
fn notes_of_failures_stand_behind_a_report(rt: HostRuntime) -> Result<(), Fail> {
    let mut shelf = repository(rt.alloc(), &[])?;
    load(&rt, &mut shelf, PLACED)?;
    tells_of_placed(&rt, &mut shelf)
}

// What is told as this run is loaded as the first one.
const LOADED_PLACED: [(&[&str], &[u8]); 4] = [
    (&["testr", "load", "--format=github"], PLACED_NOTED),
    (&["stestr", "load", "--format", "github"], PLACED_NOTED),
    (&["testr", "load", "--format=text"], PLACED_REPORT),
    (&["testr", "load", "--format=github", "-q"], NOTHING),
];

#[test]
fn notes_of_failures_stand_behind_the_report_of_a_load(rt: HostRuntime) -> Result<(), Fail> {
    for (row, (words, text)) in LOADED_PLACED.iter().enumerate() {
        let mut shelf = repository(rt.alloc(), &[])?;
        assert!(rt;
            tells_of(&rt, words, &mut shelf, PLACED, 7, (1, *text, NOTHING))?,
            "row {row}"
        );
    }
    Ok(())
}

// Without a failure there are none.
#[test]
fn a_run_that_passed_has_no_notes(rt: HostRuntime) -> Result<(), Fail> {
    let mut shelf = repository(rt.alloc(), &[])?;
    load(&rt, &mut shelf, SKIPPED)?;
    let words = ["testr", "last", "--format=github", "--skips"];
    assert!(rt; tells_alone(&rt, &mut shelf, &words, 0, SKIPS)?);
    Ok(())
}

const TOLD_OF_NONE: [(&str, u8, &[u8], &[u8]); 4] = [
    ("last", 3, NOTHING, NO_RUNS),
    ("slowest", 3, NOTHING, NO_RUNS),
    ("failing", 0, b"failures=0\n", NOTHING),
    ("stats", 0, b"runs=0\n", NOTHING),
];

fn tells_of_none<R: Threads + Wait + Sync + AllocGlobal + Abort>(
    rt: &R,
    shelf: &mut MemShelf,
) -> Result<(), Fail> {
    for (word, status, out, err) in &TOLD_OF_NONE {
        let words = ["testr", *word];
        assert!(rt; asked(rt, shelf, &words, (*status, *out, *err))?, "{word}");
    }
    Ok(())
}

#[test]
fn an_empty_repository_has_no_last_run(rt: HostRuntime) -> Result<(), Fail> {
    let mut shelf = repository(rt.alloc(), &[])?;
    tells_of_none(&rt, &mut shelf)
}

// Adds a partial run.
fn load_partial<R: Threads + Wait + Sync + AllocGlobal>(
    rt: &R,
    shelf: &mut MemShelf,
    stream: &[u8],
) -> Result<(), Fail> {
    let mut input = source(rt.alloc(), stream, 7, &[])?;
    call(rt, &["testr", "load", "--partial"], shelf, &mut input)?;
    Ok(())
}

// Whether these are the failing tests.
fn are_failing<R: Threads + Wait + Sync + AllocGlobal>(
    rt: &R,
    shelf: &mut MemShelf,
    ids: &[u8],
) -> Result<bool, Fail> {
    asked(
        rt,
        shelf,
        &["testr", "failing", "--list"],
        (1, ids, NOTHING),
    )
}

fn failing_set_changes<R: Threads + Wait + Sync + AllocGlobal + Abort>(
    rt: &R,
    shelf: &mut MemShelf,
) -> Result<(), Fail> {
    load(rt, shelf, A_AND_B_FAILED)?;
    load_partial(rt, shelf, A_PASSED_C_FAILED)?;
    assert!(rt; are_failing(rt, shelf, b"b\nc\n")?);
    load(rt, shelf, A_PASSED_C_FAILED)?;
    assert!(rt; are_failing(rt, shelf, b"c\n")?);
    Ok(())
}

#[test]
fn a_partial_run_changes_the_failing_set_and_a_full_one_replaces_it(
    rt: HostRuntime,
) -> Result<(), Fail> {
    let mut shelf = repository(rt.alloc(), &[])?;
    failing_set_changes(&rt, &mut shelf)
}

// What is told behind a run of `foo` and one of two tests with times.
const TOLD_OF_TIMED: [(&[&str], &[u8]); 4] = [
    (&["testr", "slowest", "--all"], SLOWEST),
    (&["testr", "slowest"], SLOWEST),
    (&["testr", "stats"], b"runs=2\n"),
    (
        &["testr", "last"],
        b"Ran 2 tests in 1.565s\nPASSED (id=1)\n",
    ),
];

fn tells_of_timed<R: Threads + Wait + Sync + AllocGlobal + Abort>(
    rt: &R,
    shelf: &mut MemShelf,
) -> Result<(), Fail> {
    for (row, (words, text)) in TOLD_OF_TIMED.iter().enumerate() {
        assert!(rt; asked(rt, shelf, words, (0, *text, NOTHING))?, "row {row}");
    }
    Ok(())
}

#[test]
fn the_last_of_two_runs_is_told(rt: HostRuntime) -> Result<(), Fail> {
    let mut shelf = repository(rt.alloc(), &[])?;
    load(&rt, &mut shelf, FOO)?;
    load(&rt, &mut shelf, TIMED)?;
    tells_of_timed(&rt, &mut shelf)
}

#[test]
fn a_question_wants_a_repository(rt: HostRuntime) -> Result<(), Fail> {
    let mut bare = MemShelf::new(rt.alloc(), Vec::new(rt.alloc()));
    let wanted = (3, NOTHING, b"testr: no repository here\n".as_slice());
    assert!(rt; asked(&rt, &mut bare, &["testr", "stats"], wanted)?);
    Ok(())
}

// Whether a question tells of this call of the folder, which fails.
fn tells_of_call<R: Threads + Wait + Sync + AllocGlobal>(
    rt: &R,
    number: u64,
) -> Result<bool, Fail> {
    let mut shelf = repository(rt.alloc(), &[number])?;
    asked(
        rt,
        &mut shelf,
        &["testr", "stats"],
        (4, NOTHING, SHELF_FAULT),
    )
}

#[test]
fn a_question_wants_a_folder_that_answers(rt: HostRuntime) -> Result<(), Fail> {
    // The barrier, the length of `format`, its bytes, and the names.
    for number in 0..4u64 {
        assert!(rt; tells_of_call(&rt, number)?, "{number}");
    }
    Ok(())
}
