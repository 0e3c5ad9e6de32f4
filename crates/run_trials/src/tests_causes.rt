//! `testr run --find-causes` over workers and probes in memory: which probes are started, what is said of each test, and what a
//! refusal leaves.

use edge_io::{Finish, Shelf};
use std::sync::Wait;
use std::test::Fail;
use std::thread::Threads;
use trial_calls::{NOTHING, NamedFiles, Scene, has_started, play};

const WITH_IDS: NamedFiles<'static> = &[(
    b".testr.conf",
    b"[DEFAULT]\ntest_command=run $IDOPTION\ntest_id_option=--ids $IDFILE\n",
)];

const WITHOUT_IDS: NamedFiles<'static> = &[(
    b".testr.conf",
    b"[DEFAULT]\ntest_command=run $IDOPTION\n",
)];

const LISTED: NamedFiles<'static> = &[(
    b".testr.conf",
    b"[DEFAULT]\ntest_command=run $LISTOPT$IDOPTION\ntest_id_option=--ids $IDFILE\ntest_list_option=--list\n",
)];

const NO_RUN: NamedFiles<'static> = &[(b"format", b"subunit-store 1\n")];

const ENDED: Finish = Finish::Exit(0);

// `a` passed.
const A_PASSED: &[u8] = b"\xb3\x29\x03\x0a\x01\x61\xdd\xc1\xc7\xba";

// `c` passed.
const C_PASSED: &[u8] = b"\xb3\x29\x03\x0a\x01\x63\x33\xcf\xa6\x96";

// `c` failed.
const C_FAILED: &[u8] = b"\xb3\x29\x06\x0a\x01\x63\x04\x11\x56\xa4";

// `a` and `b` passed, and then `c` failed.
const A_B_AND_C_FAILED: &[u8] =
    b"\xb3\x29\x03\x0a\x01\x61\xdd\xc1\xc7\xba\xb3\x29\x03\x0a\x01\x62\x44\xc8\x96\x00\xb3\x29\x06\x0a\x01\x63\x04\x11\x56\xa4";

// `a` passed, and then `c` failed.
const A_AND_C_FAILED: &[u8] =
    b"\xb3\x29\x03\x0a\x01\x61\xdd\xc1\xc7\xba\xb3\x29\x06\x0a\x01\x63\x04\x11\x56\xa4";

// `a` and `c` passed.
const A_AND_C_PASSED: &[u8] =
    b"\xb3\x29\x03\x0a\x01\x61\xdd\xc1\xc7\xba\xb3\x29\x03\x0a\x01\x63\x33\xcf\xa6\x96";

// `b` passed, and then `c` failed.
const B_AND_C_FAILED: &[u8] =
    b"\xb3\x29\x03\x0a\x01\x62\x44\xc8\x96\x00\xb3\x29\x06\x0a\x01\x63\x04\x11\x56\xa4";

// `b` and `c` passed.
const B_AND_C_PASSED: &[u8] =
    b"\xb3\x29\x03\x0a\x01\x62\x44\xc8\x96\x00\xb3\x29\x03\x0a\x01\x63\x33\xcf\xa6\x96";

// `b` and `c` failed.
const B_AND_C_FAIL: &[u8] =
    b"\xb3\x29\x06\x0a\x01\x62\x73\x16\x66\x32\xb3\x29\x06\x0a\x01\x63\x04\x11\x56\xa4";

// `b` failed.
const B_FAILED: &[u8] = b"\xb3\x29\x06\x0a\x01\x62\x73\x16\x66\x32";

// `a` and `b` are there.
const A_AND_B_EXIST: &[u8] =
    b"\xb3\x29\x01\x0a\x01\x61\x77\xc8\x0f\x31\xb3\x29\x01\x0a\x01\x62\xee\xc1\x5e\x8b";

// `b` is there, and `c` failed.
const EXISTS_B_THEN_C_FAILED: &[u8] =
    b"\xb3\x29\x01\x0a\x01\x62\xee\xc1\x5e\x8b\xb3\x29\x06\x0a\x01\x63\x04\x11\x56\xa4";

// `c` failed, as it is kept under lane 0.
const C_KEPT: &[u8] = b"\xb3\x2d\x06\x0c\x01\x63\x01\x30\x4d\x77\x4b\x9c";

const FIND: &[&str] = &["testr", "run", "--find-causes"];

const FIND_NOTED: &[&str] = &["testr", "run", "--find-causes", "--format=github"];

const FIND_HIDDEN: &[&str] = &["testr", "run", "--find-causes", "-q"];

const FIND_FAILING: &[&str] = &["testr", "run", "--failing", "--find-causes"];

const FIND_ON_TWO: &[&str] = &[
    "testr",
    "run",
    "--parallel",
    "--concurrency=2",
    "--find-causes",
];

// A job, as its command, and the name and the bytes of its file of ids.
type Parts<'a> = [&'a [u8]; 3];

const ALL: Parts<'static> = [b"run ", NOTHING, NOTHING];

// Probes that run `c`, and some of those before it.
const B: Parts<'static> = [b"run --ids .testr-ids.0", b".testr-ids.0", b"b\n"];

const C: Parts<'static> = [b"run --ids .testr-ids.0", b".testr-ids.0", b"c\n"];

const A_AND_C: Parts<'static> = [b"run --ids .testr-ids.0", b".testr-ids.0", b"a\nc\n"];

const B_AND_C: Parts<'static> = [b"run --ids .testr-ids.0", b".testr-ids.0", b"b\nc\n"];

const ALL_THREE: Parts<'static> = [b"run --ids .testr-ids.0", b".testr-ids.0", b"a\nb\nc\n"];

// What is found: the words, the files, the runs that there are, and what the programs give. What is told then without a line of a
// refusal: the status and the text. And the jobs that were started.
type Row<'a> = (
    &'a [&'a str],
    NamedFiles<'a>,
    NamedFiles<'a>,
    &'a [(&'a [u8], Finish)],
    (u8, &'a [u8]),
    &'a [Parts<'a>],
);

fn is_so<R: Threads + Wait + Sync + AllocGlobal>(rt: &R, row: &Row<'_>) -> Result<bool, Fail> {
    is_so_with(rt, row, NOTHING)
}

// So it is, and these are the lines of errors.
fn is_so_with<R: Threads + Wait + Sync + AllocGlobal>(
    rt: &R,
    row: &Row<'_>,
    lines: &[u8],
) -> Result<bool, Fail> {
    let (words, files, runs, outputs, (status, text), jobs) = *row;
    let scene = Scene {
        words,
        files,
        runs,
        outputs,
        reads: &[],
        calls: &[],
        starts: &[],
        writes: &[],
    };
    let played = play(rt, &scene)?;
    Ok(played.told.is(status, text, lines) && has_started(&played.project, jobs))
}

// `c` fails exactly where `b` ran before it.
const CAUSED: Row<'static> = (
    FIND,
    WITH_IDS,
    NO_RUN,
    &[
        (A_B_AND_C_FAILED, ENDED),
        (C_PASSED, ENDED),
        (A_B_AND_C_FAILED, ENDED),
        (A_AND_C_PASSED, ENDED),
        (B_AND_C_FAILED, ENDED),
    ],
    (
        1,
        b"======================================================================\nFAIL: c\n----------------------------------------------------------------------\nRan 3 tests\nFAILED (id=0, failures=1)\nc: caused by b\n",
    ),
    &[ALL, C, ALL_THREE, A_AND_C, B_AND_C],
);

// The causes are searched where nothing is printed, too.
const HIDDEN: Row<'static> = (
    FIND_HIDDEN,
    WITH_IDS,
    NO_RUN,
    &[
        (A_B_AND_C_FAILED, ENDED),
        (C_PASSED, ENDED),
        (A_B_AND_C_FAILED, ENDED),
        (A_AND_C_PASSED, ENDED),
        (B_AND_C_FAILED, ENDED),
    ],
    (1, NOTHING),
    &[ALL, C, ALL_THREE, A_AND_C, B_AND_C],
);

// `c` fails behind both alone.
const SEVERAL: Row<'static> = (
    FIND,
    WITH_IDS,
    NO_RUN,
    &[
        (A_B_AND_C_FAILED, ENDED),
        (C_PASSED, ENDED),
        (A_B_AND_C_FAILED, ENDED),
        (A_AND_C_PASSED, ENDED),
        (B_AND_C_PASSED, ENDED),
    ],
    (
        1,
        b"======================================================================\nFAIL: c\n----------------------------------------------------------------------\nRan 3 tests\nFAILED (id=0, failures=1)\nc: several tests together\n",
    ),
    &[ALL, C, ALL_THREE, A_AND_C, B_AND_C],
);

// `c` fails alone.
const ALONE: Row<'static> = (
    FIND,
    WITH_IDS,
    NO_RUN,
    &[(A_AND_C_FAILED, ENDED), (C_FAILED, ENDED)],
    (
        1,
        b"======================================================================\nFAIL: c\n----------------------------------------------------------------------\nRan 2 tests\nFAILED (id=0, failures=1)\nc: fails alone\n",
    ),
    &[ALL, C],
);

// `c` passes behind all of them.
const NOT_SEEN: Row<'static> = (
    FIND,
    WITH_IDS,
    NO_RUN,
    &[
        (A_AND_C_FAILED, ENDED),
        (C_PASSED, ENDED),
        (A_AND_C_PASSED, ENDED),
    ],
    (
        1,
        b"======================================================================\nFAIL: c\n----------------------------------------------------------------------\nRan 2 tests\nFAILED (id=0, failures=1)\nc: not reproduced\n",
    ),
    &[ALL, C, A_AND_C],
);

// Notes stand in front of the lines of causes.
const NOTED: Row<'static> = (
    FIND_NOTED,
    WITH_IDS,
    NO_RUN,
    &[(C_FAILED, ENDED), (C_PASSED, ENDED)],
    (
        1,
        b"======================================================================\nFAIL: c\n----------------------------------------------------------------------\nRan 1 tests\nFAILED (id=0, failures=1)\n::error title=c::\nc: not reproduced\n",
    ),
    &[ALL, C],
);

// A test that only exists is no candidate.
const NO_CANDIDATE: Row<'static> = (
    FIND,
    WITH_IDS,
    NO_RUN,
    &[(EXISTS_B_THEN_C_FAILED, ENDED), (C_PASSED, ENDED)],
    (
        1,
        b"======================================================================\nFAIL: c\n----------------------------------------------------------------------\nRan 1 tests\nFAILED (id=0, failures=1)\nc: not reproduced\n",
    ),
    &[ALL, C],
);

// No test failed.
const NONE_FAILED: Row<'static> = (
    FIND,
    WITH_IDS,
    NO_RUN,
    &[(A_PASSED, ENDED)],
    (0, b"Ran 1 tests\nPASSED (id=0)\n"),
    &[ALL],
);

// The end of a worker is no test.
const BAD_END: Row<'static> = (
    FIND,
    WITH_IDS,
    NO_RUN,
    &[(A_PASSED, Finish::Exit(2))],
    (
        1,
        b"======================================================================\nFAIL: process-returncode\n----------------------------------------------------------------------\nreturncode 2\nRan 2 tests\nFAILED (id=0, failures=1)\n",
    ),
    &[ALL],
);

// A probe whose child ends with 7 is answered by its rows.
const PROBE_ENDS_BADLY: Row<'static> = (
    FIND,
    WITH_IDS,
    NO_RUN,
    &[(C_FAILED, ENDED), (C_PASSED, Finish::Exit(7))],
    (
        1,
        b"======================================================================\nFAIL: c\n----------------------------------------------------------------------\nRan 1 tests\nFAILED (id=0, failures=1)\nc: not reproduced\n",
    ),
    &[ALL, C],
);

// Of the tests that fail by all runs.
const OF_FAILING: Row<'static> = (
    FIND_FAILING,
    WITH_IDS,
    &[(b"format", b"subunit-store 1\n"), (b"0", C_KEPT)],
    &[(C_FAILED, ENDED), (C_FAILED, ENDED)],
    (
        1,
        b"======================================================================\nFAIL: c\n----------------------------------------------------------------------\nRan 1 tests\nFAILED (id=1, failures=1)\nc: fails alone\n",
    ),
    &[C, C],
);

// Each test is searched, in their order.
const TWO_FAIL: Row<'static> = (
    FIND,
    WITH_IDS,
    NO_RUN,
    &[
        (B_AND_C_FAIL, ENDED),
        (B_FAILED, ENDED),
        (C_PASSED, ENDED),
        (B_AND_C_FAILED, ENDED),
    ],
    (
        1,
        b"======================================================================\nFAIL: b\n----------------------------------------------------------------------\n======================================================================\nFAIL: c\n----------------------------------------------------------------------\nRan 2 tests\nFAILED (id=0, failures=2)\nb: fails alone\nc: caused by b\n",
    ),
    &[ALL, B, C, B_AND_C],
);

#[test]
fn the_cause_of_a_test_is_named(rt: HostRuntime) -> Result<(), Fail> {
    for (number, row) in [
        CAUSED,
        HIDDEN,
        SEVERAL,
        ALONE,
        NOT_SEEN,
        NOTED,
        NO_CANDIDATE,
    ]
    .iter()
    .enumerate()
    {
        assert!(rt; is_so(&rt, row)?, "row {number}");
    }
    Ok(())
}

#[test]
fn tests_that_fail_are_searched_and_no_others(rt: HostRuntime) -> Result<(), Fail> {
    for (number, row) in [NONE_FAILED, BAD_END, PROBE_ENDS_BADLY, OF_FAILING, TWO_FAIL]
        .iter()
        .enumerate()
    {
        assert!(rt; is_so(&rt, row)?, "row {number}");
    }
    Ok(())
}

// `c` fails on two lanes, and is searched on each of them.
const ON_TWO: Row<'static> = (
    FIND_ON_TWO,
    LISTED,
    NO_RUN,
    &[
        (A_AND_B_EXIST, ENDED),
        (C_FAILED, ENDED),
        (C_FAILED, ENDED),
        (C_FAILED, ENDED),
        (C_FAILED, ENDED),
    ],
    (
        1,
        b"======================================================================\nFAIL: c\n----------------------------------------------------------------------\n======================================================================\nFAIL: c\n----------------------------------------------------------------------\nRan 2 tests\nFAILED (id=0, failures=2)\nc: fails alone\nc: fails alone\n",
    ),
    &[
        [b"run --list", NOTHING, NOTHING],
        [b"run --ids .testr-ids.0", b".testr-ids.0", b"a\n"],
        [b"run --ids .testr-ids.1", b".testr-ids.1", b"b\n"],
        [b"run --ids .testr-ids.0", b".testr-ids.0", b"c\n"],
        [b"run --ids .testr-ids.0", b".testr-ids.0", b"c\n"],
    ],
);

#[test]
fn a_test_is_searched_on_each_of_its_lanes(rt: HostRuntime) -> Result<(), Fail> {
    // The workers ran another test than they were asked for.
    let lines = b"testr: 2 of 2 tests that were asked for did not run\n  a\n  b\n";
    assert!(rt; is_so_with(&rt, &ON_TWO, lines)?);
    Ok(())
}

// What is found where something fails: the calls of the folder, the starts and the writes that do; what the output took by then,
// and the line of the refusal, whose status is 4.
type Fault<'a> = (&'a [(&'a [u8], Finish)], [&'a [u64]; 3], &'a [u8], &'a [u8]);

const REPORTED: &[u8] =
    b"======================================================================\nFAIL: c\n----------------------------------------------------------------------\nRan 1 tests\nFAILED (id=0, failures=1)\n";

const TWO_REPORTED: &[u8] =
    b"======================================================================\nFAIL: b\n----------------------------------------------------------------------\n======================================================================\nFAIL: c\n----------------------------------------------------------------------\nRan 2 tests\nFAILED (id=0, failures=2)\nb: fails alone\n";

const FAULTS: [Fault<'static>; 6] = [
    // the run is not read
    (
        &[(C_FAILED, ENDED)],
        [&[20], &[], &[]],
        REPORTED,
        b"testr: fault of the repository folder\n",
    ),
    // a probe is not started, as where its file of ids cannot be written
    (
        &[(C_FAILED, ENDED)],
        [&[], &[1], &[]],
        REPORTED,
        b"testr: fault starting a program\n",
    ),
    // its child is not read to its end, or not waited for
    (
        &[(C_FAILED, ENDED), (C_PASSED, Finish::ReadFault)],
        [&[], &[], &[]],
        REPORTED,
        b"testr: fault reading a program\n",
    ),
    (
        &[(C_FAILED, ENDED), (C_PASSED, Finish::WaitFault)],
        [&[], &[], &[]],
        REPORTED,
        b"testr: fault reading a program\n",
    ),
    // the line is not written
    (
        &[(C_FAILED, ENDED), (C_PASSED, ENDED)],
        [&[], &[], &[1]],
        REPORTED,
        b"testr: fault writing output\n",
    ),
    // the search for the second test stops behind the line of the first one
    (
        &[
            (B_AND_C_FAIL, ENDED),
            (B_FAILED, ENDED),
            (C_PASSED, Finish::ReadFault),
        ],
        [&[], &[], &[]],
        TWO_REPORTED,
        b"testr: fault reading a program\n",
    ),
];

fn leaves<R: Threads + Wait + Sync + AllocGlobal>(rt: &R, fault: &Fault<'_>) -> Result<bool, Fail> {
    let (outputs, [calls, starts, writes], text, line) = *fault;
    let scene = Scene {
        words: FIND,
        files: WITH_IDS,
        runs: NO_RUN,
        outputs,
        reads: &[],
        calls,
        starts,
        writes,
    };
    let mut played = play(rt, &scene)?;
    let runs = shows_run(&mut played.shelf)?;
    Ok(played.told.is(4, text, line) && runs)
}

// Whether the run is there.
fn shows_run<H: Shelf>(shelf: &mut H) -> Result<bool, Fail> {
    Ok(shelf.length("0")?.is_some())
}

#[test]
fn a_search_that_stops_leaves_the_run_and_the_report(rt: HostRuntime) -> Result<(), Fail> {
    for (number, fault) in FAULTS.iter().enumerate() {
        assert!(rt; leaves(&rt, fault)?, "row {number}");
    }
    Ok(())
}

#[test]
fn an_option_that_probes_need_is_told_before_a_worker_starts(rt: HostRuntime) -> Result<(), Fail> {
    let scene = Scene {
        words: FIND,
        files: WITHOUT_IDS,
        runs: NO_RUN,
        outputs: &[(A_PASSED, ENDED)],
        reads: &[],
        calls: &[],
        starts: &[],
        writes: &[],
    };
    let line = b"testr: .testr.conf: test_id_option is needed\n";
    assert!(rt; play(&rt, &scene)?.refuses(0, 3, line));
    Ok(())
}
