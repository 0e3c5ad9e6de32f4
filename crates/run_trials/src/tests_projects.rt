//! Projects of stestr, the words that stand before their keys, and the words behind `--`.

use crate::configured::{CONF, ENDED, LISTED};
use edge_io::{Finish, MemShelf};
use std::sync::Wait;
use std::test::Fail;
use std::thread::Threads;
use trial_calls::{
    NOTHING, NamedFiles, Scene, WRONG_USAGE, call_in, has_started, play, project_with, repository,
};

const OWN: (&[u8], &[u8]) = (b".testr.conf", CONF);

const LINES: (&[u8], &[u8]) = (
    b".stestr.conf",
    b"[DEFAULT]\ntest_path=./tests\ntop_dir=.\n",
);

const TABLE: (&[u8], &[u8]) = (
    b"pyproject.toml",
    b"[tool.stestr]\ntest_path = 'unit tests'\nparallel_class = true\n",
);

// `a` and `b` are there.
const A_AND_B: &[u8] = b"\xb3\x29\x01\n\x01aw\xc8\x0f1\xb3\x29\x01\n\x01b\xee\xc1\x5e\x8b";

const NO_TESTS: &[u8] = b"Ran 0 tests\nPASSED (id=0)\n";

const OUTPUTS: [(&[u8], Finish); 3] = [(A_AND_B, ENDED), (NOTHING, ENDED), (NOTHING, ENDED)];

// A call: the files, the words, what is printed, and the jobs.
type Called<'a> = (NamedFiles<'a>, &'a [&'a str], &'a [u8], &'a [[&'a [u8]; 3]]);

// Whether the call is done, prints this and starts these jobs.
fn is_called<R: Threads + Wait + Sync + AllocGlobal>(
    rt: &R,
    shelf: &mut MemShelf,
    called: &Called<'_>,
) -> Result<bool, Fail> {
    let (files, words, text, jobs) = *called;
    let mut project = project_with(rt.alloc(), files, &OUTPUTS, &[], &[])?;
    let told = call_in(rt, words, shelf, &mut project, &[])?;
    // Where tests were asked for, none of them ran.
    Ok(
        told.status <= 1
            && told.err.is_empty() == (told.status == 0)
            && told.out.as_slice() == text
            && has_started(&project, jobs),
    )
}

fn is_called_first<R: Threads + Wait + Sync + AllocGlobal>(
    rt: &R,
    called: &Called<'_>,
) -> Result<bool, Fail> {
    let mut shelf = repository(rt.alloc(), &[])?;
    is_called(rt, &mut shelf, called)
}

const LIST_OF_LINES: [&[u8]; 3] = [
    b"${PYTHON:-python3} -m stestr.subunit_runner.run discover -t \".\" \"./tests\" --list ",
    NOTHING,
    NOTHING,
];

const LIST_OF_TABLE: [&[u8]; 3] = [
    b"${PYTHON:-python3} -m stestr.subunit_runner.run discover -t \"./\" \"unit tests\" --list ",
    NOTHING,
    NOTHING,
];

const LISTINGS: [Called<'static>; 6] = [
    (
        &[OWN, LINES, TABLE],
        &["testr", "list-tests"],
        b"a\nb\n",
        &[LISTED],
    ),
    (
        &[LINES, TABLE],
        &["testr", "list-tests", "b"],
        b"b\n",
        &[LIST_OF_LINES],
    ),
    (
        &[OWN, LINES, TABLE],
        &["stestr", "list"],
        b"a\nb\n",
        &[LIST_OF_LINES],
    ),
    (&[OWN, TABLE], &["stestr", "list"], b"a\nb\n", &[LISTED]),
    (
        &[TABLE],
        &["testr", "list-tests"],
        b"a\nb\n",
        &[LIST_OF_TABLE],
    ),
    (
        &[TABLE],
        &[
            "testr",
            "list-tests",
            "--test-path",
            "./tests",
            "--top-dir=x",
            "--top-dir=.",
        ],
        b"a\nb\n",
        &[LIST_OF_LINES],
    ),
];

#[test]
fn a_listing_is_that_of_the_first_file_that_is_there(rt: HostRuntime) -> Result<(), Fail> {
    for called in &LISTINGS {
        assert!(rt; is_called_first(&rt, called)?);
    }
    Ok(())
}

const TWO: &[&str] = &[
    "testr",
    "run",
    "--parallel",
    "--concurrency=2",
    "--",
    "-v",
    "it's",
];

const JOBS_OF_TWO: [[&[u8]; 3]; 3] = [
    LIST_OF_LINES,
    [
        b"${PYTHON:-python3} -m stestr.subunit_runner.run discover -t \".\" \"./tests\"  --load-list .testr-ids.0 '-v' 'it'\\''s'",
        b".testr-ids.0",
        b"a\n",
    ],
    [
        b"${PYTHON:-python3} -m stestr.subunit_runner.run discover -t \".\" \"./tests\"  --load-list .testr-ids.1 '-v' 'it'\\''s'",
        b".testr-ids.1",
        b"b\n",
    ],
];

const RUNS: [Called<'static>; 5] = [
    (&[LINES], TWO, NO_TESTS, &JOBS_OF_TWO),
    (
        &[OWN],
        &["testr", "run", "--", "--partial", "--", ""],
        NO_TESTS,
        &[[b"run  '--partial' '--' ''", NOTHING, NOTHING]],
    ),
    (
        &[OWN],
        &["testr", "run", "--"],
        NO_TESTS,
        &[[b"run ", NOTHING, NOTHING]],
    ),
    (
        &[
            (b".testr.conf", b"[DEFAULT]\ntest_command=run $IDLIST\n"),
            (b"--", b"a\n"),
        ],
        &["testr", "run", "--load-list", "--", "--", "--"],
        NO_TESTS,
        &[[b"run a '--'", b".testr-ids.0", b"a\n"]],
    ),
    (
        &[LINES],
        &["stestr", "run", "--serial", "--test-path=t", "--", "x"],
        NO_TESTS,
        &[[
            b"${PYTHON:-python3} -m stestr.subunit_runner.run discover -t \".\" \"t\"   'x'",
            NOTHING,
            NOTHING,
        ]],
    ),
];

#[test]
fn words_behind_the_options_stand_behind_the_jobs(rt: HostRuntime) -> Result<(), Fail> {
    for called in &RUNS {
        assert!(rt; is_called_first(&rt, called)?);
    }
    Ok(())
}

// Files, words, the status and the line.
type Refused<'a> = (NamedFiles<'a>, &'a [&'a str], u8, &'a [u8]);

const RUN: &[&str] = &["testr", "run"];

const REFUSED: [Refused<'static>; 13] = [
    (&[], RUN, 3, b"testr: no .testr.conf or .stestr.conf\n"),
    (
        &[(b"pyproject.toml", b"[tool.x]\n")],
        &["stestr", "list"],
        3,
        b"testr: no .testr.conf or .stestr.conf\n",
    ),
    (
        &[(b".stestr.conf", b"[DEFAULT]\ntest_path=$HOME\n"), TABLE],
        RUN,
        3,
        b"testr: .stestr.conf line 2: not a setting\n",
    ),
    (
        &[(b".stestr.conf", b"test_path=t\n")],
        RUN,
        3,
        b"testr: .stestr.conf line 1: outside a section\n",
    ),
    (
        &[(b".stestr.conf", b"[DEFAULT]\ntop_dir=a\ntop_dir=b\n")],
        RUN,
        3,
        b"testr: .stestr.conf line 3: repeated\n",
    ),
    (
        &[(b".stestr.conf", b"[DEFAULT]\n")],
        RUN,
        3,
        b"testr: .stestr.conf: no test_path\n",
    ),
    (
        &[(b"pyproject.toml", b"tool.stestr = {}\n")],
        RUN,
        3,
        b"testr: pyproject.toml: no test_path\n",
    ),
    (
        &[(b"pyproject.toml", b"tool.stestr = 1\n")],
        RUN,
        3,
        b"testr: pyproject.toml: tool.stestr is no table\n",
    ),
    (
        &[(b"pyproject.toml", b"tool.\n")],
        RUN,
        3,
        b"testr: pyproject.toml: no TOML\n",
    ),
    (
        &[(b"pyproject.toml", b"tool.stestr.parallel_class = 'yes'\n")],
        RUN,
        3,
        b"testr: pyproject.toml: bad value of parallel_class\n",
    ),
    (
        &[OWN],
        &["testr", "run", "--group-regex=("],
        3,
        b"testr: bad pattern: (\n",
    ),
    (
        &[OWN],
        &["testr", "run", "--top-dir=`a`", "--top-dir=b"],
        2,
        WRONG_USAGE,
    ),
    (&[OWN], &["testr", "list-tests", "--"], 2, WRONG_USAGE),
];

#[test]
fn each_refusal_of_a_project_has_its_line(rt: HostRuntime) -> Result<(), Fail> {
    for (row, (files, words, status, line)) in REFUSED.iter().enumerate() {
        let scene = Scene {
            words: *words,
            files: *files,
            runs: &[(b"format", b"subunit-store 1\n")],
            outputs: &[],
            reads: &[],
            calls: &[],
            starts: &[],
            writes: &[],
        };
        assert!(rt; play(&rt, &scene)?.refuses(0, *status, *line), "row {row}");
    }
    Ok(())
}
