//! The steps of `testr run`: the first one that refuses decides, though each later one would refuse, too.

use edge_io::Finish;
use std::sync::Wait;
use std::test::Fail;
use std::thread::Threads;
use trial_calls::{
    FOO, FOO_KEPT, NOTHING, NamedFiles, PASSED_AS_0, SHELF_FAULT, Scene, has_file, play,
};

const READ_FAULT: &[u8] = b"testr: fault reading a file\n";

const START_FAULT: &[u8] = b"testr: fault starting a program\n";

const CHILD_FAULT: &[u8] = b"testr: fault reading a program\n";

// What is told where the program printed `3`, `x` or `LONG_NUMBER`.
const NO_NUMBER_OF_3: &[u8] = b"3\ntestr: test_run_concurrency gave no number\n";

const NO_NUMBER_OF_X: &[u8] = b"x\ntestr: test_run_concurrency gave no number\n";

const NO_NUMBER_OF_LONG: &[u8] =
    b"3                                                                \ntestr: test_run_concurrency gave no number\n";

// All that a run may ask for, and a pattern that is none.
const ALL: &[&str] = &[
    "testr",
    "run",
    "--failing",
    "--parallel",
    "--load-list=l",
    "(p",
];

// The same, with a pattern.
const ALL_GOOD: &[&str] = &[
    "testr",
    "run",
    "--failing",
    "--parallel",
    "--load-list=l",
    "a",
];

const COUNTING: &[&str] = &["testr", "run", "--parallel", "a"];

const TWO_WORKERS: &[&str] = &["testr", "run", "--parallel", "--concurrency=2", "a"];

const ONE_WORKER: &[&str] = &["testr", "run", "a"];

const OF_ALL_TESTS: &[&str] = &["testr", "run"];

// Configurations, of which each next one has a refusal less: a line that is no setting; a `group_regex` that is no
// pattern; a number of workers that is called out; tests that cannot be listed; and workers that are told of an option
// which is not set.
const BAD_LINE: &[u8] =
    b"[DEFAULT]\ntest_command=run $IDOPTION\ngroup_regex=(g\ntest_run_concurrency=count\nx\n";

const BAD_GROUPS: &[u8] =
    b"[DEFAULT]\ntest_command=run $IDOPTION\ngroup_regex=(g\ntest_run_concurrency=count\n";

const COUNTED: &[u8] = b"[DEFAULT]\ntest_command=run $IDOPTION\ntest_run_concurrency=count\n";

const UNLISTED: &[u8] = b"[DEFAULT]\ntest_command=run $IDOPTION\n";

const NO_ID_OPTION: &[u8] =
    b"[DEFAULT]\ntest_command=run $LISTOPT$IDOPTION\ntest_list_option=--list\n";

const GOOD: &[u8] = b"[DEFAULT]\ntest_command=run\n";

// Folders: of another format, with a run that is missing, without a run, and with a run.
const OTHER_FORMAT: NamedFiles<'static> = &[(b"format", b"1\n"), (b"1", FOO_KEPT)];

const GAP: NamedFiles<'static> = &[(b"format", b"subunit-store 1\n"), (b"1", FOO_KEPT)];

const NO_RUN: NamedFiles<'static> = &[(b"format", b"subunit-store 1\n")];

const ONE_RUN: NamedFiles<'static> = &[(b"format", b"subunit-store 1\n"), (b"0", FOO_KEPT)];

// `a` and `b` are there.
const A_AND_B: &[u8] = b"\xb3\x29\x01\n\x01aw\xc8\x0f1\xb3\x29\x01\n\x01b\xee\xc1\x5e\x8b";

const ENDED: Finish = Finish::Exit(0);

// The calls of a folder behind the four that look at its runs.
const BEHIND_THE_RUNS: &[u64] = &[4, 5, 6, 7, 8, 9, 10, 11, 12, 13, 14, 15];

// Those behind the next one, which begins the new run.
const BEHIND_THE_DRAFT: &[u64] = &[5, 6, 7, 8, 9, 10, 11, 12, 13, 14, 15, 16];

// A number, and white space up to 65 bytes.
const LONG_NUMBER: &[u8] = b"3                                                                ";

// No file and no repository is there, and each first call fails.
const WORST: Scene<'static> = Scene {
    words: ALL,
    files: &[],
    runs: &[],
    outputs: &[],
    reads: &[0],
    calls: &[0],
    starts: &[0],
    writes: &[0],
};

// What is found, how many programs are started, and the status and the line.
type Row<'a> = (Scene<'a>, usize, u8, &'a [u8]);

// The first row that is not refused as it says.
fn first_other<R: Threads + Wait + Sync + AllocGlobal>(
    rt: &R,
    rows: &[Row<'_>],
) -> Result<Option<usize>, Fail> {
    for (row, (scene, started, status, line)) in rows.iter().enumerate() {
        if !play(rt, scene)?.refuses(*started, *status, line) {
            return Ok(Some(row));
        }
    }
    Ok(None)
}

#[test]
fn words_and_configuration_come_first(rt: HostRuntime) -> Result<(), Fail> {
    let wrong = ["testr", "run", "--concurrency=x", "--load-list=l", "(p"];
    let rows = [
        (
            Scene {
                words: &wrong,
                ..WORST
            },
            0,
            2,
            b"testr: wrong usage\n".as_slice(),
        ),
        (WORST, 0, 4, READ_FAULT),
        (
            Scene {
                reads: &[],
                ..WORST
            },
            0,
            3,
            b"testr: no .testr.conf or .stestr.conf\n",
        ),
        (
            Scene {
                files: &[(b".testr.conf", BAD_LINE)],
                reads: &[4],
                ..WORST
            },
            0,
            3,
            b"testr: .testr.conf line 5: not a setting\n",
        ),
    ];
    assert_eq!(rt; first_other(&rt, &rows)?, None);
    Ok(())
}

const FORCED: &[&str] = &["testr", "run", "--force-init"];

#[test]
fn a_repository_is_made_before_the_configuration_is_read(rt: HostRuntime) -> Result<(), Fail> {
    let scene = Scene {
        words: FORCED,
        ..WORST
    };
    let rows = [
        (scene, 0, 4, SHELF_FAULT),
        (
            Scene {
                calls: &[],
                ..scene
            },
            0,
            4,
            READ_FAULT,
        ),
        (
            Scene {
                files: &[(b".testr.conf", GOOD)],
                runs: OTHER_FORMAT,
                reads: &[],
                calls: &[],
                ..scene
            },
            0,
            3,
            b"testr: unknown repository format\n",
        ),
    ];
    assert_eq!(rt; first_other(&rt, &rows)?, None);
    Ok(())
}

#[test]
fn a_run_makes_a_repository_on_the_way(rt: HostRuntime) -> Result<(), Fail> {
    let mut played = play(
        &rt,
        &Scene {
            words: FORCED,
            files: &[(b".testr.conf", GOOD)],
            outputs: &[(FOO, ENDED)],
            reads: &[],
            calls: &[],
            starts: &[],
            writes: &[],
            ..WORST
        },
    )?;
    assert!(rt; played.told.is(0, PASSED_AS_0, NOTHING));
    assert!(rt; has_file(&mut played.shelf, "format", b"subunit-store 1\n")?);
    assert!(rt; has_file(&mut played.shelf, "0", FOO_KEPT)?);
    Ok(())
}

#[test]
fn the_repository_comes_before_the_patterns(rt: HostRuntime) -> Result<(), Fail> {
    let scene = Scene {
        files: &[(b".testr.conf", BAD_GROUPS)],
        reads: &[4],
        ..WORST
    };
    let rows = [
        (scene, 0, 4, SHELF_FAULT),
        (
            Scene {
                calls: &[],
                ..scene
            },
            0,
            3,
            b"testr: no repository here\n".as_slice(),
        ),
        (
            Scene {
                calls: &[3],
                runs: OTHER_FORMAT,
                ..scene
            },
            0,
            3,
            b"testr: unknown repository format\n",
        ),
        (
            Scene {
                calls: &[4],
                runs: GAP,
                ..scene
            },
            0,
            3,
            b"testr: run 0 is missing\n",
        ),
    ];
    assert_eq!(rt; first_other(&rt, &rows)?, None);
    Ok(())
}

#[test]
fn patterns_come_before_the_list_of_ids(rt: HostRuntime) -> Result<(), Fail> {
    let scene = Scene {
        files: &[(b".testr.conf", BAD_GROUPS)],
        runs: ONE_RUN,
        reads: &[4],
        calls: BEHIND_THE_RUNS,
        ..WORST
    };
    let two = ["testr", "run", "--load-list=l", "a", "[q", "(p"];
    let rows = [
        (scene, 0, 3, b"testr: bad pattern: (p\n".as_slice()),
        (
            Scene {
                words: &two,
                ..scene
            },
            0,
            3,
            b"testr: bad pattern: [q\n",
        ),
        (
            Scene {
                words: ALL_GOOD,
                ..scene
            },
            0,
            3,
            b"testr: bad pattern: (g\n",
        ),
    ];
    assert_eq!(rt; first_other(&rt, &rows)?, None);
    Ok(())
}

#[test]
fn the_list_of_ids_comes_before_the_failing_set(rt: HostRuntime) -> Result<(), Fail> {
    let scene = Scene {
        words: ALL_GOOD,
        files: &[(b".testr.conf", COUNTED), (b"l", b"a\n\n\xff\n\xff\n")],
        runs: ONE_RUN,
        reads: &[4],
        calls: BEHIND_THE_RUNS,
        ..WORST
    };
    let rows = [
        (scene, 0, 4, READ_FAULT),
        (
            Scene {
                files: &[(b".testr.conf", COUNTED)],
                reads: &[],
                ..scene
            },
            0,
            3,
            b"testr: no file l\n".as_slice(),
        ),
        (
            Scene {
                reads: &[],
                ..scene
            },
            0,
            3,
            b"testr: l line 3: not an id\n",
        ),
        (
            Scene {
                files: &[(b".testr.conf", COUNTED), (b"l", b"a\n")],
                reads: &[],
                ..scene
            },
            0,
            4,
            SHELF_FAULT,
        ),
    ];
    assert_eq!(rt; first_other(&rt, &rows)?, None);
    Ok(())
}

const BOTH_LISTS: &[&str] = &[
    "testr",
    "run",
    "--failing",
    "--parallel",
    "--load-list=l",
    "--exclude-list=e",
    "--include-list=i",
];

#[test]
fn lists_of_patterns_come_between_the_two(rt: HostRuntime) -> Result<(), Fail> {
    let scene = Scene {
        words: BOTH_LISTS,
        files: &[
            (b".testr.conf", COUNTED),
            (b"l", b"a\n"),
            (b"i", b"a\n[q # [r\n(\n"),
        ],
        runs: ONE_RUN,
        reads: &[],
        calls: BEHIND_THE_RUNS,
        ..WORST
    };
    let rows = [
        (
            Scene {
                reads: &[6],
                ..scene
            },
            0,
            4,
            READ_FAULT,
        ),
        (
            scene,
            0,
            3,
            b"testr: i line 2: bad pattern: [q\n".as_slice(),
        ),
        (
            Scene {
                files: &[(b".testr.conf", COUNTED), (b"l", b"a\n"), (b"i", b"#")],
                ..scene
            },
            0,
            3,
            b"testr: no file e\n",
        ),
        (
            Scene {
                files: &[
                    (b".testr.conf", COUNTED),
                    (b"l", b"a\n"),
                    (b"i", b"#"),
                    (b"e", b"a"),
                ],
                ..scene
            },
            0,
            4,
            SHELF_FAULT,
        ),
    ];
    assert_eq!(rt; first_other(&rt, &rows)?, None);
    Ok(())
}

#[test]
fn the_number_of_workers_comes_before_the_listing(rt: HostRuntime) -> Result<(), Fail> {
    let scene = Scene {
        words: COUNTING,
        files: &[(b".testr.conf", COUNTED)],
        runs: ONE_RUN,
        reads: &[4],
        calls: BEHIND_THE_RUNS,
        starts: &[1],
        ..WORST
    };
    let rows = [
        (
            Scene {
                starts: &[0],
                ..scene
            },
            0,
            4,
            START_FAULT,
        ),
        (
            Scene {
                outputs: &[(b"3", Finish::ReadFault)],
                ..scene
            },
            1,
            4,
            CHILD_FAULT,
        ),
        (
            Scene {
                outputs: &[(b"3", Finish::Exit(1))],
                ..scene
            },
            1,
            3,
            NO_NUMBER_OF_3,
        ),
        (
            Scene {
                outputs: &[(b"x", ENDED)],
                ..scene
            },
            1,
            3,
            NO_NUMBER_OF_X,
        ),
        (
            Scene {
                outputs: &[(LONG_NUMBER, ENDED)],
                ..scene
            },
            1,
            3,
            NO_NUMBER_OF_LONG,
        ),
    ];
    assert_eq!(rt; first_other(&rt, &rows)?, None);
    Ok(())
}

#[test]
fn the_table_of_processors_comes_before_the_listing(rt: HostRuntime) -> Result<(), Fail> {
    let scene = Scene {
        words: COUNTING,
        files: &[(b".testr.conf", COUNTED)],
        outputs: &[(b"0", ENDED)],
        runs: ONE_RUN,
        reads: &[4],
        calls: BEHIND_THE_RUNS,
        starts: &[1],
        ..WORST
    };
    let no_list_option = b"testr: .testr.conf: test_list_option is needed\n";
    let rows = [
        (scene, 1, 4, READ_FAULT),
        (
            Scene {
                files: &[(b".testr.conf", UNLISTED)],
                ..scene
            },
            0,
            4,
            READ_FAULT,
        ),
        (
            Scene {
                reads: &[],
                ..scene
            },
            1,
            3,
            no_list_option,
        ),
    ];
    assert_eq!(rt; first_other(&rt, &rows)?, None);
    Ok(())
}

#[test]
fn the_listing_comes_before_the_times(rt: HostRuntime) -> Result<(), Fail> {
    let scene = Scene {
        words: TWO_WORKERS,
        files: &[(b".testr.conf", NO_ID_OPTION)],
        runs: ONE_RUN,
        reads: &[],
        calls: BEHIND_THE_RUNS,
        starts: &[1],
        ..WORST
    };
    let ended_with_3 = b"testr: listing ended with 3\n".as_slice();
    let rows = [
        (
            Scene {
                starts: &[0],
                ..scene
            },
            0,
            4,
            START_FAULT,
        ),
        (
            Scene {
                outputs: &[(A_AND_B, Finish::WaitFault)],
                ..scene
            },
            1,
            4,
            CHILD_FAULT,
        ),
        (
            Scene {
                outputs: &[(A_AND_B, Finish::Exit(3))],
                ..scene
            },
            1,
            3,
            ended_with_3,
        ),
    ];
    assert_eq!(rt; first_other(&rt, &rows)?, None);
    Ok(())
}

#[test]
fn the_times_come_before_the_jobs_and_these_before_the_draft(rt: HostRuntime) -> Result<(), Fail> {
    let scene = Scene {
        words: TWO_WORKERS,
        files: &[(b".testr.conf", NO_ID_OPTION)],
        runs: ONE_RUN,
        outputs: &[(A_AND_B, ENDED)],
        reads: &[],
        calls: BEHIND_THE_RUNS,
        starts: &[1],
        ..WORST
    };
    let no_id_option = b"testr: .testr.conf: test_id_option is needed\n".as_slice();
    let rows = [
        (scene, 1, 4, SHELF_FAULT),
        (
            Scene {
                words: ONE_WORKER,
                ..scene
            },
            1,
            3,
            no_id_option,
        ),
    ];
    assert_eq!(rt; first_other(&rt, &rows)?, None);
    Ok(())
}

#[test]
fn the_draft_comes_before_the_starts_and_these_before_the_run(rt: HostRuntime) -> Result<(), Fail> {
    let scene = Scene {
        words: OF_ALL_TESTS,
        files: &[(b".testr.conf", GOOD)],
        runs: NO_RUN,
        outputs: &[(FOO, ENDED)],
        reads: &[],
        calls: BEHIND_THE_RUNS,
        ..WORST
    };
    let rows = [
        (scene, 0, 4, SHELF_FAULT),
        (
            Scene {
                calls: BEHIND_THE_DRAFT,
                ..scene
            },
            0,
            4,
            START_FAULT,
        ),
        // The first packet, and the last sync of the folder.
        (
            Scene {
                calls: BEHIND_THE_DRAFT,
                starts: &[],
                ..scene
            },
            1,
            4,
            SHELF_FAULT,
        ),
        (
            Scene {
                calls: &[8],
                starts: &[],
                ..scene
            },
            1,
            4,
            SHELF_FAULT,
        ),
        (
            Scene {
                calls: &[],
                starts: &[],
                ..scene
            },
            1,
            4,
            b"testr: fault writing output\n",
        ),
    ];
    assert_eq!(rt; first_other(&rt, &rows)?, None);
    Ok(())
}
