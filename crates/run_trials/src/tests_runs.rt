//! `testr run` over workers in memory: the jobs, the run that is kept, the report and the status.

use crate::configured::{CONF, ENDED, LISTED, project_beside};
use crate::contents::filled;
use edge_io::{Finish, MemShelf, Shelf, Spawner};
use std::alloc::Global;
use std::process::Abort;
use std::sync::Wait;
use std::test::Fail;
use std::thread::Threads;
use sub_number::Text;
use trial_calls::{
    FAIL, FAIL_KEPT, FOO, FOO_KEPT, NOTHING, PASSED_AS_0, PASSED_AS_1, Project, SHELF_FAULT,
    call_in, has_file, has_started, load, project_of, project_with, put, repository, shows,
};

const COUNTED: &[u8] =
    b"[DEFAULT]\ntest_command=run $LISTOPT\ntest_list_option=--list\ntest_run_concurrency=echo 3\n";

// Its workers are told of an option that it does not have.
const NO_ID_OPTION: &[u8] =
    b"[DEFAULT]\ntest_command=run $LISTOPT$IDOPTION\ntest_list_option=--list\n";

const TAGGED: &[u8] = b"[DEFAULT]\ntest_command=run\nfilter_tags=slow\n";

const DISCOVERED: &[u8] =
    b"[DEFAULT]\ntest_command=OS_STDOUT_CAPTURE=${OS_STDOUT_CAPTURE:-1} \\\n             ${PYTHON:-python} -m subunit.run discover -t ./ . $LISTOPT $IDOPTION\ntest_id_option=--load-list $IDFILE\ntest_list_option=--list\n";

const NO_TESTS: &[u8] = b"Ran 0 tests\nPASSED (id=0)\n";

const NO_TESTS_AS_1: &[u8] = b"Ran 0 tests\nPASSED (id=1)\n";

// `foo` is in progress, and what is kept of a worker that gave it and ended with 2, or was not read to its end.
const BEGUN: &[u8] = b"\xb3\x29\x02\x0c\x03foo\x8e\xc1-\xb5";

const RETURNED_2: &[u8] =
    b"\xb3-\x02\x0e\x03foo\x010h\x05\xdb\x7e\xb3-f\x40M\x12process-returncode\x17text/plain;charset=utf8\x09traceback\x0creturncode 2\x010\xf4\xd0\xd68";

const NOT_READ: &[u8] =
    b"\xb3-\x02\x0e\x03foo\x010h\x05\xdb\x7e\xb3-f\x40K\x12process-returncode\x17text/plain;charset=utf8\x09traceback\nread fault\x010g\xa6\xc6j";

const RETURNED_2_REPORT: &[u8] =
    b"======================================================================\nFAIL: process-returncode\n----------------------------------------------------------------------\nreturncode 2\n======================================================================\nUNFINISHED: foo\n----------------------------------------------------------------------\nRan 2 tests\nFAILED (id=0, failures=2)\n";

const NOT_READ_REPORT: &[u8] =
    b"======================================================================\nFAIL: process-returncode\n----------------------------------------------------------------------\nread fault\n======================================================================\nUNFINISHED: foo\n----------------------------------------------------------------------\nRan 2 tests\nFAILED (id=0, failures=2)\n";

// `foo` failed, and what is kept where it failed on lane 0 and passed on lane 1.
const FAILED: &[u8] = b"\xb3\x29\x06\x0c\x03foo\x15Po\xa3";

const FAILED_FIRST: &[u8] =
    b"\xb3-\x06\x0e\x03foo\x010\xecO\xd5\x84\xb3-\x03\x0e\x03foo\x011\xd3\xa8\xebv";

const PASSED_FIRST: &[u8] =
    b"\xb3-\x03\x0e\x03foo\x011\xd3\xa8\xebv\xb3-\x06\x0e\x03foo\x010\xecO\xd5\x84";

const ONE_OF_TWO_REPORT: &[u8] =
    b"======================================================================\nFAIL: foo\n----------------------------------------------------------------------\nRan 2 tests\nFAILED (id=0, failures=1)\n";

// The tests that are there.
const A_AND_B: &[u8] = b"\xb3\x29\x01\n\x01aw\xc8\x0f1\xb3\x29\x01\n\x01b\xee\xc1\x5e\x8b";

const A_B_AND_C: &[u8] =
    b"\xb3\x29\x01\n\x01aw\xc8\x0f1\xb3\x29\x01\n\x01b\xee\xc1\x5e\x8b\xb3\x29\x01\n\x01c\x99\xc6n\x1d";

// `a` and `b` failed.
const A_AND_B_FAILED: &[u8] = b"\xb3\x29\x06\n\x01a\xea\x1f7\x88\xb3\x29\x06\n\x01bs\x16f2";

// `a`, with a tag, and `b` passed.
const A_SLOW_AND_B: &[u8] =
    b"\xb3\x29\x83\x10\x01a\x01\x04slow\xefr\x901\xb3\x29\x03\n\x01bD\xc8\x96\x00";

// `a`, `b`, `c` and `d` took 5, 4, 3 and 3 seconds.
const TIMED: &[u8] =
    b"\xb3\x2b\x02\x0f\x00\x00\x00d\x00\x01azok\xb8\xb3\x2b\x03\x0f\x00\x00\x00i\x00\x01a\x9f\x7e\xa7\x26\xb3\x2b\x02\x0f\x00\x00\x00d\x00\x01b\xe3f\x3a\x02\xb3\x2b\x03\x0f\x00\x00\x00h\x00\x01b\xbe\xcb\x91\xf9\xb3\x2b\x02\x0f\x00\x00\x00d\x00\x01c\x94a\n\x94\xb3\x2b\x03\x0f\x00\x00\x00g\x00\x01c\x91\xaf\xb19\xb3\x2b\x02\x0f\x00\x00\x00d\x00\x01d\n\x05\x9f7\xb3\x2b\x03\x0f\x00\x00\x00g\x00\x01d\x0f\xcb\x24\x9a";

const GROUPED: &[u8] = b"[DEFAULT]\ntest_command=run\ngroup_regex=^[^.]+\n";

// A call that runs tests: its words, what it tells without a line of a refusal, and the name and the bytes of its run.
type Run<'a> = (&'a [&'a str], u8, &'a [u8], &'a str, &'a [u8]);

// Whether the run is so, and these jobs were started.
fn is_run<R: Threads + Wait + Sync + AllocGlobal>(
    rt: &R,
    shelf: &mut MemShelf,
    project: &mut Project,
    run: Run,
    jobs: &[[&[u8]; 3]],
) -> Result<bool, Fail> {
    let (words, status, report, name, kept) = run;
    // Where no test ran that was asked for, lines tell so.
    let silent = status == 1 && kept.is_empty();
    let told = call_in(rt, words, shelf, project, &[])?;
    Ok(
        told.status == status
            && told.out.as_slice() == report
            && told.err.is_empty() != silent
            && has_file(shelf, name, kept)?
            && has_started(project, jobs),
    )
}

// Whether the run is so in an empty repository, by a project of this configuration and these outputs.
fn is_first_run<R: Threads + Wait + Sync + AllocGlobal>(
    rt: &R,
    conf: &[u8],
    outputs: &[(&[u8], Finish)],
    run: Run,
    jobs: &[[&[u8]; 3]],
) -> Result<bool, Fail> {
    let mut project = project_of(rt.alloc(), conf, outputs, &[], &[])?;
    let mut shelf = repository(rt.alloc(), &[])?;
    is_run(rt, &mut shelf, &mut project, run, jobs)
}

const ALL: [[&[u8]; 3]; 1] = [[b"run ", NOTHING, NOTHING]];

const BAD_ENDS: [(Finish, &[u8], &[u8]); 3] = [
    (Finish::Exit(2), RETURNED_2, RETURNED_2_REPORT),
    (Finish::ReadFault, NOT_READ, NOT_READ_REPORT),
    (Finish::WaitFault, NOT_READ, NOT_READ_REPORT),
];

#[test]
fn a_worker_that_does_not_end_well_fails(rt: HostRuntime) -> Result<(), Fail> {
    for (finish, kept, report) in &BAD_ENDS {
        let outputs = [(BEGUN, *finish)];
        let words = ["testr", "run"];
        let run = (words.as_slice(), 1, *report, "0", *kept);
        assert!(rt; is_first_run(&rt, CONF, &outputs, run, &ALL)?);
    }
    Ok(())
}

// `foo` failed, and what is kept of it on lane 0.
const FOO_FAILED_KEPT: &[u8] = b"\xb3-\x06\x0e\x03foo\x010\xecO\xd5\x84";

const FOO_FAILED_NOTED: &[u8] =
    b"======================================================================\nFAIL: foo\n----------------------------------------------------------------------\nRan 1 tests\nFAILED (id=0, failures=1)\n::error title=foo::\n";

#[test]
fn notes_of_failures_stand_behind_the_report_of_a_run(rt: HostRuntime) -> Result<(), Fail> {
    let outputs = [(FAILED, ENDED)];
    let words = ["testr", "run", "--format=github"];
    let run = (words.as_slice(), 1, FOO_FAILED_NOTED, "0", FOO_FAILED_KEPT);
    assert!(rt; is_first_run(&rt, CONF, &outputs, run, &ALL)?);
    Ok(())
}

// `a` passed, and what is kept of a worker that was to run `a`, `b` and `c`, gave that and ended with 7.
const A_PASSED: &[u8] = b"\xb3\x29\x03\n\x01a\xdd\xc1\xc7\xba";

const LOST_B_AND_C: &[u8] =
    b"\xb3-\x03\x0c\x01a\x010\x1e>\x0eA\xb3-\x02\x0c\x01b\x010\xd7$c\xbd\xb3-\x02\x0c\x01c\x010\xd6\xe6\x09\x8a\xb3-f\x40M\x12process-returncode\x17text/plain;charset=utf8\x09traceback\x0creturncode 7\x010\xf2\x1b\x14\xd3";

const LOST_REPORT: &[u8] =
    b"======================================================================\nFAIL: process-returncode\n----------------------------------------------------------------------\nreturncode 7\n======================================================================\nUNFINISHED: b\n----------------------------------------------------------------------\n======================================================================\nUNFINISHED: c\n----------------------------------------------------------------------\nRan 4 tests\nFAILED (id=0, failures=3)\n";

const OF_THREE: [[&[u8]; 3]; 1] = [[b"run ", b".testr-ids.0", b"a\nb\nc\n"]];

// Whether the run of these three is so, and the failing set has those that were lost.
fn tells_of_lost_tests<R: Threads + Wait + Sync + AllocGlobal>(
    rt: &R,
    project: &mut Project,
) -> Result<bool, Fail> {
    let mut shelf = repository(rt.alloc(), &[])?;
    let words = ["testr", "run", "--load-list=l"];
    let run = (words.as_slice(), 1, LOST_REPORT, "0.part", LOST_B_AND_C);
    let failing = (1, b"b\nc\nprocess-returncode\n".as_slice(), NOTHING);
    Ok(
        is_run(rt, &mut shelf, project, run, &OF_THREE)?
            && shows(
                rt,
                &["testr", "failing", "--list"],
                &mut shelf,
                project,
                failing,
            )?,
    )
}

#[test]
fn no_test_vanishes_with_its_worker(rt: HostRuntime) -> Result<(), Fail> {
    let outputs = [(A_PASSED, Finish::Exit(7))];
    let mut project = project_beside(rt.alloc(), CONF, &outputs, b"l", b"a\nb\nc\n")?;
    assert!(rt; tells_of_lost_tests(&rt, &mut project)?);
    Ok(())
}

const FULL_RUNS: [(&[&str], &str); 5] = [
    (&["testr", "run"], "0"),
    (&["testr", "run", "--concurrency=2"], "0"),
    (&["testr", "run", "--parallel", "--concurrency=1"], "0"),
    (&["testr", "run", "--parallel"], "0"),
    (&["testr", "run", "--partial"], "0.part"),
];

#[test]
fn one_worker_runs_all_tests_as_a_full_run(rt: HostRuntime) -> Result<(), Fail> {
    for (row, (words, name)) in FULL_RUNS.iter().enumerate() {
        let run = (*words, 0, PASSED_AS_0, *name, FOO_KEPT);
        assert!(rt;
            is_first_run(&rt, CONF, &[(FOO, ENDED)], run, &ALL)?,
            "row {row}"
        );
    }
    Ok(())
}

const ON_TWO: [&str; 4] = ["testr", "run", "--parallel", "--concurrency=2"];

const ONE_OF_TWO: [(&[u8], Finish); 3] = [(A_AND_B, ENDED), (FAILED, ENDED), (FOO, ENDED)];

// The lanes are recorded side by side.
fn has_either(shelf: &mut MemShelf) -> Result<bool, Fail> {
    Ok(has_file(shelf, "0", FAILED_FIRST)? || has_file(shelf, "0", PASSED_FIRST)?)
}

fn one_lane_fails<R: Threads + Wait + Sync + AllocGlobal + Abort>(
    rt: &R,
    shelf: &mut MemShelf,
    project: &mut Project,
) -> Result<(), Fail> {
    // The workers ran another test than they were asked for.
    let lines = b"testr: 2 of 2 tests that were asked for did not run\n  a\n  b\n";
    let wanted = (1, ONE_OF_TWO_REPORT, lines.as_slice());
    assert!(rt; shows(rt, &ON_TWO, shelf, project, wanted)?);
    assert!(rt; has_either(shelf)?);
    let words = ["testr", "failing", "--list"];
    let wanted = (1, b"foo\n".as_slice(), NOTHING);
    assert!(rt; shows(rt, &words, shelf, project, wanted)?);
    Ok(())
}

#[test]
fn a_test_that_fails_on_one_of_two_lanes_fails(rt: HostRuntime) -> Result<(), Fail> {
    let mut project = project_of(rt.alloc(), CONF, &ONE_OF_TWO, &[], &[])?;
    let mut shelf = repository(rt.alloc(), &[])?;
    one_lane_fails(&rt, &mut shelf, &mut project)
}

const TWO_EMPTY: [(&[u8], Finish); 3] = [(A_AND_B, ENDED), (NOTHING, ENDED), (NOTHING, ENDED)];

const DISCOVERED_JOBS: [[&[u8]; 3]; 3] = [
    [
        b"OS_STDOUT_CAPTURE=${OS_STDOUT_CAPTURE:-1} \\\n${PYTHON:-python} -m subunit.run discover -t ./ . --list ",
        NOTHING,
        NOTHING,
    ],
    [
        b"OS_STDOUT_CAPTURE=${OS_STDOUT_CAPTURE:-1} \\\n${PYTHON:-python} -m subunit.run discover -t ./ .  --load-list .testr-ids.0",
        b".testr-ids.0",
        b"a\n",
    ],
    [
        b"OS_STDOUT_CAPTURE=${OS_STDOUT_CAPTURE:-1} \\\n${PYTHON:-python} -m subunit.run discover -t ./ .  --load-list .testr-ids.1",
        b".testr-ids.1",
        b"b\n",
    ],
];

#[test]
fn the_jobs_of_a_listing_and_of_two_workers(rt: HostRuntime) -> Result<(), Fail> {
    let run = (ON_TWO.as_slice(), 1, NO_TESTS, "0", NOTHING);
    assert!(rt; is_first_run(&rt, DISCOVERED, &TWO_EMPTY, run, &DISCOVERED_JOBS)?);
    Ok(())
}

const IN_FOLDER_JOBS: [[&[u8]; 3]; 3] = [
    [
        b"OS_STDOUT_CAPTURE=${OS_STDOUT_CAPTURE:-1} \\\n${PYTHON:-python} -m subunit.run discover -t ./ . --list ",
        NOTHING,
        NOTHING,
    ],
    [
        b"OS_STDOUT_CAPTURE=${OS_STDOUT_CAPTURE:-1} \\\n${PYTHON:-python} -m subunit.run discover -t ./ .  --load-list /srv/suite/.testr-ids.0",
        b".testr-ids.0",
        b"a\n",
    ],
    [
        b"OS_STDOUT_CAPTURE=${OS_STDOUT_CAPTURE:-1} \\\n${PYTHON:-python} -m subunit.run discover -t ./ .  --load-list /srv/suite/.testr-ids.1",
        b".testr-ids.1",
        b"b\n",
    ],
];

// Whether the run is so where the project stands in this folder.
fn is_run_in<R: Threads + Wait + Sync + AllocGlobal>(
    rt: &R,
    folder: &[u8],
    run: Run,
    jobs: &[[&[u8]; 3]],
) -> Result<bool, Fail> {
    let mut project = project_of(rt.alloc(), DISCOVERED, &TWO_EMPTY, &[], &[])?;
    project.site.place_in(Text::new(rt.alloc(), folder)?);
    let mut shelf = repository(rt.alloc(), &[])?;
    is_run(rt, &mut shelf, &mut project, run, jobs)
}

#[test]
fn files_of_ids_have_the_path_of_the_folder(rt: HostRuntime) -> Result<(), Fail> {
    let run = (ON_TWO.as_slice(), 1, NO_TESTS, "0", NOTHING);
    assert!(rt; is_run_in(&rt, b"/srv/suite", run, &IN_FOLDER_JOBS)?);
    assert!(rt; is_run_in(&rt, b"/srv/my suite", run, &DISCOVERED_JOBS)?);
    Ok(())
}

const COUNTED_JOBS: [[&[u8]; 3]; 5] = [
    [b"echo 3", NOTHING, NOTHING],
    LISTED,
    [b"run ", b".testr-ids.0", b"a\n"],
    [b"run ", b".testr-ids.1", b"b\n"],
    [b"run ", b".testr-ids.2", b"c\n"],
];

// Whether there are three workers where this number is called out.
fn counts_three<R: Threads + Wait + Sync + AllocGlobal>(
    rt: &R,
    number: &[u8],
) -> Result<bool, Fail> {
    let outputs = [
        (number, ENDED),
        (A_B_AND_C, ENDED),
        (NOTHING, ENDED),
        (NOTHING, ENDED),
        (NOTHING, ENDED),
    ];
    let words = ["testr", "run", "--parallel"];
    let run = (words.as_slice(), 1, NO_TESTS, "0", NOTHING);
    is_first_run(rt, COUNTED, &outputs, run, &COUNTED_JOBS)
}

#[test]
fn the_number_of_workers_is_called_out(rt: HostRuntime) -> Result<(), Fail> {
    assert!(rt; counts_three(&rt, b"3\n")?);
    // A worker without tests is not started.
    assert!(rt; counts_three(&rt, b"100")?);
    Ok(())
}

const THREE_LISTED: [(&[u8], Finish); 3] = [(A_B_AND_C, ENDED), (NOTHING, ENDED), (NOTHING, ENDED)];

const JOBS_OF_THREE: [[&[u8]; 3]; 3] = [
    LISTED,
    [b"run ", b".testr-ids.0", b"a\nc\n"],
    [b"run ", b".testr-ids.1", b"b\n"],
];

#[test]
fn a_listing_of_processors_gives_the_number_of_workers(rt: HostRuntime) -> Result<(), Fail> {
    let table = b"processor\t: 0\nmodel\nprocessor\t: 1\n";
    let mut project = project_beside(rt.alloc(), CONF, &THREE_LISTED, b"/proc/cpuinfo", table)?;
    let mut shelf = repository(rt.alloc(), &[])?;
    let words = ["testr", "run", "--parallel", "--concurrency=0"];
    let run = (words.as_slice(), 1, NO_TESTS, "0", NOTHING);
    assert!(rt; is_run(&rt, &mut shelf, &mut project, run, &JOBS_OF_THREE)?);
    Ok(())
}

// A repository with a run of this stream.
fn loaded<R: Threads + Wait + Sync + AllocGlobal>(rt: &R, stream: &[u8]) -> Result<MemShelf, Fail> {
    let mut shelf = repository(rt.alloc(), &[])?;
    load(rt, &mut shelf, stream)?;
    Ok(shelf)
}

// Configurations and ids, and the command, the first worker's ids and the second one's.
const SHARED: [(&[u8], &[u8], &[u8], &[u8], &[u8]); 2] = [
    (CONF, b"a\nb\nc\nd\ne\n", b"run ", b"a\nd\ne\n", b"b\nc\n"),
    (GROUPED, b"y.x\nx.x\nx.y\n", b"run", b"x.x\nx.y\n", b"y.x\n"),
];

const LIST_ON_TWO: [&str; 5] = [
    "testr",
    "run",
    "--load-list=l",
    "--parallel",
    "--concurrency=2",
];

// Whether the ids are shared by these jobs, behind a run of which the times are known.
fn are_shared<R: Threads + Wait + Sync + AllocGlobal>(
    rt: &R,
    conf: &[u8],
    ids: &[u8],
    jobs: &[[&[u8]; 3]],
) -> Result<bool, Fail> {
    let outputs = [(NOTHING, ENDED), (NOTHING, ENDED)];
    let mut project = project_beside(rt.alloc(), conf, &outputs, b"l", ids)?;
    let mut shelf = loaded(rt, TIMED)?;
    let run = (LIST_ON_TWO.as_slice(), 1, NO_TESTS_AS_1, "1.part", NOTHING);
    is_run(rt, &mut shelf, &mut project, run, jobs)
}

#[test]
fn the_tests_are_shared_by_their_times_and_groups(rt: HostRuntime) -> Result<(), Fail> {
    for (conf, ids, command, first, second) in &SHARED {
        let jobs: [[&[u8]; 3]; 2] = [
            [command, b".testr-ids.0", first],
            [command, b".testr-ids.1", second],
        ];
        assert!(rt; are_shared(&rt, conf, ids, &jobs)?);
    }
    Ok(())
}

// Lists of ids beside a file of times. The repository knows the times a 5, b 4, c 3 and d 3.
const BESIDE_TIMES: &[(&[u8], &[u8])] = &[
    (b".testr.conf", CONF),
    (b"l", b"a\nb\nc\nd\ne\n"),
    (b"m", b"A\na\nb\nc\n"),
    (
        b"t",
        b"subunit-times 1\n7\nb\x003\x00c\x003\x00d\x004\x00e\x005\x00",
    ),
];

// Words, and the ids of each worker, of which there are two at most.
type Sharing<'a> = (&'a [&'a str], &'a [[&'a [u8]; 3]]);

const SHARDS: [Sharing; 7] = [
    (
        &["testr", "run", "--load-list=l", "--shard=1/2"],
        &[[b"run ", b".testr-ids.0", b"a\nc\ne\n"]],
    ),
    (
        &["testr", "run", "--load-list=l", "--shard=2/2"],
        &[[b"run ", b".testr-ids.0", b"b\nd\n"]],
    ),
    (
        &["testr", "run", "--load-list=l", "--shard=1/1"],
        &[[b"run ", b".testr-ids.0", b"a\nb\nc\nd\ne\n"]],
    ),
    (
        &["testr", "run", "--load-list=l", "--shard=1/2", "--times=t"],
        &[[b"run ", b".testr-ids.0", b"e\nc\na\n"]],
    ),
    (
        &[
            "testr",
            "run",
            "--times",
            "t",
            "--load-list=l",
            "--shard=2/2",
        ],
        &[[b"run ", b".testr-ids.0", b"d\nb\n"]],
    ),
    // Two workers go by the times of the repository: `b` is known, and `A` comes to the first share, too.
    (
        &[
            "testr",
            "run",
            "--load-list=m",
            "--shard=1/2",
            "--parallel",
            "--concurrency=2",
        ],
        &[[b"run ", b".testr-ids.0", b"b\nA\n"]],
    ),
    // By the times of the file, where one is named, `e` is the longest.
    (
        &[
            "testr",
            "run",
            "--load-list=l",
            "--shard=1/2",
            "--parallel",
            "--concurrency=2",
            "--times=t",
        ],
        &[
            [b"run ", b".testr-ids.0", b"e\na\n"],
            [b"run ", b".testr-ids.1", b"c\n"],
        ],
    ),
];

// Whether these are the workers behind a run of which the times are known.
fn is_shard<R: Threads + Wait + Sync + AllocGlobal>(
    rt: &R,
    words: &[&str],
    jobs: &[[&[u8]; 3]],
) -> Result<bool, Fail> {
    let outputs = [(NOTHING, ENDED), (NOTHING, ENDED)];
    let mut project = project_with(rt.alloc(), BESIDE_TIMES, &outputs, &[], &[])?;
    let mut shelf = loaded(rt, TIMED)?;
    let run = (words, 1, NO_TESTS_AS_1, "1.part", NOTHING);
    is_run(rt, &mut shelf, &mut project, run, jobs)
}

#[test]
fn shards_go_by_the_times_of_a_file_alone(rt: HostRuntime) -> Result<(), Fail> {
    for (row, (words, jobs)) in SHARDS.iter().enumerate() {
        assert!(rt; is_shard(&rt, words, jobs)?, "row {row}");
    }
    Ok(())
}

#[test]
fn for_a_shard_the_tests_are_listed(rt: HostRuntime) -> Result<(), Fail> {
    let run = (
        ["testr", "run", "--shard=2/2"].as_slice(),
        1,
        NO_TESTS,
        "0.part",
        NOTHING,
    );
    let jobs: [[&[u8]; 3]; 2] = [LISTED, [b"run ", b".testr-ids.0", b"b\n"]];
    assert!(rt; is_first_run(&rt, CONF, &[(A_AND_B, ENDED), (NOTHING, ENDED)], run, &jobs)?);
    Ok(())
}

// Words, and the ids of the tests that they choose where `a` and `b` failed.
const CHOSEN: [(&[&str], &[u8]); 8] = [
    (&["testr", "run", "--failing"], b"a\nb\n"),
    (&["testr", "run", "--failing", "--load-list=l"], b"b\n"),
    (&["testr", "run", "--load-list=l"], b"c\nb\n"),
    (&["testr", "run", "--load-list", "l", "c", "x"], b"c\n"),
    (&["testr", "run", "--failing", "^[ac]"], b"a\n"),
    (&["testr", "run", "--failing", "--exclude-regex=a"], b"b\n"),
    (&["testr", "run", "--failing", "--include-list=l"], b"b\n"),
    (&["testr", "run", "--failing", "--exclude-list=l"], b"a\n"),
];

fn are_chosen<R: Threads + Wait + Sync + AllocGlobal>(
    rt: &R,
    words: &[&str],
    ids: &[u8],
) -> Result<bool, Fail> {
    let outputs = [(NOTHING, ENDED)];
    let mut project = project_beside(rt.alloc(), CONF, &outputs, b"l", b" c\n\nb \r\nc")?;
    let mut shelf = loaded(rt, A_AND_B_FAILED)?;
    let run = (words, 1, NO_TESTS_AS_1, "1.part", NOTHING);
    let jobs: [[&[u8]; 3]; 1] = [[b"run ", b".testr-ids.0", ids]];
    is_run(rt, &mut shelf, &mut project, run, &jobs)
}

#[test]
fn chosen_tests_are_a_partial_run_of_theirs(rt: HostRuntime) -> Result<(), Fail> {
    for (row, (words, ids)) in CHOSEN.iter().enumerate() {
        assert!(rt; are_chosen(&rt, words, ids)?, "row {row}");
    }
    Ok(())
}

// Words that choose no test, how many programs they start, the status, and the line.
const NONE_LEFT: [(&[&str], usize, u8, &[u8]); 5] = [
    (&["testr", "run", "--load-list=l"], 0, 0, NOTHING),
    (&["testr", "run", "--failing"], 0, 0, NOTHING),
    (&["testr", "run", "--failing", "--parallel"], 0, 0, NOTHING),
    (&["testr", "run", "c", "^$"], 1, 1, NONE_RAN),
    (&["testr", "run", "--exclude-regex="], 1, 1, NONE_RAN),
];

const NONE_RAN: &[u8] = b"testr: no test ran\n";

fn none_is_left<R: Threads + Wait + Sync + AllocGlobal>(
    rt: &R,
    words: &[&str],
    shelf: &mut MemShelf,
    project: &mut Project,
    started: usize,
    wanted: (u8, &[u8]),
) -> Result<bool, Fail> {
    let (status, line) = wanted;
    Ok(
        shows(rt, words, shelf, project, (status, NO_TESTS, line))?
            && project.spawner.started().len() == started
            && shelf.length("0.part")? == Some(0),
    )
}

fn starts_only<R: Threads + Wait + Sync + AllocGlobal>(
    rt: &R,
    words: &[&str],
    started: usize,
    wanted: (u8, &[u8]),
) -> Result<bool, Fail> {
    let outputs = [(A_AND_B, ENDED)];
    let mut project = project_beside(rt.alloc(), NO_ID_OPTION, &outputs, b"l", NOTHING)?;
    let mut shelf = repository(rt.alloc(), &[])?;
    none_is_left(rt, words, &mut shelf, &mut project, started, wanted)
}

#[test]
fn where_no_test_is_left_no_worker_starts(rt: HostRuntime) -> Result<(), Fail> {
    for (row, (words, started, status, line)) in NONE_LEFT.iter().enumerate() {
        assert!(rt;
            starts_only(&rt, words, *started, (*status, line))?,
            "row {row}"
        );
    }
    Ok(())
}

fn slow_is_not_counted<R: Threads + Wait + Sync + AllocGlobal + Abort>(
    rt: &R,
    shelf: &mut MemShelf,
    project: &mut Project,
) -> Result<(), Fail> {
    let wanted = (0, PASSED_AS_0, NOTHING);
    assert!(rt; shows(rt, &["testr", "run"], shelf, project, wanted)?);
    let wanted = (0, b"Ran 2 tests\nPASSED (id=0)\n".as_slice(), NOTHING);
    assert!(rt; shows(rt, &["testr", "last"], shelf, project, wanted)?);
    Ok(())
}

#[test]
fn tests_with_a_filter_tag_are_not_counted(rt: HostRuntime) -> Result<(), Fail> {
    let mut project = project_of(rt.alloc(), TAGGED, &[(A_SLOW_AND_B, ENDED)], &[], &[])?;
    let mut shelf = repository(rt.alloc(), &[])?;
    slow_is_not_counted(&rt, &mut shelf, &mut project)
}

const THREE_STARTS: [(&[u8], Finish); 3] = [(A_AND_B, ENDED), (FOO, ENDED), (FOO, ENDED)];

const TWO_JOBS: [[&[u8]; 3]; 2] = [LISTED, [b"run ", b".testr-ids.0", b"a\n"]];

fn the_second_worker_fails<R: Threads + Wait + Sync + AllocGlobal + Abort>(
    rt: &R,
    shelf: &mut MemShelf,
    project: &mut Project,
) -> Result<(), Fail> {
    let line = b"testr: fault starting a program\n".as_slice();
    assert!(rt; shows(rt, &ON_TWO, shelf, project, (4, NOTHING, line))?);
    assert!(rt; has_started(project, &TWO_JOBS));
    assert_eq!(rt; shelf.length("0")?, None);
    Ok(())
}

#[test]
fn a_start_that_fails_leaves_the_runs(rt: HostRuntime) -> Result<(), Fail> {
    let mut project = project_of(rt.alloc(), CONF, &THREE_STARTS, &[], &[2])?;
    let mut shelf = repository(rt.alloc(), &[])?;
    the_second_worker_fails(&rt, &mut shelf, &mut project)
}

// A project whose first program gives so many bytes that are no packet that an append fails.
fn long_and_short(alloc: Global) -> Result<Project, Fail> {
    let bytes = filled(alloc, b'x', 300_000)?;
    project_of(
        alloc,
        CONF,
        &[(bytes.as_slice(), ENDED), (FOO, ENDED)],
        &[],
        &[],
    )
}

// A repository of one run. Four calls look at the runs, one begins the new one, and the third one behind it fails.
fn fails_to_append(alloc: Global) -> Result<MemShelf, Fail> {
    let mut shelf = repository(alloc, &[7])?;
    put(alloc, &mut shelf, b"0", FOO_KEPT)?;
    Ok(shelf)
}

fn the_append_fails<R: Threads + Wait + Sync + AllocGlobal + Abort>(
    rt: &R,
    shelf: &mut MemShelf,
    project: &mut Project,
) -> Result<(), Fail> {
    let words = ["testr", "run"];
    assert!(rt; shows(rt, &words, shelf, project, (4, NOTHING, SHELF_FAULT))?);
    assert_eq!(rt; shelf.length("1")?, None);
    assert!(rt; has_file(shelf, "0", FOO_KEPT)?);
    assert!(rt; shows(rt, &words, shelf, project, (0, PASSED_AS_1, NOTHING))?);
    assert!(rt; has_file(shelf, "1", FOO_KEPT)?);
    Ok(())
}

#[test]
fn an_append_that_fails_leaves_the_runs(rt: HostRuntime) -> Result<(), Fail> {
    let mut project = long_and_short(rt.alloc())?;
    let mut shelf = fails_to_append(rt.alloc())?;
    the_append_fails(&rt, &mut shelf, &mut project)
}

// Whether a run without a report is kept, and its status says whether a test failed. The output fails at each write.
fn is_hidden<R: Threads + Wait + Sync + AllocGlobal>(
    rt: &R,
    words: &[&str],
    output: &[u8],
    kept: &[u8],
    status: u8,
) -> Result<bool, Fail> {
    let mut project = project_of(rt.alloc(), CONF, &[(output, ENDED)], &[], &[])?;
    let mut shelf = repository(rt.alloc(), &[])?;
    Ok(
        call_in(rt, words, &mut shelf, &mut project, &[0, 1, 2, 3])?.is(status, NOTHING, NOTHING)
            && has_file(&mut shelf, "0", kept)?,
    )
}

#[test]
fn a_run_without_a_report_writes_nothing(rt: HostRuntime) -> Result<(), Fail> {
    let words = ["testr", "run", "-q"];
    assert!(rt; is_hidden(&rt, &words, FOO, FOO_KEPT, 0)?);
    assert!(rt; is_hidden(&rt, &words, FAIL, FAIL_KEPT, 1)?);
    Ok(())
}

fn the_next_call_fails<R: Threads + Wait + Sync + AllocGlobal + Abort>(
    rt: &R,
    shelf: &mut MemShelf,
    project: &mut Project,
) -> Result<(), Fail> {
    let passed = (0, PASSED_AS_0, NOTHING);
    assert!(rt; shows(rt, &["testr", "run"], shelf, project, passed)?);
    let fault = (4, NOTHING, SHELF_FAULT);
    assert!(rt; shows(rt, &["testr", "last"], shelf, project, fault)?);
    assert!(rt; has_file(shelf, "0", FOO_KEPT)?);
    Ok(())
}

#[test]
fn once_the_caches_are_kept_the_folder_is_not_called(rt: HostRuntime) -> Result<(), Fail> {
    let mut project = project_of(rt.alloc(), CONF, &[(FOO, ENDED)], &[], &[])?;
    // Four calls look at the runs, one begins the new one, one adds to it and three keep it. Behind them the file of the
    // times is looked for, and each cache takes five. The next one fails.
    let mut shelf = repository(rt.alloc(), &[20])?;
    the_next_call_fails(&rt, &mut shelf, &mut project)
}
