//! Runs and listings on instances: which programs are started, in which order, and what is told, at every exit.

use edge_io::Finish;
use std::sync::Wait;
use std::test::Fail;
use std::thread::Threads;
use trial_calls::{
    FOO, FOO_KEPT, NOTHING, NamedFiles, PASSED_AS_0, SHELF_FAULT, Scene, has_file, has_started,
    play,
};

const CONF: &[u8] =
    b"[DEFAULT]\ntest_command=run $LISTOPT $IDOPTION\ntest_list_option=-l\ntest_id_option=-i $IDFILE\ninstance_provision=make $INSTANCE_COUNT\ninstance_execute=on $INSTANCE_ID $COMMAND\ninstance_dispose=drop $INSTANCE_IDS\n";

const FILES: NamedFiles<'static> = &[(b".testr.conf", CONF)];

// The same on a machine of two processors.
const TWO_PROCESSORS: NamedFiles<'static> = &[
    (b".testr.conf", CONF),
    (b"/proc/cpuinfo", b"processor\t: 0\nprocessor\t: 1\n"),
];

// The same beside a list of ids, of which one is no text.
const BESIDE_LIST: NamedFiles<'static> = &[(b".testr.conf", CONF), (b"l", b"a\n\xff\n")];

// The same beside a configuration of stestr, which has no instances.
const BESIDE_STESTR: NamedFiles<'static> = &[
    (b".testr.conf", CONF),
    (
        b".stestr.conf",
        b"[DEFAULT]\ntest_path=./tests\ntop_dir=.\n",
    ),
];

// The same, with a command that tells how many workers there are.
const COUNTED: NamedFiles<'static> = &[(
    b".testr.conf",
    b"[DEFAULT]\ntest_command=run $LISTOPT $IDOPTION\ntest_run_concurrency=count\ntest_list_option=-l\ntest_id_option=-i $IDFILE\ninstance_provision=make $INSTANCE_COUNT\ninstance_execute=on $INSTANCE_ID $COMMAND\ninstance_dispose=drop $INSTANCE_IDS\n",
)];

// Instances that are provisioned, and neither handed a command nor disposed of.
const BARE: NamedFiles<'static> = &[(
    b".testr.conf",
    b"[DEFAULT]\ntest_command=run\ninstance_provision=make $INSTANCE_COUNT\n",
)];

// No instances are asked for, so the other two keys say nothing.
const HERE: NamedFiles<'static> = &[(
    b".testr.conf",
    b"[DEFAULT]\ntest_command=run\ninstance_provision=\ninstance_execute=on $INSTANCE_ID $COMMAND\ninstance_dispose=drop $INSTANCE_IDS\n",
)];

const NO_RUN: NamedFiles<'static> = &[(b"format", b"subunit-store 1\n")];

const ENDED: Finish = Finish::Exit(0);

// The tests a, b and c are there.
const A_B_AND_C: &[u8] =
    b"\xb3\x29\x01\n\x01aw\xc8\x0f1\xb3\x29\x01\n\x01b\xee\xc1\x5e\x8b\xb3\x29\x01\n\x01c\x99\xc6n\x1d";

// `b` passed.
const B_PASSED: &[u8] = b"\xb3\x29\x03\x0a\x01\x62\x44\xc8\x96\x00";

// `c` failed.
const C_FAILED: &[u8] = b"\xb3\x29\x06\x0a\x01\x63\x04\x11\x56\xa4";

// `a` passed, and then `c` failed.
const A_AND_C_FAILED: &[u8] =
    b"\xb3\x29\x03\x0a\x01\x61\xdd\xc1\xc7\xba\xb3\x29\x06\x0a\x01\x63\x04\x11\x56\xa4";

const C_FAILS_ALONE: &[u8] =
    b"======================================================================\nFAIL: c\n----------------------------------------------------------------------\nRan 2 tests\nFAILED (id=0, failures=1)\nc: fails alone\n";

const NO_START: &[u8] = b"testr: fault starting a program\n";

const NOT_READ: &[u8] = b"testr: fault reading a program\n";

// A run on one instance, over an empty repository, at which nothing fails.
const RUN: Scene<'static> = Scene {
    words: &["testr", "run"],
    files: FILES,
    runs: NO_RUN,
    outputs: &[(b"a\n", ENDED), (FOO, ENDED), (b"gone\n", ENDED)],
    reads: &[],
    calls: &[],
    starts: &[],
    writes: &[],
};

// The same, refused before a worker is started.
const REFUSED: Scene<'static> = Scene {
    outputs: &[(b"a\n", ENDED), (NOTHING, ENDED)],
    ..RUN
};

// A job, as its command, and the name and the bytes of its file of ids.
type Parts<'a> = [&'a [u8]; 3];

const MADE: Parts<'static> = [b"make 1", NOTHING, NOTHING];

const MADE_TWO: Parts<'static> = [b"make 2", NOTHING, NOTHING];

const RAN: Parts<'static> = [b"on a run  ", NOTHING, NOTHING];

const LISTED: Parts<'static> = [b"on a run -l ", NOTHING, NOTHING];

const DROPPED: Parts<'static> = [b"drop a", NOTHING, NOTHING];

const DROPPED_TWO: Parts<'static> = [b"drop a b", NOTHING, NOTHING];

const DROPPED_NONE: Parts<'static> = [b"drop ", NOTHING, NOTHING];

const COUNT: Parts<'static> = [b"count", NOTHING, NOTHING];

const A_AND_C_ON_A: Parts<'static> = [b"on a run  -i .testr-ids.0", b".testr-ids.0", b"a\nc\n"];

// What is found; the status, the output and the errors; and the jobs that were started.
type Row<'a> = (Scene<'a>, (u8, &'a [u8], &'a [u8]), &'a [Parts<'a>]);

fn is_so<R: Threads + Wait + Sync + AllocGlobal>(rt: &R, row: &Row<'_>) -> Result<bool, Fail> {
    let (scene, (status, out, err), jobs) = row;
    let played = play(rt, scene)?;
    Ok(played.told.is(*status, out, err) && has_started(&played.project, jobs))
}

const PROVISIONINGS: [Row<'static>; 11] = [
    // The run is on the one instance, which is disposed of.
    (RUN, (0, PASSED_AS_0, NOTHING), &[MADE, RAN, DROPPED]),
    (
        Scene {
            outputs: &[(b"no more\n", Finish::Exit(1))],
            ..RUN
        },
        (3, NOTHING, b"no more\ntestr: provisioning ended with 1\n"),
        &[MADE],
    ),
    (
        Scene {
            outputs: &[(NOTHING, Finish::Exit(-9))],
            ..RUN
        },
        (3, NOTHING, b"testr: provisioning ended with -9\n"),
        &[MADE],
    ),
    (
        Scene {
            outputs: &[(b"a\n", Finish::WaitFault)],
            ..RUN
        },
        (4, NOTHING, NOT_READ),
        &[MADE],
    ),
    // It is no text.
    (
        Scene {
            outputs: &[(b"a \xff\n", ENDED), (NOTHING, ENDED)],
            ..RUN
        },
        (3, NOTHING, b"testr: no instances\n"),
        &[MADE, DROPPED_NONE],
    ),
    // It names none, and ended with 0: so they are disposed of.
    (
        Scene {
            outputs: &[(b" \n\n", ENDED), (NOTHING, ENDED)],
            ..RUN
        },
        (3, NOTHING, b"testr: no instances\n"),
        &[MADE, DROPPED_NONE],
    ),
    // It prints nothing.
    (
        Scene {
            outputs: &[(NOTHING, ENDED), (NOTHING, ENDED)],
            ..RUN
        },
        (3, NOTHING, b"testr: no instances\n"),
        &[MADE, DROPPED_NONE],
    ),
    (
        Scene {
            starts: &[0],
            ..RUN
        },
        (4, NOTHING, NO_START),
        &[],
    ),
    (
        Scene {
            outputs: &[(b"a\n", Finish::ReadFault)],
            ..RUN
        },
        (4, NOTHING, NOT_READ),
        &[MADE],
    ),
    // Without the other two keys the workers run here, and nothing is disposed of.
    (
        Scene {
            files: BARE,
            outputs: &[(b"a\n", ENDED), (FOO, ENDED)],
            ..RUN
        },
        (0, PASSED_AS_0, NOTHING),
        &[MADE, [b"run", NOTHING, NOTHING]],
    ),
    (
        Scene {
            files: HERE,
            outputs: &[(FOO, ENDED)],
            ..RUN
        },
        (0, PASSED_AS_0, NOTHING),
        &[[b"run", NOTHING, NOTHING]],
    ),
];

#[test]
fn a_run_is_on_the_instances_that_its_project_provisions(rt: HostRuntime) -> Result<(), Fail> {
    for (number, row) in PROVISIONINGS.iter().enumerate() {
        assert!(rt; is_so(&rt, row)?, "row {number}");
    }
    Ok(())
}

const REFUSALS: [Row<'static>; 12] = [
    (
        Scene {
            runs: &[],
            ..REFUSED
        },
        (3, NOTHING, b"testr: no repository here\n"),
        &[MADE, DROPPED],
    ),
    (
        Scene {
            words: &["testr", "run", "(p"],
            ..REFUSED
        },
        (3, NOTHING, b"testr: bad pattern: (p\n"),
        &[MADE, DROPPED],
    ),
    (
        Scene {
            words: &["testr", "run", "--load-list=none"],
            ..REFUSED
        },
        (3, NOTHING, b"testr: no file none\n"),
        &[MADE, DROPPED],
    ),
    (
        Scene {
            words: &["testr", "run", "--load-list=l"],
            files: BESIDE_LIST,
            ..REFUSED
        },
        (3, NOTHING, b"testr: l line 2: not an id\n"),
        &[MADE, DROPPED],
    ),
    // The configuration is read a second time, on the instances.
    (
        Scene {
            reads: &[2],
            ..REFUSED
        },
        (4, NOTHING, b"testr: fault reading a file\n"),
        &[MADE, DROPPED],
    ),
    (
        Scene {
            calls: &[0],
            ..REFUSED
        },
        (4, NOTHING, SHELF_FAULT),
        &[MADE, DROPPED],
    ),
    // The worker is not started, and the instances are disposed of by the next start.
    (
        Scene {
            starts: &[1],
            ..REFUSED
        },
        (4, NOTHING, NO_START),
        &[MADE, DROPPED],
    ),
    (
        Scene {
            words: &["testr", "run", "--parallel", "--concurrency=2"],
            outputs: &[
                (b"b a\n", ENDED),
                (NOTHING, Finish::Exit(2)),
                (NOTHING, ENDED),
            ],
            ..RUN
        },
        (3, NOTHING, b"testr: listing ended with 2\n"),
        &[MADE_TWO, LISTED, DROPPED_TWO],
    ),
    (
        Scene {
            words: &["testr", "list-tests"],
            outputs: &[
                (b"a\n", ENDED),
                (NOTHING, Finish::Exit(2)),
                (NOTHING, ENDED),
            ],
            ..RUN
        },
        (3, NOTHING, b"testr: listing ended with 2\n"),
        &[MADE, LISTED, DROPPED],
    ),
    // The second worker is not started, and the first one is stopped.
    (
        Scene {
            words: &["testr", "run", "--parallel", "--concurrency=2"],
            outputs: &[
                (b"b a\n", ENDED),
                (A_B_AND_C, ENDED),
                (FOO, ENDED),
                (NOTHING, ENDED),
            ],
            starts: &[3],
            ..RUN
        },
        (4, NOTHING, NO_START),
        &[MADE_TWO, LISTED, A_AND_C_ON_A, DROPPED_TWO],
    ),
    // The folder fails where the first packet is kept.
    (
        Scene { calls: &[5], ..RUN },
        (4, NOTHING, SHELF_FAULT),
        &[MADE, RAN, DROPPED],
    ),
    // The run is kept, and its report is not printed.
    (
        Scene {
            writes: &[0],
            ..RUN
        },
        (4, NOTHING, b"testr: fault writing output\n"),
        &[MADE, RAN, DROPPED],
    ),
];

#[test]
fn instances_are_disposed_of_behind_every_refusal(rt: HostRuntime) -> Result<(), Fail> {
    for (number, row) in REFUSALS.iter().enumerate() {
        assert!(rt; is_so(&rt, row)?, "row {number}");
    }
    Ok(())
}

// A listing on two instances.
const LISTING: Scene<'static> = Scene {
    words: &["testr", "run", "--parallel", "--concurrency=2"],
    outputs: &[
        (b"b a\n", ENDED),
        (NOTHING, Finish::ReadFault),
        (NOTHING, ENDED),
    ],
    ..RUN
};

const LISTINGS: [Row<'static>; 3] = [
    (
        LISTING,
        (4, NOTHING, NOT_READ),
        &[MADE_TWO, LISTED, DROPPED_TWO],
    ),
    // It is not started.
    (
        Scene {
            outputs: &[(b"b a\n", ENDED), (NOTHING, ENDED)],
            starts: &[1],
            ..LISTING
        },
        (4, NOTHING, NO_START),
        &[MADE_TWO, DROPPED_TWO],
    ),
    // Its ids are not printed.
    (
        Scene {
            words: &["testr", "list-tests"],
            outputs: &[(b"a\n", ENDED), (A_B_AND_C, ENDED), (NOTHING, ENDED)],
            writes: &[0],
            ..LISTING
        },
        (4, NOTHING, b"testr: fault writing output\n"),
        &[MADE, LISTED, DROPPED],
    ),
];

#[test]
fn instances_are_disposed_of_behind_a_failed_listing(rt: HostRuntime) -> Result<(), Fail> {
    for (number, row) in LISTINGS.iter().enumerate() {
        assert!(rt; is_so(&rt, row)?, "row {number}");
    }
    Ok(())
}

const IN_FRONT: [Row<'static>; 7] = [
    (
        Scene { reads: &[0], ..RUN },
        (4, NOTHING, b"testr: fault reading a file\n"),
        &[],
    ),
    // The number of workers is not told.
    (
        Scene {
            words: &["testr", "run", "--parallel"],
            files: COUNTED,
            outputs: &[(b"x\n", ENDED)],
            ..RUN
        },
        (
            3,
            NOTHING,
            b"x\ntestr: test_run_concurrency gave no number\n",
        ),
        &[COUNT],
    ),
    // It is asked for once, in front of the provisioning.
    (
        Scene {
            words: &["testr", "run", "--parallel"],
            files: COUNTED,
            outputs: &[
                (b"2\n", ENDED),
                (b"a b\n", ENDED),
                (NOTHING, Finish::Exit(2)),
                (NOTHING, ENDED),
            ],
            ..RUN
        },
        (3, NOTHING, b"testr: listing ended with 2\n"),
        &[COUNT, MADE_TWO, LISTED, DROPPED_TWO],
    ),
    // Without such a command it is that of the processors.
    (
        Scene {
            words: &["testr", "run", "--parallel"],
            files: TWO_PROCESSORS,
            outputs: &[
                (b"a b\n", ENDED),
                (NOTHING, Finish::Exit(2)),
                (NOTHING, ENDED),
            ],
            ..RUN
        },
        (3, NOTHING, b"testr: listing ended with 2\n"),
        &[MADE_TWO, LISTED, DROPPED_TWO],
    ),
    // The line on the number of workers comes before it, and a repository that is asked for.
    (
        Scene {
            words: &["testr", "run", "--parallel", "--concurrency=65"],
            outputs: &[(NOTHING, Finish::Exit(1))],
            ..RUN
        },
        (
            3,
            NOTHING,
            b"testr: --concurrency: 64 workers at most\ntestr: provisioning ended with 1\n",
        ),
        &[[b"make 64", NOTHING, NOTHING]],
    ),
    (
        Scene {
            words: &["testr", "run", "--force-init"],
            runs: &[],
            calls: &[0],
            ..RUN
        },
        (4, NOTHING, SHELF_FAULT),
        &[],
    ),
    // A listing asks for one instance.
    (
        Scene {
            words: &["testr", "list-tests"],
            files: COUNTED,
            runs: &[],
            outputs: &[(b"a\n", ENDED), (A_B_AND_C, ENDED), (NOTHING, ENDED)],
            ..RUN
        },
        (0, b"a\nb\nc\n", NOTHING),
        &[MADE, LISTED, DROPPED],
    ),
];

#[test]
fn what_is_found_out_in_front_is_refused_before_an_instance_is_made(
    rt: HostRuntime,
) -> Result<(), Fail> {
    for (number, row) in IN_FRONT.iter().enumerate() {
        assert!(rt; is_so(&rt, row)?, "row {number}");
    }
    Ok(())
}

// The end of the instances is not well.
const ENDS: [Row<'static>; 4] = [
    (
        Scene {
            outputs: &[(b"a\n", ENDED), (FOO, ENDED), (NOTHING, Finish::Exit(2))],
            ..RUN
        },
        (0, PASSED_AS_0, b"testr: disposing ended with 2\n"),
        &[MADE, RAN, DROPPED],
    ),
    (
        Scene {
            starts: &[2],
            ..RUN
        },
        (0, PASSED_AS_0, NO_START),
        &[MADE, RAN],
    ),
    (
        Scene {
            outputs: &[(b"a\n", ENDED), (FOO, ENDED), (NOTHING, Finish::Exit(-9))],
            ..RUN
        },
        (0, PASSED_AS_0, b"testr: disposing ended with -9\n"),
        &[MADE, RAN, DROPPED],
    ),
    // Its line stands behind that of the refusal.
    (
        Scene {
            words: &["testr", "run", "(p"],
            outputs: &[(b"a\n", ENDED), (NOTHING, Finish::WaitFault)],
            ..RUN
        },
        (
            3,
            NOTHING,
            b"testr: bad pattern: (p\ntestr: fault reading a program\n",
        ),
        &[MADE, DROPPED],
    ),
];

#[test]
fn an_end_of_instances_that_is_not_well_is_a_line(rt: HostRuntime) -> Result<(), Fail> {
    for (number, row) in ENDS.iter().enumerate() {
        assert!(rt; is_so(&rt, row)?, "row {number}");
    }
    Ok(())
}

// And the run stays.
fn keeps_the_run<R: Threads + Wait + Sync + AllocGlobal>(rt: &R) -> Result<bool, Fail> {
    let scene = Scene {
        outputs: &[(b"a\n", ENDED), (FOO, ENDED), (NOTHING, Finish::Exit(2))],
        ..RUN
    };
    let mut played = play(rt, &scene)?;
    has_file(&mut played.shelf, "0", FOO_KEPT)
}

#[test]
fn an_end_of_instances_that_is_not_well_leaves_the_run(rt: HostRuntime) -> Result<(), Fail> {
    assert!(rt; keeps_the_run(&rt)?);
    Ok(())
}

const FOUR: Scene<'static> = Scene {
    words: &["testr", "run", "--parallel", "--concurrency=4"],
    outputs: &[
        (b"c a b a\n", ENDED),
        (A_B_AND_C, ENDED),
        (FOO, ENDED),
        (NOTHING, ENDED),
        (NOTHING, ENDED),
        (NOTHING, ENDED),
    ],
    ..RUN
};

const OF_FOUR: [Parts<'static>; 6] = [
    [b"make 4", NOTHING, NOTHING],
    LISTED,
    [b"on a run  -i .testr-ids.0", b".testr-ids.0", b"a\n"],
    [b"on b run  -i .testr-ids.1", b".testr-ids.1", b"b\n"],
    [b"on c run  -i .testr-ids.2", b".testr-ids.2", b"c\n"],
    [b"drop a b c", NOTHING, NOTHING],
];

// Whether three instances serve four workers, each lane on its own, in the order of their bytes.
fn three_serve_four<R: Threads + Wait + Sync + AllocGlobal>(rt: &R) -> Result<bool, Fail> {
    let played = play(rt, &FOUR)?;
    Ok(has_started(&played.project, &OF_FOUR))
}

#[test]
fn three_instances_serve_four_workers(rt: HostRuntime) -> Result<(), Fail> {
    assert!(rt; three_serve_four(&rt)?);
    Ok(())
}

const WORDS: [Row<'static>; 10] = [
    (
        Scene {
            words: &["testr", "run", "-q"],
            ..RUN
        },
        (0, NOTHING, NOTHING),
        &[MADE, RAN, DROPPED],
    ),
    (
        Scene {
            words: &["testr", "run", "--subunit"],
            ..RUN
        },
        (0, FOO_KEPT, NOTHING),
        &[MADE, RAN, DROPPED],
    ),
    // One instance serves four workers, so nothing is listed.
    (
        Scene {
            words: &["testr", "run", "--parallel", "--concurrency=4"],
            ..RUN
        },
        (0, PASSED_AS_0, NOTHING),
        &[[b"make 4", NOTHING, NOTHING], RAN, DROPPED],
    ),
    // No test failed, so none is run. The instance was made before that is known.
    (
        Scene {
            words: &["testr", "run", "--failing"],
            outputs: &[(b"a\n", ENDED), (NOTHING, ENDED)],
            ..RUN
        },
        (0, b"Ran 0 tests\nPASSED (id=0)\n", NOTHING),
        &[MADE, DROPPED],
    ),
    // Of `a`, `b` and `c` the second shard has `b`.
    (
        Scene {
            words: &["testr", "run", "--shard=2/2"],
            outputs: &[
                (b"a\n", ENDED),
                (A_B_AND_C, ENDED),
                (B_PASSED, ENDED),
                (NOTHING, ENDED),
            ],
            ..RUN
        },
        (0, PASSED_AS_0, NOTHING),
        &[
            MADE,
            LISTED,
            [b"on a run  -i .testr-ids.0", b".testr-ids.0", b"b\n"],
            DROPPED,
        ],
    ),
    // A probe is on the first instance, too.
    (
        Scene {
            words: &["testr", "run", "--find-causes"],
            outputs: &[
                (b"a\n", ENDED),
                (A_AND_C_FAILED, ENDED),
                (C_FAILED, ENDED),
                (NOTHING, ENDED),
            ],
            ..RUN
        },
        (1, C_FAILS_ALONE, NOTHING),
        &[
            MADE,
            RAN,
            [b"on a run  -i .testr-ids.0", b".testr-ids.0", b"c\n"],
            DROPPED,
        ],
    ),
    // Its live lines stand in front of the line on the end of the instances.
    (
        Scene {
            words: &["testr", "run", "-q", "--live=tests"],
            outputs: &[(b"a\n", ENDED), (FOO, ENDED), (NOTHING, Finish::Exit(2))],
            ..RUN
        },
        (
            0,
            NOTHING,
            b"{0} foo ... ok\ntestr: disposing ended with 2\n",
        ),
        &[MADE, RAN, DROPPED],
    ),
    // By the other name the same file says so, where there is no `.stestr.conf`.
    (
        Scene {
            words: &["stestr", "list"],
            outputs: &[(b"a\n", ENDED), (A_B_AND_C, ENDED), (NOTHING, ENDED)],
            ..RUN
        },
        (0, b"a\nb\nc\n", NOTHING),
        &[MADE, LISTED, DROPPED],
    ),
    // Where there is one, it says how the tests are listed, which are listed here.
    (
        Scene {
            words: &["stestr", "list"],
            files: BESIDE_STESTR,
            outputs: &[(A_B_AND_C, ENDED)],
            ..RUN
        },
        (0, b"a\nb\nc\n", NOTHING),
        &[[
            b"${PYTHON:-python3} -m stestr.subunit_runner.run discover -t \".\" \"./tests\" --list ",
            NOTHING,
            NOTHING,
        ]],
    ),
    (
        Scene {
            words: &["testr", "list-tests"],
            files: BESIDE_STESTR,
            outputs: &[(b"a\n", ENDED), (A_B_AND_C, ENDED), (NOTHING, ENDED)],
            ..RUN
        },
        (0, b"a\nb\nc\n", NOTHING),
        &[MADE, LISTED, DROPPED],
    ),
];

#[test]
fn all_that_words_ask_for_is_done_on_instances(rt: HostRuntime) -> Result<(), Fail> {
    for (number, row) in WORDS.iter().enumerate() {
        assert!(rt; is_so(&rt, row)?, "row {number}");
    }
    Ok(())
}

// Whether two of three instances serve two workers, and all three are disposed of.
fn three_serve_two<R: Threads + Wait + Sync + AllocGlobal>(rt: &R) -> Result<bool, Fail> {
    let scene = Scene {
        words: &["testr", "run", "--parallel", "--concurrency=2"],
        ..FOUR
    };
    let played = play(rt, &scene)?;
    let jobs = [
        MADE_TWO,
        LISTED,
        A_AND_C_ON_A,
        [
            b"on b run  -i .testr-ids.1".as_slice(),
            b".testr-ids.1".as_slice(),
            b"b\n".as_slice(),
        ],
        [b"drop a b c".as_slice(), NOTHING, NOTHING],
    ];
    Ok(has_started(&played.project, &jobs))
}

#[test]
fn three_instances_serve_two_workers(rt: HostRuntime) -> Result<(), Fail> {
    assert!(rt; three_serve_two(&rt)?);
    Ok(())
}

// Whether a repository is made though no instances are.
fn makes_a_repository<R: Threads + Wait + Sync + AllocGlobal>(rt: &R) -> Result<bool, Fail> {
    let scene = Scene {
        words: &["testr", "run", "--force-init"],
        runs: &[],
        outputs: &[(NOTHING, Finish::Exit(1))],
        ..RUN
    };
    let mut played = play(rt, &scene)?;
    has_file(&mut played.shelf, "format", b"subunit-store 1\n")
}

#[test]
fn a_repository_is_made_in_front_of_instances(rt: HostRuntime) -> Result<(), Fail> {
    assert!(rt; makes_a_repository(&rt)?);
    Ok(())
}
