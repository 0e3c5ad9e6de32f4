//! Commands of `testr` over an outside that fails.

use crate::scripts::{A_AND_B, ENDED, Found, OF_TWO_RUNS, PROJECT, QUIET, RUN, Script};
use crate::trying::first_wrong;
use std::test::Fail;
use trial_calls::{FAIL, FAIL_KEPT, FOO, FOO_KEPT, NOTHING, PASSED_AS_0, PASSED_AS_1};

// Four calls look at the runs, one begins the run, one adds to it, and three keep it. Two read the times, and each cache takes
// five. The input is read five bytes at a time, and then its end.
const LOAD: Script<'static> = Script {
    words: &["testr", "load"],
    input: FOO,
    out: PASSED_AS_1,
    folder: 21,
    input_read: 4,
    named: 7,
    behind: OF_TWO_RUNS,
    kept: &[FOO_KEPT],
    ..QUIET
};

const FOO_FAILED: &[u8] =
    b"======================================================================\nFAIL: foo\n----------------------------------------------------------------------\nRan 1 tests\nFAILED (id=0, failures=1)\n";

// The first load: there are no caches yet, so that one call looks for that of the times.
const FIRST_LOAD: Script<'static> = Script {
    words: &["testr", "load"],
    found: Found::NoRun,
    input: FAIL,
    status: 1,
    out: FOO_FAILED,
    folder: 20,
    input_read: 4,
    named: 7,
    before: [(0, NOTHING, NOTHING), (0, PASSED_AS_0, NOTHING)],
    behind: [(1, b"foo\n", NOTHING), (0, PASSED_AS_1, NOTHING)],
    run: "0",
    kept: &[FAIL_KEPT],
    ..QUIET
};

// `foo` passed under lane 0, and under lane 1.
const FOO_KEPT_TWICE: &[u8] =
    b"\xb3\x2d\x03\x0e\x03foo\x01\x30\xa4\xaf\xdb\xe0\xb3\x2d\x03\x0e\x03foo\x01\x31\xd3\xa8\xeb\x76";

// Each file is read at once, and then its end; and each adds to the run.
const LOAD_OF_TWO: Script<'static> = Script {
    words: &["testr", "load", "x", "y"],
    files: &[(b"x", FOO), (b"y", FOO)],
    out: b"Ran 2 tests\nPASSED (id=1)\n",
    folder: 22,
    files_read: 4,
    named: 8,
    behind: OF_TWO_RUNS,
    kept: &[FOO_KEPT_TWICE],
    ..QUIET
};

const FOO_FAILED_IN_TIME: &[u8] =
    b"======================================================================\nFAIL: foo\n----------------------------------------------------------------------\nRan 1 tests in 1.500s\nFAILED (id=0, failures=1)\n";

const NO_STORE: &[u8] = b"testr: no repository here\n";

// The barrier, a look for the format, its draft, its bytes, their sync, its name, the barrier.
const INIT: Script<'static> = Script {
    words: &["testr", "init"],
    found: Found::Nothing,
    folder: 7,
    written: 0,
    named: 5,
    before: [(3, NOTHING, NO_STORE), (3, NOTHING, NO_STORE)],
    behind: [(0, NOTHING, NOTHING), (0, PASSED_AS_0, NOTHING)],
    ..QUIET
};

// The configuration is read twice, and its end each time. The folder is not called.
const LISTING: Script<'static> = Script {
    words: &["testr", "list-tests"],
    files: PROJECT,
    outputs: &[(A_AND_B, ENDED)],
    out: b"a\nb\n",
    files_read: 4,
    started: 1,
    ..QUIET
};

// The four questions begin as the others do: four calls look at the runs. Then the run is read at once, or the length and the bytes
// of a cache.
const COMMANDS: [Script<'static>; 10] = [
    RUN,
    LOAD,
    FIRST_LOAD,
    LOAD_OF_TWO,
    INIT,
    LISTING,
    Script {
        words: &["testr", "last"],
        status: 1,
        out: FOO_FAILED_IN_TIME,
        folder: 5,
        ..QUIET
    },
    Script {
        words: &["testr", "failing", "--list"],
        status: 1,
        out: b"foo\n",
        folder: 6,
        ..QUIET
    },
    Script {
        words: &["testr", "slowest"],
        out: b"     1.500  foo\n",
        folder: 5,
        ..QUIET
    },
    Script {
        words: &["testr", "stats"],
        out: b"runs=1\n",
        folder: 4,
        ..QUIET
    },
];

#[test]
fn each_call_of_a_command_may_fail_and_each_moment_be_the_last(
    rt: HostRuntime,
) -> Result<(), Fail> {
    assert_eq!(rt; first_wrong(&rt, &COMMANDS)?, None);
    Ok(())
}
