//! Filters over an outside that fails.

use crate::scripts::{QUIET, Script};
use crate::trying::first_wrong;
use std::test::Fail;
use trial_calls::FOO;

// A filter without an input, which leaves the folder as it is. It may write before all is read.
const FILTER: Script<'static> = Script {
    early: true,
    ..QUIET
};

// `foo` passed, a line of a log, and `foo` failed; and what is left of it without the first.
const PASSED_AND_FAILED: &[u8] =
    b"\xb3\x29\x03\x0c\x03foo\x45\x9d\xfe\x10x\n\xb3\x29\x06\x0c\x03foo\x15\x50\x6f\xa3";

const LOG_AND_FAILED: &[u8] = b"x\n\xb3\x29\x06\x0c\x03foo\x15\x50\x6f\xa3";

// `foo` with the tag `bar` passed, and the same with the tag `foo`.
const WITH_BAR: &[u8] = b"\xb3\x29\x83\x11\x03foo\x01\x03bar\xbb\x64\x7d\xc9";

const WITH_FOO: &[u8] = b"\xb3\x29\x83\x11\x03foo\x01\x03foo\x41\xe8\x94\x42";

// `a` is known to exist, a line of a log, and `b` failed.
const LOGGED: &[u8] =
    b"\xb3\x29\x01\x0a\x01a\x77\xc8\x0f\x31x\n\xb3\x29\x06\x0a\x01b\x73\x16\x66\x32";

// `t1` with the tag `b` passed, `t2` with the tag `a` failed, `t3` was skipped.
const TAGGED: &[u8] =
    b"\xb3\x29\x83\x0e\x02t1\x01\x01b\x97\xfa\xb6\x12\xb3\x29\x86\x0e\x02t2\x01\x01a\x54\xa6\x46\x22\xb3\x29\x05\x0b\x02t3\x44\xb4\xdf\x46";

const TAGGED_TEXT: &[u8] =
    b"Total tests:       3\nPassed tests:      1\nFailed tests:      1\nSkipped tests:     1\nSeen tags: a, b\n";

// `test 1 - a` passed.
const TAP_PACKET: &[u8] = b"\xb3\x29\x03\x13\x0atest 1 - at\x8a\xac\x89";

// `a` began, and passed.
const A_RAN: &[u8] = b"\xb3\x29\x02\x0a\x01a\x65\x7d\xa0\xdf\xb3\x29\x03\x0a\x01a\xdd\xc1\xc7\xba";

const A_LINES: &[u8] = b"test: a\nsuccess: a\n";

// `a,b` passed and `c` failed, without times.
const COMMA: &[u8] =
    b"\xb3\x29\x03\x0c\x03a,b\xe5\x37\x88\xee\xb3\x29\x06\x0a\x01c\x04\x11\x56\xa4";

const COMMA_TEXT: &[u8] = b"test,status,start_time,stop_time\n\"a,b\",success,,\nc,fail,,\n";

const COMMA_DOCUMENT: &[u8] =
    b"<?xml version=\"1.0\" encoding=\"utf-8\"?>\n<testsuite name=\"\" tests=\"2\" failures=\"1\" errors=\"0\" skipped=\"0\" time=\"0.000\">\n<testcase classname=\"\" name=\"a,b\" time=\"0.000\">\n</testcase>\n<testcase classname=\"\" name=\"c\" time=\"0.000\">\n<failure type=\"fail\"></failure>\n</testcase>\n</testsuite>\n";

// A file `stdin` of the byte `x`, and its end.
const X_AND_END: &[u8] =
    b"\xb3\x21\x40\x10\x05stdin\x01x\x27\x0e\x94\xd9\xb3\x21\x10\x08\x53\x15\x88\xdc";

// The text of a test is written once its packet, or its line, has been read; or all stands at the end. An input is read five bytes
// at a time, and then its end. Of the last one it stays unread, and the file is read at once, and then its end.
const FILTERS: [Script<'static>; 6] = [
    // The line of the log ends where the packet behind it does.
    Script {
        words: &["subunit-filter"],
        input: PASSED_AND_FAILED,
        out: LOG_AND_FAILED,
        input_read: 7,
        ..FILTER
    },
    Script {
        words: &["subunit-tags", "foo", "-bar"],
        input: WITH_BAR,
        out: WITH_FOO,
        input_read: 5,
        ..FILTER
    },
    Script {
        words: &["subunit-ls"],
        input: LOGGED,
        status: 1,
        out: b"x\nb\n",
        input_read: 6,
        ..FILTER
    },
    Script {
        words: &["subunit-stats"],
        input: TAGGED,
        status: 1,
        out: TAGGED_TEXT,
        input_read: 9,
        ..FILTER
    },
    // A mark for the test, and at the end its line ends.
    Script {
        words: &["subunit-trace", "--live=dots", "--no-summary"],
        input: FOO,
        out: b".\n",
        input_read: 4,
        written: 2,
        ..FILTER
    },
    Script {
        words: &["subunit-filter", "log"],
        files: &[(b"log", PASSED_AND_FAILED)],
        input: b"x",
        out: LOG_AND_FAILED,
        files_read: 2,
        ..FILTER
    },
];

// Those that read or write another format, or make events of words. Of the last one the input stays unread.
const CONVERSIONS: [Script<'static>; 8] = [
    // A comment may still come, so the test stands at the end.
    Script {
        words: &["tap2subunit"],
        input: b"1..1\nok 1 - a\n",
        out: TAP_PACKET,
        input_read: 4,
        ..FILTER
    },
    // The plan stands at the end.
    Script {
        words: &["subunit2tap"],
        input: FOO,
        out: b"ok 1 foo\n1..1\n",
        input_read: 4,
        written: 2,
        ..FILTER
    },
    Script {
        words: &["subunit-1to2"],
        input: A_LINES,
        out: A_RAN,
        input_read: 5,
        written: 2,
        ..FILTER
    },
    Script {
        words: &["subunit-2to1"],
        input: A_RAN,
        out: A_LINES,
        input_read: 5,
        ..FILTER
    },
    // The heading, and a record for each test.
    Script {
        words: &["subunit2csv"],
        input: COMMA,
        out: COMMA_TEXT,
        input_read: 6,
        written: 3,
        ..FILTER
    },
    Script {
        words: &["subunit2junitxml"],
        input: COMMA,
        status: 1,
        out: COMMA_DOCUMENT,
        input_read: 6,
        ..FILTER
    },
    Script {
        words: &["subunit-output", "--attach-file=-"],
        input: b"x",
        out: X_AND_END,
        input_read: 2,
        ..FILTER
    },
    Script {
        words: &["subunit-output", "--success=foo"],
        input: b"x",
        out: FOO,
        ..FILTER
    },
];

#[test]
fn each_call_of_a_filter_may_fail(rt: HostRuntime) -> Result<(), Fail> {
    assert_eq!(rt; first_wrong(&rt, &FILTERS)?, None);
    Ok(())
}

#[test]
fn each_call_of_a_conversion_may_fail(rt: HostRuntime) -> Result<(), Fail> {
    assert_eq!(rt; first_wrong(&rt, &CONVERSIONS)?, None);
    Ok(())
}
