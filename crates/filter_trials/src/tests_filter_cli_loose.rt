//! Output of no test, over streams in memory.

use crate::calls::{Done, does};

// `a` is known to exist, an event without an id has the file `stdout` of a line of a log, and `b` failed.
const STORED: &[u8] =
    b"\xb3\x29\x01\x0a\x01a\x77\xc8\x0f\x31\xb3\x21\x40\x12\x06stdout\x02x\n\x96\xc7\xfc\x7e\xb3\x29\x06\x0a\x01b\x73\x16\x66\x32";

// The same with a line between its packets, and that without output of no test.
const BOTH_WAYS: &[u8] =
    b"\xb3\x29\x01\x0a\x01a\x77\xc8\x0f\x31\xb3\x21\x40\x12\x06stdout\x02x\n\x96\xc7\xfc\x7ey\n\xb3\x29\x06\x0a\x01b\x73\x16\x66\x32";

const TESTS_ALONE: &[u8] =
    b"\xb3\x29\x01\x0a\x01a\x77\xc8\x0f\x31\xb3\x29\x06\x0a\x01b\x73\x16\x66\x32";

// The line of a log under the route `0`, as a run has it.
const ROUTED: &[u8] = b"\xb3\x25\x40\x14\x06stdout\x02x\n\x010\x51\x35\xd5\x24";

// `foo` has the file `log` of the byte `y`, and passed.
const FILE_OF_FOO: &[u8] =
    b"\xb3\x29\x40\x12\x03foo\x03log\x01y\x03\x5f\x9b\x50\xb3\x29\x03\x0c\x03foo\x45\x9d\xfe\x10";

// An event with a tag, and neither an id nor a file.
const TAG_ALONE: &[u8] = b"\xb3\x21\x80\x0b\x01\x01k\xe4\x5f\x88\xe5";

const PRINTED: [Done; 9] = [
    (&["subunit-ls"], STORED, b"x\nb\n", 1),
    (&["subunit-ls", "--exists"], BOTH_WAYS, b"a\nx\ny\nb\n", 1),
    (&["subunit-ls", "--no-passthrough"], BOTH_WAYS, b"b\n", 1),
    (&["subunit-ls"], ROUTED, b"x\n", 0),
    (&["subunit-ls"], FILE_OF_FOO, b"foo\n", 0),
    (&["subunit-ls"], TAG_ALONE, b"", 0),
    (
        &["subunit-stats"],
        STORED,
        b"x\nTotal tests:       1\nPassed tests:      0\nFailed tests:      1\nSkipped tests:     0\nSeen tags: \n",
        1,
    ),
    (
        &["subunit-stats", "--no-passthrough"],
        BOTH_WAYS,
        b"Total tests:       1\nPassed tests:      0\nFailed tests:      1\nSkipped tests:     0\nSeen tags: \n",
        1,
    ),
    (
        &["subunit-stats"],
        FILE_OF_FOO,
        b"Total tests:       1\nPassed tests:      1\nFailed tests:      0\nSkipped tests:     0\nSeen tags: \n",
        0,
    ),
];

#[test]
fn files_of_no_test_are_printed_where_they_come(rt: HostRuntime) {
    for row in &PRINTED {
        assert!(rt; does(rt.alloc(), row));
    }
}

const LET_THROUGH: [Done; 5] = [
    (&["subunit-filter"], BOTH_WAYS, BOTH_WAYS, 0),
    (
        &["subunit-filter", "--no-passthrough"],
        BOTH_WAYS,
        TESTS_ALONE,
        0,
    ),
    (
        &["subunit-filter", "--only-genuine-failures"],
        BOTH_WAYS,
        TESTS_ALONE,
        0,
    ),
    (
        &["subunit-filter", "--success", "--no-passthrough"],
        FILE_OF_FOO,
        FILE_OF_FOO,
        0,
    ),
    // What has no file is no output.
    (
        &["subunit-filter", "--no-passthrough"],
        TAG_ALONE,
        TAG_ALONE,
        0,
    ),
];

#[test]
fn output_of_no_test_is_let_through_unless_it_is_hidden(rt: HostRuntime) {
    for row in &LET_THROUGH {
        assert!(rt; does(rt.alloc(), row));
    }
}
