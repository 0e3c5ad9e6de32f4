//! `testr list-tests` over programs in memory, and what is said of a configuration.

use crate::configured::{CONF, ENDED, LISTED, project_beside};
use edge_io::{Finish, MemShelf, Shelf};
use std::sync::Wait;
use std::test::Fail;
use std::thread::Threads;
use trial_calls::{NOTHING, call_in, has_started, project_of, repository, shows};

// The tests `a` and `b`, and `a` once more, are there.
const A_B_A: &[u8] =
    b"\xb3\x29\x01\n\x01aw\xc8\x0f1\xb3\x29\x01\n\x01b\xee\xc1\x5e\x8b\xb3\x29\x01\n\x01aw\xc8\x0f1";

const BAD_GROUPS: &[u8] =
    b"[DEFAULT]\ntest_command=run $LISTOPT\ntest_list_option=--list\ngroup_regex=(\n";

// A listing: the configuration, the words, and what it tells.
type Listing<'a> = (&'a [u8], &'a [&'a str], (u8, &'a [u8], &'a [u8]));

const LIST: &[&str] = &["testr", "list-tests"];

// Whether the listing tells this, by a program that ends so, or by none where it does not start.
fn lists<R: Threads + Wait + Sync + AllocGlobal>(
    rt: &R,
    shelf: &mut MemShelf,
    listing: Listing,
    finish: Finish,
    jobs: &[[&[u8]; 3]],
) -> Result<bool, Fail> {
    let (conf, words, wanted) = listing;
    let mut project = project_of(rt.alloc(), conf, &[(A_B_A, finish)], &[], &[])?;
    Ok(shows(rt, words, shelf, &mut project, wanted)? && has_started(&project, jobs))
}

const PRINTED: [(&[u8], &[&str], &[u8]); 9] = [
    (CONF, LIST, b"a\nb\n"),
    (BAD_GROUPS, LIST, b"a\nb\n"),
    (CONF, &["testr", "list-tests", "^b", "c"], b"b\n"),
    (CONF, &["testr", "list-tests", "ab"], NOTHING),
    (CONF, &["testr", "list-tests", "--exclude-regex=^b"], b"a\n"),
    (CONF, &["testr", "list-tests", "--shard=1/2"], b"a\n"),
    (CONF, &["testr", "list-tests", "--shard", "2/2"], b"b\n"),
    (CONF, &["testr", "list-tests", "--shard=1/2", "b"], b"b\n"),
    (
        CONF,
        &[
            "testr",
            "list-tests",
            "--exclude-regex",
            "b",
            "a",
            "--exclude-regex=^a",
        ],
        NOTHING,
    ),
];

// Whether the listing prints this, where there is no repository, and makes none.
fn prints<R: Threads + Wait + Sync + AllocGlobal>(
    rt: &R,
    conf: &[u8],
    words: &[&str],
    text: &[u8],
) -> Result<bool, Fail> {
    let mut shelf = MemShelf::new(rt.alloc(), Vec::new(rt.alloc()));
    let listing = (conf, words, (0, text, NOTHING));
    Ok(lists(rt, &mut shelf, listing, ENDED, &[LISTED])? && shelf.length("format")?.is_none())
}

#[test]
fn the_listed_tests_are_printed_once(rt: HostRuntime) -> Result<(), Fail> {
    for (row, (conf, words, text)) in PRINTED.iter().enumerate() {
        assert!(rt; prints(&rt, conf, words, text)?, "row {row}");
    }
    Ok(())
}

const LOOK_AROUND: &[u8] =
    b"testr: l line 3: bad pattern: (?!b)\ntestr: look-around is not known; --exclude-regex leaves tests out\n";

// A list of patterns, the words, and the status, what is printed and what is told.
const BY_LISTS: [(&[u8], &[&str], (u8, &[u8], &[u8])); 7] = [
    (
        b"# b\n ^b # last\n",
        &["testr", "list-tests", "--include-list=l"],
        (0, b"b\n", NOTHING),
    ),
    (
        b"^b#\n",
        &["testr", "list-tests", "--exclude-list", "l"],
        (0, b"a\n", NOTHING),
    ),
    (
        b"^b",
        &["testr", "list-tests", "--include-list=l", "a"],
        (0, b"a\nb\n", NOTHING),
    ),
    (
        b"#\n",
        &["testr", "list-tests", "--include-list=l"],
        (0, b"a\nb\n", NOTHING),
    ),
    (
        b"^b",
        &[
            "testr",
            "list-tests",
            "--include-list=l",
            "--exclude-list=n",
            "--exclude-list=l",
        ],
        (0, NOTHING, NOTHING),
    ),
    (
        b"# b\n\n(?!b)",
        &["testr", "list-tests", "--exclude-list=l"],
        (3, NOTHING, LOOK_AROUND),
    ),
    (
        b"a\n\xff\n(\n",
        &[
            "testr",
            "list-tests",
            "--exclude-list=n",
            "--include-list=l",
        ],
        (3, NOTHING, b"testr: l line 2: not an id\n"),
    ),
];

// A file of times, the words, and the status, what is printed and what is told.
const BY_TIMES: [(&[u8], &[&str], (u8, &[u8], &[u8])); 5] = [
    (
        b"subunit-times 1\n0\na\x001\x00b\x002\x00",
        &["testr", "list-tests", "--shard=1/2", "--times=l"],
        (0, b"b\n", NOTHING),
    ),
    (
        b"subunit-times 1\n0\n",
        &[
            "testr",
            "list-tests",
            "--times=n",
            "--shard=1/2",
            "--times",
            "l",
        ],
        (0, b"a\n", NOTHING),
    ),
    (
        b"subunit-times 1\n0\nb\x001\x00a\x002\x00",
        &["testr", "list-tests", "--shard=1/2", "--times=l"],
        (3, NOTHING, b"testr: l is no times\n"),
    ),
    // The lists of patterns are read before the times.
    (
        b"(",
        &[
            "testr",
            "list-tests",
            "--shard=1/2",
            "--times=n",
            "--exclude-list=l",
        ],
        (3, NOTHING, b"testr: l line 1: bad pattern: (\n"),
    ),
    (
        NOTHING,
        &["testr", "list-tests", "--shard=1/2", "--times=n"],
        (3, NOTHING, b"testr: no file n\n"),
    ),
];

#[test]
fn the_shards_of_a_listing_go_by_the_times_of_a_file(rt: HostRuntime) -> Result<(), Fail> {
    for (row, (file, words, wanted)) in BY_TIMES.iter().enumerate() {
        assert!(rt; lists_by(&rt, file, words, *wanted)?, "row {row}");
    }
    Ok(())
}

fn lists_by<R: Threads + Wait + Sync + AllocGlobal>(
    rt: &R,
    list: &[u8],
    words: &[&str],
    wanted: (u8, &[u8], &[u8]),
) -> Result<bool, Fail> {
    let mut project = project_beside(rt.alloc(), CONF, &[(A_B_A, ENDED)], b"l", list)?;
    let mut shelf = MemShelf::new(rt.alloc(), Vec::new(rt.alloc()));
    shows(rt, words, &mut shelf, &mut project, wanted)
}

#[test]
fn lists_of_patterns_choose_from_the_listing(rt: HostRuntime) -> Result<(), Fail> {
    for (row, (list, words, wanted)) in BY_LISTS.iter().enumerate() {
        assert!(rt; lists_by(&rt, list, words, *wanted)?, "row {row}");
    }
    Ok(())
}

const OTHER_ENDS: [(Finish, u8, &[u8]); 4] = [
    (Finish::Exit(3), 3, b"testr: listing ended with 3\n"),
    (Finish::Exit(-9), 3, b"testr: listing ended with -9\n"),
    (Finish::ReadFault, 4, b"testr: fault reading a program\n"),
    (Finish::WaitFault, 4, b"testr: fault reading a program\n"),
];

// A module could not be imported: the file `import errors`, and then a packet of a test and foreign bytes.
const BROKEN: &[u8] =
    b"\xb3 `@\x85\x17text/plain;charset=utf8\x0dimport errors@TFailed to import test module: test_b\nModuleNotFoundError: No module named 'nothere'\n\x0b\xda[\xec\xb3\x29\x01\n\x01aw\xc8\x0f1bye";

const BROKEN_TOLD: &[u8] =
    b"--- import errors ---\nFailed to import test module: test_b\nModuleNotFoundError: No module named 'nothere'\nbye\ntestr: listing ended with 2\n";

// Whether these words tell why the import failed, and no more.
fn tells_why<R: Threads + Wait + Sync + AllocGlobal>(rt: &R, words: &[&str]) -> Result<bool, Fail> {
    let mut shelf = repository(rt.alloc(), &[])?;
    let mut project = project_of(rt.alloc(), CONF, &[(BROKEN, Finish::Exit(2))], &[], &[])?;
    shows(
        rt,
        words,
        &mut shelf,
        &mut project,
        (3, NOTHING, BROKEN_TOLD),
    )
}

#[test]
fn a_listing_that_failed_says_why(rt: HostRuntime) -> Result<(), Fail> {
    assert!(rt; tells_why(&rt, LIST)?);
    assert!(rt; tells_why(&rt, &["testr", "run", "a"])?);
    Ok(())
}

#[test]
fn a_listing_may_end_otherwise(rt: HostRuntime) -> Result<(), Fail> {
    for (finish, status, line) in &OTHER_ENDS {
        let mut shelf = MemShelf::new(rt.alloc(), Vec::new(rt.alloc()));
        let listing = (CONF, LIST, (*status, NOTHING, *line));
        assert!(rt; lists(&rt, &mut shelf, listing, *finish, &[LISTED])?);
    }
    Ok(())
}

#[test]
fn a_listing_that_is_not_written_is_a_fault(rt: HostRuntime) -> Result<(), Fail> {
    let mut project = project_of(rt.alloc(), CONF, &[(A_B_A, ENDED)], &[], &[])?;
    let mut shelf = MemShelf::new(rt.alloc(), Vec::new(rt.alloc()));
    let told = call_in(&rt, LIST, &mut shelf, &mut project, &[0])?;
    assert!(rt; told.is(4, NOTHING, b"testr: fault writing output\n"));
    Ok(())
}

const NO_COMMAND: &[u8] = b"testr: .testr.conf: no test_command\n";

const NO_LIST_OPTION: &[u8] = b"testr: .testr.conf: test_list_option is needed\n";

const REFUSED: [(&[u8], &[u8]); 7] = [
    (b"x=1\n", b"testr: .testr.conf line 1: outside a section\n"),
    (
        b"[DEFAULT]\n  y\n",
        b"testr: .testr.conf line 2: not a setting\n",
    ),
    (
        b"[DEFAULT]\ntest_command=a\ntest_command=b\n",
        b"testr: .testr.conf line 3: repeated\n",
    ),
    (b"", NO_COMMAND),
    (b"[DEFAULT]\ntest_command=\n", NO_COMMAND),
    (b"[DEFAULT]\ntest_command=run $LISTOPT\n", NO_LIST_OPTION),
    (
        b"[DEFAULT]\ntest_command=run\ntest_list_option=--list\n",
        NO_LIST_OPTION,
    ),
];

#[test]
fn each_refusal_of_a_configuration_has_its_line(rt: HostRuntime) -> Result<(), Fail> {
    for (row, (conf, line)) in REFUSED.iter().enumerate() {
        let mut shelf = MemShelf::new(rt.alloc(), Vec::new(rt.alloc()));
        let listing = (*conf, LIST, (3, NOTHING, *line));
        assert!(rt; lists(&rt, &mut shelf, listing, ENDED, &[])?, "row {row}");
    }
    Ok(())
}

// Configurations whose listing does not start, patterns, and the status and the line.
const NOT_STARTED: [(&[u8], &str, u8, &[u8]); 5] = [
    (
        b"[DEFAULT]\ntest_command=run\n",
        "(",
        3,
        b"testr: bad pattern: (\n",
    ),
    (
        CONF,
        "--exclude-regex=a(?<=b)",
        3,
        b"testr: bad pattern: a(?<=b)\ntestr: look-around is not known; --exclude-regex leaves tests out\n",
    ),
    (CONF, "--exclude-list=n", 3, b"testr: no file n\n"),
    (BAD_GROUPS, "--shard=1/2", 3, b"testr: bad pattern: (\n"),
    (CONF, "a", 4, b"testr: fault starting a program\n"),
];

// Whether this is told where the start fails, and nothing is started.
fn starts_none<R: Threads + Wait + Sync + AllocGlobal>(
    rt: &R,
    conf: &[u8],
    pattern: &str,
    wanted: (u8, &[u8], &[u8]),
) -> Result<bool, Fail> {
    let mut project = project_of(rt.alloc(), conf, &[(A_B_A, ENDED)], &[], &[0])?;
    let mut shelf = MemShelf::new(rt.alloc(), Vec::new(rt.alloc()));
    let words = ["testr", "list-tests", pattern];
    Ok(shows(rt, &words, &mut shelf, &mut project, wanted)? && has_started(&project, &[]))
}

#[test]
fn a_pattern_is_read_before_the_listing_is_started(rt: HostRuntime) -> Result<(), Fail> {
    for (conf, pattern, status, line) in &NOT_STARTED {
        let wanted = (*status, NOTHING, *line);
        assert!(rt; starts_none(&rt, conf, pattern, wanted)?);
    }
    Ok(())
}
