//! `testr selftest`: its summaries and its words.

use edge_io::MemShelf;
use std::sync::Wait;
use std::test::Fail;
use std::thread::Threads;
use trial_calls::{CallOutcome, NOTHING, WRONG_USAGE, call_over, source};

// Calls the program over a folder of which no call succeeds, and an output that fails at these writes.
fn tested<R: Threads + Wait + Sync + AllocGlobal>(
    rt: &R,
    words: &[&str],
    writes: &[u64],
) -> Result<CallOutcome, Fail> {
    let alloc = rt.alloc();
    let mut shelf = MemShelf::new(alloc, [0u64, 1, 2].to_vec(alloc)?);
    let mut input = source(alloc, NOTHING, 1, &[0])?;
    call_over(rt, words, &mut shelf, &mut input, writes, &[])
}

// Whether this is told over an output that does not fail.
fn tests_itself<R: Threads + Wait + Sync + AllocGlobal>(
    rt: &R,
    words: &[&str],
    status: u8,
    out: &[u8],
    err: &[u8],
) -> Result<bool, Fail> {
    Ok(tested(rt, words, &[])?.is(status, out, err))
}

const OF_400: &[u8] = b"Ran 400 tests in 199.280s\nFAILED (id=0, failures=60, skips=40)\n";

const SUMMARIES: [([&str; 5], u8, &[u8]); 5] = [
    (
        ["testr", "selftest", "7", "2", "2"],
        0,
        b"Ran 4 tests in 2.912s\nPASSED (id=0, skips=1)\n",
    ),
    (["testr", "selftest", "7", "4", "100"], 1, OF_400),
    (["testr", "selftest", "7", "4", "100"], 1, OF_400),
    (
        ["testr", "selftest", "0", "64", "3"],
        1,
        b"Ran 192 tests in 93.772s\nFAILED (id=0, failures=28, skips=40)\n",
    ),
    (
        ["testr", "selftest", "999999999", "1", "1"],
        1,
        b"Ran 1 tests in 0.197s\nFAILED (id=0, failures=1)\n",
    ),
];

#[test]
fn made_up_workers_are_summed_up(rt: HostRuntime) -> Result<(), Fail> {
    for (row, (words, status, text)) in SUMMARIES.iter().enumerate() {
        assert!(rt;
            tests_itself(&rt, words, *status, text, NOTHING)?,
            "row {row}"
        );
    }
    Ok(())
}

const OTHER_WORDS: [&[&str]; 12] = [
    &["testr", "selftest"],
    &["testr", "selftest", "7", "2"],
    &["testr", "selftest", "7", "0", "1"],
    &["testr", "selftest", "7", "65", "1"],
    &["testr", "selftest", "7", "1", "0"],
    &["testr", "selftest", "7", "64", "15626"],
    &["testr", "selftest", "07", "2", "2"],
    &["testr", "selftest", "7", "2", "2", "2"],
    &["testr", "selftest", "x", "2", "2"],
    &["testr", "selftest", "4294967296", "1", "1"],
    &["testr", "selftest", "1000000000", "1", "1"],
    &["testr", "selftest", "7", "2", "2", "--partial"],
];

#[test]
fn other_words_than_three_fit_numbers_are_wrong_usage(rt: HostRuntime) -> Result<(), Fail> {
    for (row, words) in OTHER_WORDS.iter().enumerate() {
        assert!(rt;
            tests_itself(&rt, words, 2, NOTHING, WRONG_USAGE)?,
            "row {row}"
        );
    }
    Ok(())
}

#[test]
fn a_summary_that_is_not_written_is_a_fault(rt: HostRuntime) -> Result<(), Fail> {
    let told = tested(&rt, &["testr", "selftest", "7", "2", "2"], &[0])?;
    assert!(rt; told.is(4, NOTHING, b"testr: fault writing output\n"));
    Ok(())
}
