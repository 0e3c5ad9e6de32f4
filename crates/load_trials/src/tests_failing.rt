//! What the tests that fail by all runs are told of.

use crate::folders::of_format;
use edge_io::MemShelf;
use std::process::Abort;
use std::sync::Wait;
use std::test::Fail;
use std::thread::Threads;
use trial_calls::{NOTHING, call, put, source, tells_of};

const FORMAT: &[u8] = b"subunit-store 1\n";

const BASED: &[u8] = b"subunit-store 2\n";

// The test `a%`, a newline and `::b` failed with a text of two places, `b` failed with a text, and `d` passed.
const FULL: &[u8] =
    b"\xb3\x29\x66\x40\x54\x06\x61\x25\x0a\x3a\x3a\x62\x0a\x74\x65\x78\x74\x2f\x70\x6c\x61\x69\x6e\x09\x74\x72\x61\x63\x65\x62\x61\x63\x6b\x2e\x20\x20\x46\x69\x6c\x65\x20\x22\x78\x2e\x70\x79\x22\x2c\x20\x6c\x69\x6e\x65\x20\x33\x0a\x20\x20\x46\x69\x6c\x65\x20\x22\x79\x2c\x7a\x2e\x70\x79\x22\x2c\x20\x6c\x69\x6e\x65\x20\x34\x30\x9a\x7d\x21\x05\xb3\x29\x66\x24\x01\x62\x0a\x74\x65\x78\x74\x2f\x70\x6c\x61\x69\x6e\x09\x74\x72\x61\x63\x65\x62\x61\x63\x6b\x04\x6f\x6e\x65\x0a\x2d\xfc\x1f\x27\xb3\x29\x03\x0a\x01\x64\xad\xab\x33\x35";

// `b` failed with another text and passed then, `c` was left open, and `d` passed though it was to fail.
const PARTIAL: &[u8] =
    b"\xb3\x29\x66\x23\x01\x62\x0a\x74\x65\x78\x74\x2f\x70\x6c\x61\x69\x6e\x09\x74\x72\x61\x63\x65\x62\x61\x63\x6b\x03\x74\x77\x6f\x03\xe2\x1d\xae\xb3\x29\x03\x0a\x01\x62\x44\xc8\x96\x00\xb3\x29\x02\x0a\x01\x63\x8b\x73\xc1\xf3\xb3\x29\x04\x0a\x01\x64\x30\x7c\x0b\x8c";

// `b` passed.
const PASSED: &[u8] = b"\xb3\x29\x03\x0a\x01\x62\x44\xc8\x96\x00";

// A run from before, in which `foo` failed with a text.
const OLD: &[u8] =
    b"\xb3\x2d\x66\x27\x03\x66\x6f\x6f\x0a\x74\x65\x78\x74\x2f\x70\x6c\x61\x69\x6e\x09\x74\x72\x61\x63\x65\x62\x61\x63\x6b\x03\x6f\x6c\x64\x01\x30\xc3\x1c\xb9\x16";

const OF_FULL: &[u8] =
    b"======================================================================\nFAIL: a%\n::b\n----------------------------------------------------------------------\n  File \"x.py\", line 3\n  File \"y,z.py\", line 40\n======================================================================\nFAIL: b\n----------------------------------------------------------------------\none\nfailures=2\n";

const OF_BOTH: &[u8] =
    b"======================================================================\nFAIL: a%\n::b\n----------------------------------------------------------------------\n  File \"x.py\", line 3\n  File \"y,z.py\", line 40\n======================================================================\nFAIL: b\n----------------------------------------------------------------------\ntwo\n======================================================================\nUNFINISHED: c\n----------------------------------------------------------------------\n======================================================================\nUNEXPECTED SUCCESS: d\n----------------------------------------------------------------------\nfailures=4\n";

const OF_THREE: &[u8] =
    b"======================================================================\nFAIL: a%\n::b\n----------------------------------------------------------------------\n  File \"x.py\", line 3\n  File \"y,z.py\", line 40\n======================================================================\nUNFINISHED: c\n----------------------------------------------------------------------\n======================================================================\nUNEXPECTED SUCCESS: d\n----------------------------------------------------------------------\nfailures=3\n";

const OF_BASE: &[u8] =
    b"======================================================================\nFAIL: foo\n----------------------------------------------------------------------\nold\n======================================================================\nFAIL: gone\n----------------------------------------------------------------------\nfailures=2\n";

const OF_BASE_AND_RUN: &[u8] =
    b"======================================================================\nFAIL: b\n----------------------------------------------------------------------\ntwo\n======================================================================\nUNFINISHED: c\n----------------------------------------------------------------------\n======================================================================\nUNEXPECTED SUCCESS: d\n----------------------------------------------------------------------\n======================================================================\nFAIL: foo\n----------------------------------------------------------------------\nold\n======================================================================\nFAIL: gone\n----------------------------------------------------------------------\nfailures=5\n";

// The packets of the parts that failed last, each under the route of its run.
const PACKETS_OF_FULL: &[u8] =
    b"\xb3\x2d\x66\x40\x56\x06\x61\x25\x0a\x3a\x3a\x62\x0a\x74\x65\x78\x74\x2f\x70\x6c\x61\x69\x6e\x09\x74\x72\x61\x63\x65\x62\x61\x63\x6b\x2e\x20\x20\x46\x69\x6c\x65\x20\x22\x78\x2e\x70\x79\x22\x2c\x20\x6c\x69\x6e\x65\x20\x33\x0a\x20\x20\x46\x69\x6c\x65\x20\x22\x79\x2c\x7a\x2e\x70\x79\x22\x2c\x20\x6c\x69\x6e\x65\x20\x34\x30\x01\x30\x03\x44\x4c\xf2\xb3\x2d\x66\x26\x01\x62\x0a\x74\x65\x78\x74\x2f\x70\x6c\x61\x69\x6e\x09\x74\x72\x61\x63\x65\x62\x61\x63\x6b\x04\x6f\x6e\x65\x0a\x01\x30\xef\xd3\x13\x10";

const PACKETS_OF_BOTH: &[u8] =
    b"\xb3\x2d\x66\x40\x56\x06\x61\x25\x0a\x3a\x3a\x62\x0a\x74\x65\x78\x74\x2f\x70\x6c\x61\x69\x6e\x09\x74\x72\x61\x63\x65\x62\x61\x63\x6b\x2e\x20\x20\x46\x69\x6c\x65\x20\x22\x78\x2e\x70\x79\x22\x2c\x20\x6c\x69\x6e\x65\x20\x33\x0a\x20\x20\x46\x69\x6c\x65\x20\x22\x79\x2c\x7a\x2e\x70\x79\x22\x2c\x20\x6c\x69\x6e\x65\x20\x34\x30\x01\x30\x03\x44\x4c\xf2\xb3\x2d\x66\x25\x01\x62\x0a\x74\x65\x78\x74\x2f\x70\x6c\x61\x69\x6e\x09\x74\x72\x61\x63\x65\x62\x61\x63\x6b\x03\x74\x77\x6f\x01\x30\xd5\x51\xbd\x54\xb3\x2d\x02\x0c\x01\x63\x01\x30\xd6\xe6\x09\x8a\xb3\x2d\x04\x0c\x01\x64\x01\x30\x05\xf0\xfc\x12";

const PACKETS_OF_THREE: &[u8] =
    b"\xb3\x2d\x66\x40\x56\x06\x61\x25\x0a\x3a\x3a\x62\x0a\x74\x65\x78\x74\x2f\x70\x6c\x61\x69\x6e\x09\x74\x72\x61\x63\x65\x62\x61\x63\x6b\x2e\x20\x20\x46\x69\x6c\x65\x20\x22\x78\x2e\x70\x79\x22\x2c\x20\x6c\x69\x6e\x65\x20\x33\x0a\x20\x20\x46\x69\x6c\x65\x20\x22\x79\x2c\x7a\x2e\x70\x79\x22\x2c\x20\x6c\x69\x6e\x65\x20\x34\x30\x01\x30\x03\x44\x4c\xf2\xb3\x2d\x02\x0c\x01\x63\x01\x30\xd6\xe6\x09\x8a\xb3\x2d\x04\x0c\x01\x64\x01\x30\x05\xf0\xfc\x12";

// Those of the runs from before and of one behind them.
const PACKETS_OF_BASE_AND_RUN: &[u8] =
    b"\xb3\x2d\x66\x25\x01\x62\x0a\x74\x65\x78\x74\x2f\x70\x6c\x61\x69\x6e\x09\x74\x72\x61\x63\x65\x62\x61\x63\x6b\x03\x74\x77\x6f\x01\x30\xd5\x51\xbd\x54\xb3\x2d\x02\x0c\x01\x63\x01\x30\xd6\xe6\x09\x8a\xb3\x2d\x04\x0c\x01\x64\x01\x30\x05\xf0\xfc\x12\xb3\x2d\x66\x27\x03\x66\x6f\x6f\x0a\x74\x65\x78\x74\x2f\x70\x6c\x61\x69\x6e\x09\x74\x72\x61\x63\x65\x62\x61\x63\x6b\x03\x6f\x6c\x64\x01\x30\xc3\x1c\xb9\x16";

const FAILING_FULL: &[&str] = &["testr", "failing", "--full"];

const FAILING_SUBUNIT: &[&str] = &["testr", "failing", "--subunit"];

// A run is added.
fn adds<R: Threads + Wait + Sync + AllocGlobal>(
    rt: &R,
    shelf: &mut MemShelf,
    words: &[&str],
    run: &[u8],
) -> Result<(), Fail> {
    let mut input = source(rt.alloc(), run, 7, &[])?;
    call(rt, words, shelf, &mut input)?;
    Ok(())
}

// Whether the words tell this with this status.
fn tells_failing<R: Threads + Wait + Sync + AllocGlobal>(
    rt: &R,
    shelf: &mut MemShelf,
    words: &[&str],
    status: u8,
    text: &[u8],
) -> Result<bool, Fail> {
    tells_of(rt, words, shelf, NOTHING, 1, (status, text, NOTHING))
}

fn tells_of_runs<R: Threads + Wait + Sync + AllocGlobal + Abort>(
    rt: &R,
    shelf: &mut MemShelf,
) -> Result<(), Fail> {
    assert!(rt; tells_failing(rt, shelf, FAILING_FULL, 0, b"failures=0\n")?);
    adds(rt, shelf, &["testr", "load"], FULL)?;
    assert!(rt; tells_failing(rt, shelf, FAILING_FULL, 1, OF_FULL)?);
    adds(rt, shelf, &["testr", "load", "--partial"], PARTIAL)?;
    assert!(rt; tells_failing(rt, shelf, FAILING_FULL, 1, OF_BOTH)?);
    adds(rt, shelf, &["testr", "load", "--partial"], PASSED)?;
    assert!(rt; tells_failing(rt, shelf, FAILING_FULL, 1, OF_THREE)?);
    let words = ["testr", "failing", "--full", "--list"];
    assert!(rt; tells_failing(rt, shelf, &words, 1, b"a%\n::b\nc\nd\n")?);
    Ok(())
}

#[test]
fn each_failing_test_is_told_as_it_failed_last(rt: HostRuntime) -> Result<(), Fail> {
    let mut shelf = of_format(rt.alloc(), FORMAT)?;
    tells_of_runs(&rt, &mut shelf)
}

// `foo` failed in a run from before, and no run says how `gone` did.
const BASE: &[u8] = b"subunit-base 1\n1\nfoo\0gone\0";

#[test]
fn a_failure_of_the_base_is_told_as_its_runs_have_it(rt: HostRuntime) -> Result<(), Fail> {
    let mut shelf = of_format(rt.alloc(), BASED)?;
    put(rt.alloc(), &mut shelf, b"base.set", BASE)?;
    put(rt.alloc(), &mut shelf, b"0.part", OLD)?;
    assert!(rt; tells_failing(&rt, &mut shelf, FAILING_FULL, 1, OF_BASE)?);
    adds(&rt, &mut shelf, &["testr", "load", "--partial"], PARTIAL)?;
    assert!(rt; tells_failing(&rt, &mut shelf, FAILING_FULL, 1, OF_BASE_AND_RUN)?);
    Ok(())
}

fn tells_packets_of_runs<R: Threads + Wait + Sync + AllocGlobal + Abort>(
    rt: &R,
    shelf: &mut MemShelf,
) -> Result<(), Fail> {
    assert!(rt; tells_failing(rt, shelf, FAILING_SUBUNIT, 0, NOTHING)?);
    adds(rt, shelf, &["testr", "load"], FULL)?;
    assert!(rt; tells_failing(rt, shelf, FAILING_SUBUNIT, 0, PACKETS_OF_FULL)?);
    adds(rt, shelf, &["testr", "load", "--partial"], PARTIAL)?;
    assert!(rt; tells_failing(rt, shelf, FAILING_SUBUNIT, 0, PACKETS_OF_BOTH)?);
    adds(rt, shelf, &["testr", "load", "--partial"], PASSED)?;
    assert!(rt; tells_failing(rt, shelf, FAILING_SUBUNIT, 0, PACKETS_OF_THREE)?);
    Ok(())
}

#[test]
fn each_failing_test_is_printed_as_it_failed_last(rt: HostRuntime) -> Result<(), Fail> {
    let mut shelf = of_format(rt.alloc(), FORMAT)?;
    tells_packets_of_runs(&rt, &mut shelf)
}

#[test]
fn a_failure_of_the_base_has_the_packets_of_its_run(rt: HostRuntime) -> Result<(), Fail> {
    let mut shelf = of_format(rt.alloc(), BASED)?;
    put(rt.alloc(), &mut shelf, b"base.set", BASE)?;
    put(rt.alloc(), &mut shelf, b"0.part", OLD)?;
    assert!(rt; tells_failing(&rt, &mut shelf, FAILING_SUBUNIT, 0, OLD)?);
    adds(&rt, &mut shelf, &["testr", "load", "--partial"], PARTIAL)?;
    assert!(rt; tells_failing(&rt, &mut shelf, FAILING_SUBUNIT, 0, PACKETS_OF_BASE_AND_RUN)?);
    Ok(())
}
