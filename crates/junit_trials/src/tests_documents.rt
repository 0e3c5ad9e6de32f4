//! Cases of each end, and whole documents.

use crate::rows::{Told, row};
use crate::written::{is_case, put_case};
use junit_xml::{junit_head, junit_tail, junit_text};
use outcome_fold::{Counts, Ended, Row, Rows};
use std::alloc::Global;

// A row, and its case.
type Case = (Told, &'static [u8]);

const CASES: [Case; 10] = [
    (
        (b"pkg.Test.test_a", Ended::Success, Some(1_500_499_999), b""),
        b"<testcase classname=\"pkg.Test\" name=\"test_a\" time=\"1.500\">\n</testcase>\n",
    ),
    ((b"a", Ended::Exists, Some(1), b""), b""),
    (
        (b"a", Ended::XFail, None, b""),
        b"<testcase classname=\"\" name=\"a\" time=\"0.000\">\n</testcase>\n",
    ),
    (
        (b"a.b", Ended::Skip, Some(500_000), b""),
        b"<testcase classname=\"a\" name=\"b\" time=\"0.001\">\n<skipped message=\"\"/>\n</testcase>\n",
    ),
    (
        (b"a.b", Ended::Skip, None, b"no \"net\" < 3\tx"),
        b"<testcase classname=\"a\" name=\"b\" time=\"0.000\">\n<skipped message=\"no &quot;net&quot; &lt; 3&#9;x\"/>\n</testcase>\n",
    ),
    (
        (b"a.b", Ended::Fail, Some(0), b"boom\n"),
        b"<testcase classname=\"a\" name=\"b\" time=\"0.000\">\n<failure type=\"fail\">boom\n</failure>\n</testcase>\n",
    ),
    (
        (b"a.b", Ended::Fail, None, b"boom"),
        b"<testcase classname=\"a\" name=\"b\" time=\"0.000\">\n<failure type=\"fail\">boom</failure>\n</testcase>\n",
    ),
    (
        (b"a.b", Ended::Fail, None, b""),
        b"<testcase classname=\"a\" name=\"b\" time=\"0.000\">\n<failure type=\"fail\"></failure>\n</testcase>\n",
    ),
    (
        (b"a.b", Ended::UxSuccess, Some(999_500_000), b"x"),
        b"<testcase classname=\"a\" name=\"b\" time=\"1.000\">\n<failure type=\"uxsuccess\">x</failure>\n</testcase>\n",
    ),
    (
        (b"a.b", Ended::Open, None, b"x"),
        b"<testcase classname=\"a\" name=\"b\" time=\"0.000\">\n<failure type=\"unfinished\">x</failure>\n</testcase>\n",
    ),
];

#[test]
fn each_end_has_its_case(rt: HostRuntime) {
    let alloc = rt.alloc();
    for (number, (told, wanted)) in CASES.iter().enumerate() {
        assert!(rt; is_case(alloc, told, wanted), "case {number}");
    }
}

// An id whose test passed, and its case.
const NAMES: [Case; 11] = [
    (
        (b"foo", Ended::Success, None, b""),
        b"<testcase classname=\"\" name=\"foo\" time=\"0.000\">\n</testcase>\n",
    ),
    (
        (b"", Ended::Success, None, b""),
        b"<testcase classname=\"\" name=\"\" time=\"0.000\">\n</testcase>\n",
    ),
    (
        (b"a.b.c", Ended::Success, None, b""),
        b"<testcase classname=\"a.b\" name=\"c\" time=\"0.000\">\n</testcase>\n",
    ),
    (
        (b"a.b.c(x.y)", Ended::Success, None, b""),
        b"<testcase classname=\"a.b\" name=\"c(x.y)\" time=\"0.000\">\n</testcase>\n",
    ),
    (
        (b"a.b.c[1.5](2.5)", Ended::Success, None, b""),
        b"<testcase classname=\"a.b\" name=\"c[1.5](2.5)\" time=\"0.000\">\n</testcase>\n",
    ),
    (
        (b"a.b(2.5)[1.5]", Ended::Success, None, b""),
        b"<testcase classname=\"a\" name=\"b(2.5)[1.5]\" time=\"0.000\">\n</testcase>\n",
    ),
    (
        (b"setUpClass (pkg.mod.Test)", Ended::Success, None, b""),
        b"<testcase classname=\"\" name=\"setUpClass (pkg.mod.Test)\" time=\"0.000\">\n</testcase>\n",
    ),
    (
        (b".foo", Ended::Success, None, b""),
        b"<testcase classname=\"\" name=\".foo\" time=\"0.000\">\n</testcase>\n",
    ),
    (
        (b"..foo", Ended::Success, None, b""),
        b"<testcase classname=\".\" name=\"foo\" time=\"0.000\">\n</testcase>\n",
    ),
    (
        (b"foo.", Ended::Success, None, b""),
        b"<testcase classname=\"foo\" name=\"\" time=\"0.000\">\n</testcase>\n",
    ),
    (
        (b"(a).b", Ended::Success, None, b""),
        b"<testcase classname=\"\" name=\"(a).b\" time=\"0.000\">\n</testcase>\n",
    ),
];

#[test]
fn ids_are_parted_at_their_last_point_before_parameters(rt: HostRuntime) {
    let alloc = rt.alloc();
    for (number, (told, wanted)) in NAMES.iter().enumerate() {
        assert!(rt; is_case(alloc, told, wanted), "id {number}");
    }
}

const ROWS: [Told; 4] = [
    (b"pkg.Test.test_a", Ended::Success, Some(1_500_499_999), b""),
    (b"listed", Ended::Exists, Some(7_000_000_000), b""),
    (b"a<b", Ended::UxSuccess, None, b"1 < 2\n"),
    (b"b.s", Ended::Skip, Some(500_000), b"no net"),
];

const DOCUMENT: &[u8] =
    b"<?xml version=\"1.0\" encoding=\"utf-8\"?>\n<testsuite name=\"\" tests=\"3\" failures=\"1\" errors=\"0\" skipped=\"1\" time=\"1.501\">\n<testcase classname=\"pkg.Test\" name=\"test_a\" time=\"1.500\">\n</testcase>\n<testcase classname=\"\" name=\"a&lt;b\" time=\"0.000\">\n<failure type=\"uxsuccess\">1 &lt; 2\n</failure>\n</testcase>\n<testcase classname=\"b\" name=\"s\" time=\"0.001\">\n<skipped message=\"no net\"/>\n</testcase>\n</testsuite>\n";

const NO_ROWS: &[u8] =
    b"<?xml version=\"1.0\" encoding=\"utf-8\"?>\n<testsuite name=\"\" tests=\"0\" failures=\"0\" errors=\"0\" skipped=\"0\" time=\"0.000\">\n</testsuite>\n";

fn push(alloc: Global, told: &Told, rows: &mut Vec<Row>) -> Option<()> {
    let row = row(alloc, told)?;
    rows.push(row).ok()
}

fn push_all(alloc: Global, told: &[Told], rows: &mut Vec<Row>) -> Option<()> {
    for told in told {
        push(alloc, told, rows)?;
    }
    Some(())
}

fn rows_of(alloc: Global, told: &[Told]) -> Option<Rows> {
    let mut rows = Vec::new(alloc);
    push_all(alloc, told, &mut rows)?;
    Some(Rows::of(rows))
}

fn is_document(alloc: Global, told: &[Told], wanted: &[u8]) -> bool {
    let Some(rows) = rows_of(alloc, told) else {
        return false;
    };
    let mut out = Vec::new(alloc);
    junit_text(&rows, &mut out).is_ok() && out.as_slice() == wanted
}

#[test]
fn a_document_has_a_case_for_each_row_that_ran(rt: HostRuntime) {
    let alloc = rt.alloc();
    assert!(rt; is_document(alloc, &ROWS, DOCUMENT));
    assert!(rt; is_document(alloc, &[], NO_ROWS));
    assert!(rt; is_document(alloc, &ROWS[1..2], NO_ROWS));
}

fn put_cases(alloc: Global, told: &[Told], out: &mut Vec<u8>) -> Option<()> {
    for told in told {
        put_case(alloc, told, out)?;
    }
    Some(())
}

fn put_parts(alloc: Global, counts: Counts, told: &[Told], out: &mut Vec<u8>) -> Option<()> {
    junit_head(counts, out).ok()?;
    put_cases(alloc, told, out)?;
    junit_tail(out).ok()
}

#[test]
fn its_parts_are_the_document(rt: HostRuntime) {
    let alloc = rt.alloc();
    let counts = Counts {
        total: 3,
        passed: 1,
        failed: 1,
        skipped: 1,
        nanos: Some(1_500_999_999),
    };
    let mut out = Vec::new(alloc);
    assert!(rt; put_parts(alloc, counts, &ROWS, &mut out).is_some());
    assert!(rt; out.as_slice() == DOCUMENT);
}

// A sum of times, and the head with it: on both sides of 2^64 nanoseconds, and far behind.
const HEADS: [(u128, &[u8]); 3] = [
    (
        18_446_744_073_709_551_615,
        b"<?xml version=\"1.0\" encoding=\"utf-8\"?>\n<testsuite name=\"\" tests=\"1\" failures=\"0\" errors=\"0\" skipped=\"0\" time=\"18446744073.710\">\n",
    ),
    (
        18_446_744_073_709_551_616,
        b"<?xml version=\"1.0\" encoding=\"utf-8\"?>\n<testsuite name=\"\" tests=\"1\" failures=\"0\" errors=\"0\" skipped=\"0\" time=\"18446744073.710\">\n",
    ),
    (
        1_000_000_000_000_000_000_001_500_000,
        b"<?xml version=\"1.0\" encoding=\"utf-8\"?>\n<testsuite name=\"\" tests=\"1\" failures=\"0\" errors=\"0\" skipped=\"0\" time=\"1000000000000000000.002\">\n",
    ),
];

fn is_head(alloc: Global, nanos: u128, wanted: &[u8]) -> bool {
    let counts = Counts {
        total: 1,
        passed: 1,
        failed: 0,
        skipped: 0,
        nanos: Some(nanos),
    };
    let mut out = Vec::new(alloc);
    junit_head(counts, &mut out).is_ok() && out.as_slice() == wanted
}

#[test]
fn the_time_of_a_suite_has_no_end(rt: HostRuntime) {
    let alloc = rt.alloc();
    for (nanos, wanted) in HEADS {
        assert!(rt; is_head(alloc, nanos, wanted), "{nanos}");
    }
}
