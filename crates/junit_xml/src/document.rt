//! The tags of a document.

ghost use Rattle.std.specs.Prelude.{◌≡◌, [], ◌++◌, take, length, codes, OnOk, OnErr};
ghost use Rattle.std.specs.List.{flat_map};
ghost use Rattle.std.specs.Fmt.{decimal};
ghost use Rattle.outcome_fold.specs.Answers.{is_run, counts_of};
ghost use Rattle.sub_number.specs.Seconds.{printed_seconds};
ghost use Rattle.junit_xml.specs.declared.characters.Place.TheVariants.{Value};
ghost use Rattle.junit_xml.specs.Characters.{written};
ghost use Rattle.junit_xml.specs.Documents as spec;

use crate::characters::{Place, put_value, put_written};
use crate::names::names_of;
use crate::seconds::{put_all_seconds, put_seconds};
use itoa::Buffer;
use outcome_fold::{Counts, Ended, Row, Rows};
use packet_codec::Tags;
use std::alloc::Global;
use sub_number::NoMemory;

// Of each function that is not public: what stands in the text stays, also where there is not enough memory.

// An attribute of this value.
fn put_attribute(name: &[u8], value: &[u8], text: &mut Vec<u8>) -> Result<(), NoMemory>
    ensures ok { OnOk result (text.new.items ≡ text.old.items ++ spec.attribute name.now (written Value value.now)) }
    ensures kept { take (length text.old.items) text.new.items ≡ text.old.items }
{
    text.push(b' ')?;
    text.extend_from_slice(name)?;
    text.extend_from_slice(b"=\"")?;
    put_value(value, text)?;
    text.push(b'"')?;
    Ok(())
}

// An attribute of this number.
fn put_count(name: &[u8], count: u64, text: &mut Vec<u8>) -> Result<(), NoMemory>
    ensures ok { OnOk result (text.new.items ≡ text.old.items ++ spec.attribute name.now (decimal count)) }
    ensures kept { take (length text.old.items) text.new.items ≡ text.old.items }
{
    text.push(b' ')?;
    text.extend_from_slice(name)?;
    text.extend_from_slice(b"=\"")?;
    text.extend_from_slice(Buffer::new().format(count).as_bytes())?;
    text.push(b'"')?;
    Ok(())
}

// The attribute of the time of all tests, which ends a tag and its line.
fn put_time(nanos: u128, text: &mut Vec<u8>) -> Result<(), NoMemory>
    ensures ok { OnOk result (text.new.items ≡ text.old.items ++ spec.attribute (codes "time") (printed_seconds nanos) ++ codes ">\n") }
    ensures kept { take (length text.old.items) text.new.items ≡ text.old.items }
{
    text.extend_from_slice(b" time=\"")?;
    put_all_seconds(nanos, text)?;
    text.extend_from_slice(b"\">\n")?;
    Ok(())
}

// The tag that begins a case.
fn put_case_begin(row: &Row, text: &mut Vec<u8>) -> Result<(), NoMemory>
    ensures ok { OnOk result (text.new.items ≡ text.old.items ++ spec.case_begin row.now) }
    ensures kept { take (length text.old.items) text.new.items ≡ text.old.items }
{
    let (class, name) = names_of(row.id.bytes());
    text.extend_from_slice(b"<testcase classname=\"")?;
    put_value(class, text)?;
    text.extend_from_slice(b"\" name=\"")?;
    put_value(name, text)?;
    text.extend_from_slice(b"\" time=\"")?;
    put_seconds(row.nanos.unwrap_or(0), text)?;
    text.extend_from_slice(b"\">\n")?;
    Ok(())
}

// A failure of this kind, with its text.
fn put_failure(kind: &[u8], bytes: &[u8], text: &mut Vec<u8>) -> Result<(), NoMemory>
    ensures ok { OnOk result (text.new.items ≡ text.old.items ++ spec.failure kind.now bytes.now) }
    ensures kept { take (length text.old.items) text.new.items ≡ text.old.items }
{
    text.extend_from_slice(b"<failure type=\"")?;
    text.extend_from_slice(kind)?;
    text.extend_from_slice(b"\">")?;
    put_written(bytes, Place::Text, text)?;
    text.extend_from_slice(b"</failure>\n")?;
    Ok(())
}

// What says that a test was skipped, and why.
fn put_skipped(reason: &[u8], text: &mut Vec<u8>) -> Result<(), NoMemory>
    ensures ok { OnOk result (text.new.items ≡ text.old.items ++ spec.skipped reason.now) }
    ensures kept { take (length text.old.items) text.new.items ≡ text.old.items }
{
    text.extend_from_slice(b"<skipped")?;
    put_attribute(b"message", reason, text)?;
    text.extend_from_slice(b"/>\n")?;
    Ok(())
}

// What is told within a case of a test that ended so.
fn put_inside(ended: Ended, bytes: &[u8], reason: &[u8], text: &mut Vec<u8>) -> Result<(), NoMemory>
    ensures ok { OnOk result (text.new.items ≡ text.old.items ++ spec.inside_of ended bytes.now reason.now) }
    ensures kept { take (length text.old.items) text.new.items ≡ text.old.items }
{
    match ended {
        Ended::Exists | Ended::Success | Ended::XFail => Ok(()),
        Ended::UxSuccess => put_failure(b"uxsuccess", bytes, text),
        Ended::Skip => put_skipped(reason, text),
        Ended::Fail => put_failure(b"fail", bytes, text),
        Ended::Open => put_failure(b"unfinished", bytes, text),
    }
}

// The case of a row.
fn put_case(row: &Row, text: &mut Vec<u8>) -> Result<(), NoMemory>
    ensures ok { OnOk result (text.new.items ≡ text.old.items ++ spec.case_text row.now) }
    ensures kept { take (length text.old.items) text.new.items ≡ text.old.items }
{
    put_case_begin(row, text)?;
    put_inside(row.ended, row.text.bytes(), row.reason.bytes(), text)?;
    text.extend_from_slice(b"</testcase>\n")?;
    Ok(())
}

// Whether there is a case of a test that ended so.
fn is_run(row: &Row) -> bool
    ensures { result ≡ is_run row.now }
{
    row.ended != Ended::Exists
}

// The case of a row, if it has one.
fn put_row(row: &Row, text: &mut Vec<u8>) -> Result<(), NoMemory>
    ensures ok { OnOk result (text.new.items ≡ text.old.items ++ spec.case_of row.now) }
    ensures kept { take (length text.old.items) text.new.items ≡ text.old.items }
{
    if !is_run(row) {
        return Ok(());
    }
    put_case(row, text)
}

// The cases of rows.
fn put_cases(rows: &[Row], text: &mut Vec<u8>) -> Result<(), NoMemory>
    ensures ok { OnOk result (text.new.items ≡ text.old.items ++ flat_map spec.case_of rows.now) }
    ensures kept { take (length text.old.items) text.new.items ≡ text.old.items }
{
    for row in rows {
        put_row(row, text)?;
    }
    Ok(())
}

// What stands in front of the cases.
fn put_head(counts: Counts, text: &mut Vec<u8>) -> Result<(), NoMemory>
    ensures ok { OnOk result (text.new.items ≡ text.old.items ++ spec.head_of counts) }
    ensures kept { take (length text.old.items) text.new.items ≡ text.old.items }
{
    text.extend_from_slice(b"<?xml version=\"1.0\" encoding=\"utf-8\"?>\n")?;
    text.extend_from_slice(b"<testsuite name=\"\"")?;
    put_count(b"tests", counts.total, text)?;
    put_count(b"failures", counts.failed, text)?;
    text.extend_from_slice(b" errors=\"0\"")?;
    put_count(b"skipped", counts.skipped, text)?;
    put_time(counts.nanos.unwrap_or(0), text)?;
    Ok(())
}

// How many rows there are, and how long they took. No tag leaves one out.
fn counts_in(alloc: Global, rows: &Rows) -> Counts
    ensures { result ≡ counts_of [] rows.now }
{
    rows.counts(&Tags::new(alloc))
}

// The whole document.
fn put_document(rows: &Rows, text: &mut Vec<u8>) -> Result<(), NoMemory>
    ensures ok { OnOk result (text.new.items ≡ text.old.items ++ spec.junit_of rows.now) }
    ensures kept { take (length text.old.items) text.new.items ≡ text.old.items }
{
    let alloc = *text.allocator();
    put_head(counts_in(alloc, rows), text)?;
    put_cases(rows.list(), text)?;
    text.extend_from_slice(b"</testsuite>\n")?;
    Ok(())
}

/// Appends what stands in front of the cases of rows of which these are the counts: the declaration, and the tag that
/// begins the suite.
pub fn junit_head(counts: Counts, out: &mut Vec<u8>) -> Result<(), NoMemory>
    ensures ok { OnOk result (out.new.items ≡ out.old.items ++ spec.head_of counts) }
    ensures err { OnErr result (out.new.items ≡ out.old.items) }
{
    let before = out.len();
    let done = put_head(counts, out);
    if done.is_err() {
        out.truncate(before);
    }
    done
}

/// Appends the case of a row. Nothing is appended where the test is only known to exist.
pub fn junit_case(row: &Row, out: &mut Vec<u8>) -> Result<(), NoMemory>
    ensures ok { OnOk result (out.new.items ≡ out.old.items ++ spec.case_of row.now) }
    ensures err { OnErr result (out.new.items ≡ out.old.items) }
{
    let before = out.len();
    let done = put_row(row, out);
    if done.is_err() {
        out.truncate(before);
    }
    done
}

/// Appends what stands behind the cases: the tag that ends the suite.
pub fn junit_tail(out: &mut Vec<u8>) -> Result<(), NoMemory>
    ensures ok { OnOk result (out.new.items ≡ out.old.items ++ spec.tail_text) }
    ensures err { OnErr result (out.new.items ≡ out.old.items) }
{
    out.extend_from_slice(b"</testsuite>\n")?;
    Ok(())
}

/// Appends the document of the rows: what stands in front of their cases, the case of each row that is not only known to
/// exist, in their order, and what stands behind them.
pub fn junit_text(rows: &Rows, out: &mut Vec<u8>) -> Result<(), NoMemory>
    ensures ok { OnOk result (out.new.items ≡ out.old.items ++ spec.junit_of rows.now) }
    ensures err { OnErr result (out.new.items ≡ out.old.items) }
{
    let before = out.len();
    let done = put_document(rows, out);
    if done.is_err() {
        out.truncate(before);
    }
    done
}
