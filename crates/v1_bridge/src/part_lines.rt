//! The lines of one part of a test.

ghost use Rattle.std.specs.Prelude.{◌≡◌, ◌++◌, ◌∷◌, [], ◌+◌, ◌≤◌, ◌<◌, map, length, take, drop, nat_eq, IsTrue, OnOk};
ghost use Rattle.std.specs.List.{list_all, list_any};
ghost use Rattle.v1_bridge.specs.Writing as spec;
ghost use Rattle.v1_bridge.specs.Cutting.{line_size as size_of_line};

use instants::put_instant;
use memchr::memchr;
use outcome_fold::{Ended, EndedPart, Started, in_order};
use sub_number::{NoMemory, Text};

fn put(bytes: &[u8], out: &mut Vec<u8>) -> Result<(), NoMemory>
    ensures { OnOk result (out.new.items ≡ out.old.items ++ bytes.now) }
{
    out.extend_from_slice(bytes)?;
    Ok(())
}

fn put_time(nanos: Option<u64>, out: &mut Vec<u8>) -> Result<(), NoMemory>
    ensures { OnOk result (out.new.items ≡ out.old.items ++ spec.time_line nanos) }
{
    let Some(nanos) = nanos else {
        return Ok(());
    };
    put(b"time: ", out)?;
    put_instant(nanos, out)?;
    put(b"Z\n", out)
}

fn shown_byte(byte: u8) -> u8
    ensures { result ≡ spec.shown_byte byte }
{
    if byte < 32 { b'?' } else { byte }
}

// Appends the id with `?` for each control character.
fn put_replaced(id: &[u8], out: &mut Vec<u8>) -> Result<(), NoMemory>
    ensures { OnOk result (out.new.items ≡ out.old.items ++ map spec.shown_byte id.now) }
{
    for byte in id {
        out.push(shown_byte(*byte))?;
    }
    Ok(())
}

// Whether the id is shown as it is, as most ids are.
fn is_shown_as_it_is(id: &[u8]) -> bool
    ensures { IsTrue result → spec.shown_id id.now ≡ id.now }
{
    id.len() > 0 && !id.iter().any(|byte| shown_byte(*byte) != *byte)
}

// Appends the id as a line shows it. Whether that is as it is was asked before, once for both lines that have the id.
fn put_id(id: &[u8], as_it_is: bool, out: &mut Vec<u8>) -> Result<(), NoMemory>
    requires { IsTrue as_it_is → spec.shown_id id.now ≡ id.now }
    ensures { OnOk result (out.new.items ≡ out.old.items ++ spec.shown_id id.now) }
{
    if as_it_is {
        return put(id, out);
    }
    if id.len() == 0 {
        return put(b"?", out);
    }
    put_replaced(id, out)
}

fn put_test_line(id: &[u8], as_it_is: bool, out: &mut Vec<u8>) -> Result<(), NoMemory>
    requires { IsTrue as_it_is → spec.shown_id id.now ≡ id.now }
    ensures { OnOk result (out.new.items ≡ out.old.items ++ spec.test_begin_line id.now) }
{
    put(b"test: ", out)?;
    put_id(id, as_it_is, out)?;
    put(b"\n", out)
}

fn are_plain(bytes: &[u8]) -> bool
    ensures { result ≡ list_all spec.is_plain bytes.now }
{
    bytes.iter().all(|byte| 32 < *byte)
}

// Whether a line can tell the tag.
fn is_line_tag(tag: &[u8]) -> bool
    ensures { result ≡ spec.is_line_tag tag.now }
{
    tag.len() > 0 && !tag.starts_with(b"-") && are_plain(tag)
}

// Appends the tag behind a space, where a line can tell it.
fn put_tag(tag: &[u8], out: &mut Vec<u8>) -> Result<(), NoMemory>
    ensures { OnOk result (out.new.items ≡ out.old.items ++ spec.tag_words (tag.now ∷ [])) }
{
    if !is_line_tag(tag) {
        return Ok(());
    }
    put(b" ", out)?;
    put(tag, out)
}

// Appends the tags that a line can tell, each behind a space.
fn put_tags(tags: &[Text], out: &mut Vec<u8>) -> Result<(), NoMemory>
    ensures { OnOk result (out.new.items ≡ out.old.items ++ spec.tag_words tags.now) }
{
    for tag in tags {
        put_tag(tag.bytes(), out)?;
    }
    Ok(())
}

fn has_line_tag(tags: &[Text]) -> bool
    ensures { result ≡ list_any spec.is_line_tag tags.now }
{
    tags.iter().any(|tag| is_line_tag(tag.bytes()))
}

fn put_tags_line(tags: &[Text], out: &mut Vec<u8>) -> Result<(), NoMemory>
    ensures { OnOk result (out.new.items ≡ out.old.items ++ spec.v1_tags_line tags.now) }
{
    if !has_line_tag(tags) {
        return Ok(());
    }
    put(b"tags:", out)?;
    put_tags(tags, out)?;
    put(b"\n", out)
}

fn outcome_word(how: Ended) -> &'static [u8]
    ensures { result.now ≡ spec.outcome_word how }
{
    match how {
        Ended::Exists => b"",
        Ended::Success => b"success: ",
        Ended::UxSuccess => b"uxsuccess: ",
        Ended::Skip => b"skip: ",
        Ended::Fail => b"failure: ",
        Ended::XFail => b"xfail: ",
        Ended::Open => b"error: ",
    }
}

// The line of a test that was left open.
fn open_line(how: Ended) -> &'static [u8]
    ensures { result.now ≡ spec.open_line how }
{
    match how {
        Ended::Open => b"not completed\n",
        Ended::Exists
        | Ended::Success
        | Ended::UxSuccess
        | Ended::Skip
        | Ended::Fail
        | Ended::XFail => b"",
    }
}

// How many bytes the first line has, with its newline, where it has one.
fn line_size(bytes: &[u8]) -> usize
    ensures size { result ≡ size_of_line bytes.now }
    ensures within { result ≤ length bytes.now }
{
    match memchr(b'\n', bytes) {
        Some(place) => place + 1,
        None => bytes.len(),
    }
}

// Appends a line, and a space before it where it begins with a bracket.
fn put_line(line: &[u8], out: &mut Vec<u8>) -> Result<(), NoMemory>
    ensures { OnOk result (out.new.items ≡ out.old.items ++ spec.quoted_line line.now) }
{
    if line.starts_with(b"]") {
        put(b" ", out)?;
    }
    put(line, out)
}

// Appends the text, with a space before each bracket that begins a line.
fn put_quoted(text: &[u8], out: &mut Vec<u8>) -> Result<(), NoMemory>
    ensures { OnOk result (out.new.items ≡ out.old.items ++ spec.brackets_spaced 10 text.now) }
{
    let mut rest = text;
    while rest.len() != 0 {
        let size = line_size(rest);
        put_line(&rest[..size], out)?;
        rest = &rest[size..];
    }
    Ok(())
}

/// The last of the bytes, or else this one.
pub(crate) fn last_byte_or(before: u8, bytes: &[u8]) -> u8
    ensures { result ≡ spec.last_byte_behind before bytes.now }
{
    if bytes.len() == 0 {
        before
    } else {
        bytes[bytes.len() - 1]
    }
}

/// A newline, where this byte is none.
pub(crate) fn newline_behind(byte: u8) -> &'static [u8]
    ensures { result.now ≡ spec.newline_behind byte }
{
    if byte == b'\n' { b"" } else { b"\n" }
}

// Appends what stands between the brackets.
fn put_detail_lines(how: Ended, text: &[u8], out: &mut Vec<u8>) -> Result<(), NoMemory>
    ensures { OnOk result (out.new.items ≡ out.old.items ++ spec.detail_lines how text.now) }
{
    put_quoted(text, out)?;
    put(newline_behind(last_byte_or(b'\n', text)), out)?;
    put(open_line(how), out)
}

fn has_details(how: Ended, text: &[u8]) -> bool
    ensures { result ≡ spec.has_details how text.now }
{
    text.len() > 0 || open_line(how).len() > 0
}

// Appends what stands behind the id.
fn put_details(how: Ended, text: &[u8], out: &mut Vec<u8>) -> Result<(), NoMemory>
    ensures { OnOk result (out.new.items ≡ out.old.items ++ spec.details_of how text.now) }
{
    if !has_details(how, text) {
        return put(b"\n", out);
    }
    put(b" [\n", out)?;
    put_detail_lines(how, text, out)?;
    put(b"]\n", out)
}

fn put_outcome(
    how: Ended,
    id: &[u8],
    as_it_is: bool,
    text: &[u8],
    out: &mut Vec<u8>,
) -> Result<(), NoMemory>
    requires { IsTrue as_it_is → spec.shown_id id.now ≡ id.now }
    ensures { OnOk result (out.new.items ≡ out.old.items ++ spec.outcome_line how id.now text.now) }
{
    put(outcome_word(how), out)?;
    put_id(id, as_it_is, out)?;
    put_details(how, text, out)
}

/// Appends the lines of the part.
pub(crate) fn put_part(part: EndedPart, out: &mut Vec<u8>) -> Result<(), NoMemory>
    ensures { OnOk result (out.new.items ≡ out.old.items ++ spec.lines_of_part part) }
{
    let EndedPart {
        key,
        ended,
        started,
        end,
    } = part;
    let Started {
        start,
        tags,
        files,
        ..
    } = started;
    let text = files.shown(*out.allocator())?;
    let id = key.id.bytes();
    let as_it_is = is_shown_as_it_is(id);
    put_time(start, out)?;
    put_test_line(id, as_it_is, out)?;
    put_tags_line(in_order(tags).list(), out)?;
    put_time(end, out)?;
    put_outcome(ended, id, as_it_is, text.bytes(), out)
}
