//! What one line is.

ghost use Rattle.std.specs.Prelude.{◌≡◌, ℕ, ◌≤◌, ◌<◌, IfSome, length, drop};
ghost use Rattle.std.specs.Char.{is_ascii_digit};
ghost use Rattle.std.specs.List.{list_all};
ghost use Rattle.std.specs.Option.{option_map};
ghost use Rattle.sub_number.specs.Lines.{without_return, begins};
ghost use Rattle.v1_bridge.specs.Lines as spec;
ghost use Rattle.v1_bridge.specs.Kept.{line_meant, ended_meant, HasShortParts};
ghost use Rattle.instants.specs.Dates.{meant};

use instants::{Instant, instant_of};
use packet_codec::{Stamp, Status};

/// How a test ended, with what stands behind the word.
#[derive(Clone, Copy)]
pub(crate) struct Outcome<'a> {
    pub(crate) how: Status,
    pub(crate) rest: &'a [u8],
}

/// What one line is.
pub(crate) enum Line<'a> {
    /// It begins the test of this id.
    Test(&'a [u8]),
    /// It tells how a test ended, with what stands behind the word.
    Outcome(Outcome<'a>),
    /// It tells the time.
    Time(Stamp),
    /// It changes the tags, as these words say.
    Tags(&'a [u8]),
    /// It tells how far the tests are.
    Progress,
    /// Anything else.
    Other,
}

/// The bytes behind so many, none where there are fewer.
pub(crate) fn bytes_behind(bytes: &[u8], count: usize) -> &[u8]
    ensures rest { result.now ≡ drop count bytes.now }
    ensures within { length result.now ≤ length bytes.now }
{
    &bytes[count.min(bytes.len())..]
}

/// The bytes without a newline at their end.
pub(crate) fn without_newline(bytes: &[u8]) -> &[u8]
    ensures line { result.now ≡ spec.without_newline bytes.now }
    ensures within { length result.now ≤ length bytes.now }
{
    if bytes.ends_with(b"\n") {
        &bytes[..bytes.len() - 1]
    } else {
        bytes
    }
}

/// The bytes without a carriage return at their end.
pub(crate) fn without_return(bytes: &[u8]) -> &[u8]
    ensures line { result.now ≡ without_return bytes.now }
    ensures within { length result.now ≤ length bytes.now }
{
    if bytes.ends_with(b"\r") {
        &bytes[..bytes.len() - 1]
    } else {
        bytes
    }
}

/// What the line says, without its newline and a carriage return before it.
pub(crate) fn line_content(line: &[u8]) -> &[u8]
    ensures content { result.now ≡ spec.content line.now }
    ensures within { length result.now ≤ length (spec.without_newline line.now) }
{
    without_return(without_newline(line))
}

// Whether the word stands at the front of the line. The first two bytes tell most lines apart, so they are asked first.
#[inline(always)]
fn begins(line: &[u8], word: &[u8]) -> bool
    requires { 2 ≤ length word.now }
    ensures { result ≡ begins word.now line.now }
{
    line.len() >= 2 && line[0] == word[0] && line[1] == word[1] && line.starts_with(word)
}

fn ended_as<'a>(how: Status, rest: &'a [u8]) -> Option<Outcome<'a>>
    ensures { option_map ended_meant result ≡ spec.ended_as how rest.now }
{
    Some(Outcome { how, rest })
}

// What stands behind a word that tells how a test ended.
fn outcome_of(line: &[u8]) -> Option<Outcome<'_>>
    ensures { option_map ended_meant result ≡ spec.outcome_of line.now }
{
    if begins(line, b"success: ") {
        return ended_as(Status::Success, bytes_behind(line, 9));
    }
    if begins(line, b"successful: ") {
        return ended_as(Status::Success, bytes_behind(line, 12));
    }
    if begins(line, b"failure: ") {
        return ended_as(Status::Fail, bytes_behind(line, 9));
    }
    if begins(line, b"error: ") {
        return ended_as(Status::Fail, bytes_behind(line, 7));
    }
    if begins(line, b"skip: ") {
        return ended_as(Status::Skip, bytes_behind(line, 6));
    }
    if begins(line, b"xfail: ") {
        return ended_as(Status::XFail, bytes_behind(line, 7));
    }
    if begins(line, b"uxsuccess: ") {
        return ended_as(Status::UxSuccess, bytes_behind(line, 11));
    }
    None
}

// What begins a test, and its id.
fn test_of(line: &[u8]) -> Option<&[u8]>
    ensures meant { option_map (λ id. id.now) result ≡ spec.test_begun line.now }
    ensures within { IfSome result (λ id. length id.now ≤ length line.now) }
{
    if begins(line, b"test: ") {
        return Some(bytes_behind(line, 6));
    }
    if begins(line, b"testing: ") {
        return Some(bytes_behind(line, 9));
    }
    None
}

// A line of a time, where there is one.
fn time_with(instant: Option<Instant>) -> Line<'static>
    requires { IfSome instant (λ i. i.nanos < 1_000_000_000) }
    ensures meant { line_meant result ≡ spec.time_with (option_map meant instant) }
    ensures within { (most : ℕ) → HasShortParts result most }
{
    match instant {
        Some(instant) => Line::Time(stamp_at(instant)),
        None => Line::Other,
    }
}

fn stamp_at(instant: Instant) -> Stamp
    requires { instant.nanos < 1_000_000_000 }
    ensures { result ≡ spec.stamp_at (meant instant) }
{
    Stamp {
        seconds: instant.seconds,
        nanos: instant.nanos.min(999_999_999),
    }
}

// The bytes without one sign at their front.
fn unsigned(bytes: &[u8]) -> &[u8]
    ensures { result.now ≡ spec.unsigned bytes.now }
{
    if bytes.starts_with(b"+") || bytes.starts_with(b"-") {
        bytes_behind(bytes, 1)
    } else {
        bytes
    }
}

fn are_digits(bytes: &[u8]) -> bool
    ensures { result ≡ list_all is_ascii_digit bytes.now }
{
    bytes.iter().all(|byte| byte.is_ascii_digit())
}

// Whether the bytes are 1 to 9 digits.
fn is_count(bytes: &[u8]) -> bool
    ensures { result ≡ spec.is_short_number bytes.now }
{
    are_digits(bytes) && bytes.len() >= 1 && bytes.len() <= 9
}

// Whether the bytes tell how far the tests are.
fn is_progress(bytes: &[u8]) -> bool
    ensures { result ≡ spec.is_progress bytes.now }
{
    bytes == b"push".as_slice() || bytes == b"pop".as_slice() || is_count(unsigned(bytes))
}

fn progress_with(bytes: &[u8]) -> Line<'static>
    ensures meant { line_meant result ≡ spec.progress_with bytes.now }
    ensures within { (most : ℕ) → HasShortParts result most }
{
    if is_progress(bytes) {
        Line::Progress
    } else {
        Line::Other
    }
}

// A line that tells the time, changes the tags or tells of progress, or any other.
fn other_of(line: &[u8]) -> Line<'_>
    ensures meant { line_meant result ≡ spec.other_of line.now }
    ensures within { HasShortParts result (length line.now) }
{
    if begins(line, b"time: ") {
        return time_with(instant_of(bytes_behind(line, 6)));
    }
    if begins(line, b"tags: ") {
        return Line::Tags(bytes_behind(line, 6));
    }
    if begins(line, b"progress: ") {
        return progress_with(bytes_behind(line, 10));
    }
    Line::Other
}

/// What the line is, of which this is the content.
pub(crate) fn line_of(line: &[u8]) -> Line<'_>
    ensures meant { line_meant result ≡ spec.line_of line.now }
    ensures within { HasShortParts result (length line.now) }
{
    if let Some(id) = test_of(line) {
        return Line::Test(id);
    }
    if let Some(outcome) = outcome_of(line) {
        return Line::Outcome(outcome);
    }
    other_of(line)
}
