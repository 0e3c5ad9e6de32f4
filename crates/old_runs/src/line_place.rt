//! Where the lines of a file stand: among the details of a test, or not.
//!
//! The reader of lines keeps that for itself. It is told by the lines, and by what they give.

ghost use Rattle.std.specs.Prelude.{◌≡◌, is_some};
ghost use Rattle.std.specs.List.{list_any};
ghost use Rattle.v1_bridge.specs.Lines as lines;
ghost use Rattle.sub_number.specs.Lines.{without_return};
ghost use Rattle.old_runs.specs.Places as spec;
ghost use Rattle.old_runs.specs.Lines as places;

use packet_codec::{Event, Status};

/// Where the next line stands.
#[derive(Clone, Copy)]
pub(crate) enum Place {
    /// Outside of details.
    Outside,
    /// Among lines of details, which go up to a bracket.
    Lines,
    /// Among the parts of a test.
    Parts,
}

impl Place {
    /// Where the next line stands behind this one, which gave these events.
    pub(crate) fn behind(self, line: &[u8], given: &[Event]) -> Place
        ensures { result ≡ spec.place_behind self line.now given.now }
    {
        match self {
            Place::Outside => begun_by(line, given),
            Place::Lines | Place::Parts => {
                if have_status(given) {
                    Place::Outside
                } else {
                    self
                }
            }
        }
    }

    /// Whether the next line stands among parts.
    pub(crate) fn is_parts(self) -> bool
        ensures { result ≡ places.is_parts self }
    {
        match self {
            Place::Outside | Place::Lines => false,
            Place::Parts => true,
        }
    }
}

// Where the next line stands behind one outside of details.
fn begun_by(line: &[u8], given: &[Event]) -> Place
    ensures { result ≡ spec.place_behind spec.outside_details line.now given.now }
{
    if given.is_empty() {
        place_begun(content(line))
    } else {
        Place::Outside
    }
}

// The same of a line that gave nothing, by its content.
fn place_begun(line: &[u8]) -> Place
    ensures { result ≡ spec.place_begun line.now }
{
    if !is_outcome(line) {
        return Place::Outside;
    }
    if line.ends_with(b"[") {
        Place::Lines
    } else {
        Place::Parts
    }
}

// Whether the line tells how a test ended.
fn is_outcome(line: &[u8]) -> bool
    ensures { result ≡ is_some (lines.outcome_of line.now) }
{
    line.starts_with(b"success: ")
        || line.starts_with(b"successful: ")
        || line.starts_with(b"failure: ")
        || line.starts_with(b"error: ")
        || line.starts_with(b"skip: ")
        || line.starts_with(b"xfail: ")
        || line.starts_with(b"uxsuccess: ")
}

// What the line says, without its newline and a carriage return before it.
fn content(line: &[u8]) -> &[u8]
    ensures { result.now ≡ lines.content line.now }
{
    without_return(without_newline(line))
}

fn without_newline(line: &[u8]) -> &[u8]
    ensures { result.now ≡ lines.without_newline line.now }
{
    if line.ends_with(b"\n") {
        &line[..line.len() - 1]
    } else {
        line
    }
}

fn without_return(line: &[u8]) -> &[u8]
    ensures { result.now ≡ without_return line.now }
{
    if line.ends_with(b"\r") {
        &line[..line.len() - 1]
    } else {
        line
    }
}

// Whether one of the events is no piece of a file.
fn have_status(events: &[Event]) -> bool
    ensures { result ≡ list_any spec.has_status events.now }
{
    events.iter().any(|event| has_status(event))
}

fn has_status(event: &Event) -> bool
    ensures { result ≡ spec.has_status event.now }
{
    match event.status {
        Status::Unset => false,
        Status::Exists
        | Status::InProgress
        | Status::Success
        | Status::UxSuccess
        | Status::Skip
        | Status::Fail
        | Status::XFail => true,
    }
}
