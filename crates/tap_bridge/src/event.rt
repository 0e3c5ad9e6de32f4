//! The events of lines.

ghost use Rattle.std.specs.Prelude.{◌≡◌, [], ◌++◌, None, ◌≤◌, length, All, IfOk, IfSome, OnOk};
ghost use Rattle.std.specs.Option.{option_map};
ghost use Rattle.sub_number.specs.Lines.{with_newline};
ghost use Rattle.tap_bridge.specs.Events as spec;
ghost use Rattle.packet_codec.specs.declared.status.Status.TheVariants.{Fail};
ghost use Rattle.packet_codec.specs.Canonical.{Fits};
ghost use Rattle.stream_reader.specs.Notes.{stdout_event as event_of_output};
ghost use Rattle.tap_bridge.specs.Kept.{IsShortFile};

use crate::directive::Directive;
use crate::ids::{TestId, id_of, test_id};
use crate::plan::Plan;
use packet_codec::{Event, FilePart, Status};
use std::alloc::Global;
use stream_reader::stdout_event;
use sub_number::{Bytes, NoMemory, Text};

// The MIME type of the file, where there is one.
fn mime_of(alloc: Global, file: &Option<FilePart>) -> Result<Option<Text>, NoMemory>
    ensures { IfOk result (λ mime. mime ≡ option_map (λ part. spec.comment_mime) file.now) }
{
    if file.is_none() {
        return Ok(None);
    }
    let mime = Text::from_tested(alloc, b"text/plain; charset=UTF8")?;
    Ok(Some(mime))
}

/// The event of the test of this id, with this file.
pub(crate) fn test_event(
    alloc: Global,
    id: TestId,
    status: Status,
    file: Option<FilePart>,
) -> Result<Event, NoMemory>
    requires { IfSome file IsShortFile }
    ensures event { IfOk result (λ event. event ≡ spec.event_with_id id status file) }
    ensures fits { IfOk result Fits }
{
    let id = id.into_text();
    Ok(Event {
        stamp: None,
        id: Some(id),
        tags: None,
        runnable: true,
        status,
        mime: mime_of(alloc, &file)?,
        file,
        eof: false,
        route: None,
    })
}

/// The status of a test that passed or did not, with this directive.
pub(crate) fn status_of(passed: bool, directive: Option<Directive>) -> Status
    ensures { result ≡ spec.tap_status passed directive }
{
    match directive {
        Some(Directive::Skip) => Status::Skip,
        Some(Directive::Todo) => Status::XFail,
        None => {
            if passed {
                Status::Success
            } else {
                Status::Fail
            }
        }
    }
}

// The event of the missing test of this number.
fn missing_event(alloc: Global, number: u64) -> Result<Event, NoMemory>
    ensures event { IfOk result (λ event. event ≡ spec.missing_event number) }
    ensures fits { IfOk result Fits }
{
    let mut name = Vec::with_capacity(alloc, 32)?;
    let id = test_id(alloc, number, b"", &mut name)?;
    let file = FilePart {
        name: Text::from_tested(alloc, b"tap meta")?,
        bytes: Bytes::new(alloc, b"test missing from TAP output")?,
    };
    test_event(alloc, id, Status::Fail, Some(file))
}

/// Appends the events of the missing tests from the one number up to the other, without it.
///
/// After `NoMemory` nothing is known of the events.
pub(crate) fn add_missing(
    alloc: Global,
    first: u64,
    behind: u64,
    events: &mut Vec<Event>,
) -> Result<(), NoMemory>
    ensures events { OnOk result (events.new.items ≡ events.old.items ++ spec.missing_events first behind) }
    ensures fits { All Fits events.old.items → OnOk result (All Fits events.new.items) }
{
    for number in first..behind {
        events.push(missing_event(alloc, number)?)?;
    }
    Ok(())
}

/// Appends the event of a plan of no tests that skips them, where it is one.
///
/// After `NoMemory` nothing is known of the events.
pub(crate) fn add_skipped_file(
    alloc: Global,
    plan: Plan,
    events: &mut Vec<Event>,
) -> Result<(), NoMemory>
    ensures events { OnOk result (events.new.items ≡ events.old.items ++ spec.skipped_file plan) }
    ensures fits { All Fits events.old.items → OnOk result (All Fits events.new.items) }
{
    if plan.skipped && plan.tests == 0 {
        let id = id_of(alloc, b"file skip")?;
        events.push(test_event(alloc, id, Status::Skip, None)?)?;
    }
    Ok(())
}

/// The event of a line that gives the run up.
pub(crate) fn bail_out_event(alloc: Global, line: &[u8]) -> Result<Event, NoMemory>
    requires { length line.now ≤ spec.longest_tap_line }
    ensures event { IfOk result (λ event. event ≡ spec.event_with_name line.now Fail None) }
    ensures fits { IfOk result Fits }
{
    let id = id_of(alloc, line)?;
    test_event(alloc, id, Status::Fail, None)
}

/// The line and a newline as a piece of the file `stdout`.
pub(crate) fn output_event(alloc: Global, line: &[u8]) -> Result<Event, NoMemory>
    requires { length line.now ≤ spec.longest_tap_line }
    ensures event { IfOk result (λ event. event ≡ event_of_output (with_newline line.now)) }
    ensures fits { IfOk result Fits }
{
    let mut bytes = Vec::with_capacity(alloc, line.len() + 1)?;
    bytes.extend_from_slice(line)?;
    bytes.push(b'\n')?;
    let event = stdout_event(alloc, Bytes::from_vec(bytes))?;
    Ok(event)
}
