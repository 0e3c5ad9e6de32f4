//! The row of some events of a test.

ghost use Rattle.std.specs.Prelude.{◌≡◌, [], IfOk, if◌then◌else◌};
ghost use Rattle.outcome_fold.specs.Parts as parts;
ghost use Rattle.outcome_fold.specs.Files as files_are;
ghost use Rattle.outcome_fold.specs.Rows as rows;

use outcome_fold::{
    Ended, KeptFiles, KeptText, Row, TestKey, file_name_in, instant_of, reason_in, sorted_tags,
    text_in,
};
use packet_codec::Event;
use std::alloc::Global;
use sub_number::{Bytes, NoMemory, Text};

/// The instant of the first event, in nanoseconds since 1970 in UTC, where it has one.
pub fn start_of(part: &[Event]) -> Option<u64>
    ensures { result ≡ parts.start_of part.now }
{
    match part.first() {
        Some(event) => instant_of(event),
        None => None,
    }
}

// The tags of the last event that has tags.
fn last_tags(part: &[Event]) -> &[Text]
    ensures { result.now ≡ parts.last_tags part.now }
{
    let mut last: &[Text] = &[];
    for event in part {
        if let Some(tags) = &event.tags {
            last = tags.list();
        }
    }
    last
}

// The files of text, as far as they are kept.
fn kept_files(alloc: Global, part: &[Event]) -> Result<KeptFiles, NoMemory>
    ensures { IfOk result (λ files. files ≡ files_are.files_of part.now) }
{
    let mut files = KeptFiles::new(alloc);
    for event in part {
        files.append(alloc, file_name_in(event), text_in(event))?;
    }
    Ok(files)
}

// The text that shows them.
fn text_of(alloc: Global, part: &[Event]) -> Result<Bytes, NoMemory>
    ensures { IfOk result (λ text. text ≡ files_are.text_of part.now) }
{
    kept_files(alloc, part)?.shown(alloc)
}

// The text of a row that ended so: that of its events where the row fails, else none.
fn row_text(alloc: Global, ended: Ended, part: &[Event]) -> Result<Bytes, NoMemory>
    ensures { IfOk result (λ text. text ≡ (if rows.is_failure ended then files_are.text_of part.now else [])) }
{
    if ended.fails() {
        text_of(alloc, part)
    } else {
        Ok(Bytes::from_vec(Vec::new(alloc)))
    }
}

// The first bytes of the files named `reason`, joined.
fn kept_reason(alloc: Global, part: &[Event]) -> Result<KeptText, NoMemory>
    ensures { IfOk result (λ reason. reason ≡ parts.reason_of part.now) }
{
    let mut reason = KeptText::new(alloc);
    for event in part {
        reason.append_reason(reason_in(event))?;
    }
    Ok(reason)
}

// Their first line.
fn reason_of(alloc: Global, part: &[Event]) -> Result<Bytes, NoMemory>
    ensures { IfOk result (λ reason. reason ≡ parts.first_text_line (parts.reason_of part.now)) }
{
    let reason = kept_reason(alloc, part)?;
    Ok(reason.into_first_line())
}

// The reason of a row that ended so: that of its events where the test was skipped, else none.
fn row_reason(alloc: Global, ended: Ended, part: &[Event]) -> Result<Bytes, NoMemory>
    ensures { IfOk result (λ reason. reason ≡ (if rows.is_skip ended then parts.first_text_line (parts.reason_of part.now) else [])) }
{
    if ended == Ended::Skip {
        reason_of(alloc, part)
    } else {
        Ok(Bytes::from_vec(Vec::new(alloc)))
    }
}

/// The row of a part of the test, which ended so and took this long.
pub fn part_row(
    alloc: Global,
    key: TestKey,
    ended: Ended,
    nanos: Option<u64>,
    part: &[Event],
) -> Result<Row, NoMemory>
    ensures { IfOk result (λ row. row ≡ rows.row_of key ended nanos part.now) }
{
    let tags = sorted_tags(alloc, last_tags(part))?;
    let text = row_text(alloc, ended, part)?;
    let reason = row_reason(alloc, ended, part)?;
    let TestKey { route, id } = key;
    Ok(Row {
        id,
        route,
        ended,
        tags,
        nanos,
        text,
        reason,
    })
}
