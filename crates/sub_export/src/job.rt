//! A job: the events that words ask for.

ghost use Rattle.std.specs.Prelude.{◌≡◌, map, codes, IsTrue, IfOk, IfSome};
ghost use Rattle.std.specs.Option.{option_map, option_and_then, unwrap_or};
ghost use Rattle.command_words.specs.Items.{texts};
ghost use Rattle.command_words.specs.Code.{item_meant};
ghost use Rattle.packet_codec.specs.Retagging.{if_any};
ghost use Rattle.sub_export.specs.Output as spec;
ghost use Rattle.sub_export.specs.Said.{told_meant, verdict_meant};

use crate::options::OutputOptions;
use crate::time_stamp::stamp_of;
use crate::told_items::{Said, Verdicts, has_refused, tags_in, value_of, verdicts_in, word_text};
use command_words::{Item, read_items};
use outcome_fold::copies_of;
use packet_codec::{Event, FilePart, Stamp, Status, Tags, size};
use std::alloc::Global;
use sub_number::{Bytes, NoMemory, Text};

/// A file whose pieces become events.
#[derive(Drop)]
pub(crate) struct Attachment {
    /// The path of the file that is read, where it is not standard input.
    pub path: Option<Text>,
    /// The name that it goes by.
    pub name: Text,
    /// Its type, where it is told.
    pub mime: Option<Text>,
}

/// What is told of a test.
#[derive(Drop)]
pub(crate) struct Job {
    /// When it is told, where that is said.
    pub stamp: Option<Stamp>,
    /// The test.
    pub id: Option<Text>,
    /// What became of it.
    pub status: Status,
    /// Its tags, which may be none.
    pub tags: Tags,
    /// The file that is attached, where one is.
    pub attachment: Option<Attachment>,
}

// A copy of the text, where there is one.
fn copied(text: &Option<Text>) -> Result<Option<Text>, NoMemory>
    ensures { IfOk result (λ copy. copy ≡ text.now) }
{
    match text {
        Some(text) => Ok(Some(text.copy()?)),
        None => Ok(None),
    }
}

// Copies of the tags, where there are some.
fn tags_if_any(alloc: Global, tags: &Tags) -> Result<Option<Tags>, NoMemory>
    ensures { IfOk result (λ copies. copies ≡ if_any tags.now) }
{
    if tags.list().is_empty() {
        return Ok(None);
    }
    Ok(Some(copies_of(alloc, tags.list())?))
}

// The event of a piece of the attached file.
pub(crate) fn piece_of(
    alloc: Global,
    stamp: Option<Stamp>,
    id: &Option<Text>,
    attachment: &Attachment,
    bytes: &[u8],
) -> Result<Event, NoMemory>
    ensures { IfOk result (λ event. event ≡ spec.attachment_event stamp id.now attachment.now bytes.now) }
{
    let file = FilePart {
        name: attachment.name.copy()?,
        bytes: Bytes::new(alloc, bytes)?,
    };
    Ok(Event {
        stamp,
        id: copied(id)?,
        tags: None,
        runnable: true,
        status: Status::Unset,
        mime: copied(&attachment.mime)?,
        file: Some(file),
        eof: false,
        route: None,
    })
}

// The last event.
pub(crate) fn last_event(alloc: Global, job: &Job) -> Result<Event, NoMemory>
    ensures { IfOk result (λ event. event ≡ spec.last_event job.now) }
{
    Ok(Event {
        stamp: job.stamp,
        id: copied(&job.id)?,
        tags: tags_if_any(alloc, &job.tags)?,
        runnable: true,
        status: job.status,
        mime: None,
        file: None,
        eof: job.attachment.is_some(),
        route: None,
    })
}

const LARGEST_PACKET: u128 = 4_194_303;

const PIECE_SIZE: usize = 65_536;

fn has_packet(event: &Event) -> bool
    ensures { result ≡ spec.has_packet event.now }
{
    size(event) <= LARGEST_PACKET
}

// The event of a piece that is as long as one may be.
#[tactic(auto, unfolding(crate::specs::Output::longest_bytes))]
fn longest_piece(
    alloc: Global,
    stamp: Option<Stamp>,
    id: &Option<Text>,
    attachment: &Attachment,
) -> Result<Event, NoMemory>
    ensures { IfOk result (λ event. event ≡ spec.attachment_event stamp id.now attachment.now spec.longest_bytes) }
{
    piece_of(alloc, stamp, id, attachment, &[0; PIECE_SIZE])
}

// Whether the event of the longest piece has a packet.
fn longest_piece_fits(
    alloc: Global,
    stamp: Option<Stamp>,
    id: &Option<Text>,
    attachment: &Option<Attachment>,
) -> Result<bool, NoMemory>
    ensures { IfOk result (λ fits. fits ≡ spec.longest_piece_fits stamp id.now attachment.now) }
{
    match attachment {
        Some(attachment) => {
            let piece = longest_piece(alloc, stamp, id, attachment)?;
            Ok(has_packet(&piece))
        }
        None => Ok(true),
    }
}

// Whether each event of the job has a packet.
fn job_fits(alloc: Global, job: &Job) -> Result<bool, NoMemory>
    ensures { IfOk result (λ fits. fits ≡ spec.job_fits job.now) }
{
    let last = last_event(alloc, job)?;
    if !has_packet(&last) {
        return Ok(false);
    }
    longest_piece_fits(alloc, job.stamp, &job.id, &job.attachment)
}

// The name that a file has of its own.
fn own_name(alloc: Global, file: &str) -> Result<Text, NoMemory>
    ensures { IfOk result (λ text. text ≡ spec.own_name file.now) }
{
    if file == "-" {
        return word_text(alloc, "stdin");
    }
    word_text(alloc, file)
}

// The name that a file goes by.
fn name_or_own(alloc: Global, name: Option<&str>, file: &str) -> Result<Text, NoMemory>
    ensures { IfOk result (λ text. text ≡ unwrap_or (option_map (λ name. name.now) name.entry) (spec.own_name file.now)) }
{
    match name {
        Some(name) => word_text(alloc, name),
        None => own_name(alloc, file),
    }
}

// The path of the file that is read, where it is not standard input.
fn path_named(alloc: Global, file: &str) -> Result<Option<Text>, NoMemory>
    ensures { IfOk result (λ path. path ≡ spec.path_named file.now) }
{
    if file == "-" {
        return Ok(None);
    }
    Ok(Some(word_text(alloc, file)?))
}

// The word as a text, where there is one.
fn text_if(alloc: Global, word: Option<&str>) -> Result<Option<Text>, NoMemory>
    ensures { IfOk result (λ text. text ≡ option_map (λ word. word.now) word.entry) }
{
    match word {
        Some(word) => Ok(Some(word_text(alloc, word)?)),
        None => Ok(None),
    }
}

// The values of the options that stand, and the tags.
#[derive(Drop)]
struct Told<'a> {
    verdict: Option<Said<'a>>,
    tags: Tags,
    attached: Option<&'a str>,
    name: Option<&'a str>,
    mime: Option<&'a str>,
    time: Option<&'a str>,
}

// Whether what is told agrees.
fn agrees(told: &Told<'_>) -> bool
    ensures { result ≡ spec.agrees (told_meant told.now) }
{
    let has_status = told.verdict.is_some();
    let has_file = told.attached.is_some();
    (has_status || has_file)
        && (has_status || told.tags.list().is_empty())
        && (has_file || !(told.name.is_some() || told.mime.is_some()))
}

// The attached file, where one is told.
fn attachment_with(alloc: Global, told: &Told<'_>) -> Result<Option<Attachment>, NoMemory>
    ensures { IfOk result (λ attachment. attachment ≡ (spec.job_with (told_meant told.now)).attachment) }
{
    match told.attached {
        Some(file) => Ok(Some(Attachment {
            path: path_named(alloc, file)?,
            name: name_or_own(alloc, told.name, file)?,
            mime: text_if(alloc, told.mime)?,
        })),
        None => Ok(None),
    }
}

// The stamp of the time that is told, where one is.
fn stamp_told(time: Option<&str>) -> Option<Stamp>
    ensures { result ≡ option_and_then spec.stamp_told (option_map (λ time. time.now) time.entry) }
{
    match time {
        Some(time) => stamp_of(time),
        None => None,
    }
}

// The job of what is told.
fn job_with(alloc: Global, told: Told<'_>) -> Result<Job, NoMemory>
    ensures { IfOk result (λ job. job ≡ spec.job_with (told_meant told.entry)) }
{
    let attachment = attachment_with(alloc, &told)?;
    let stamp = stamp_told(told.time);
    match told.verdict {
        Some(said) => Ok(Job {
            stamp,
            id: Some(word_text(alloc, said.id)?),
            status: said.status,
            tags: told.tags,
            attachment,
        }),
        None => Ok(Job {
            stamp,
            id: None,
            status: Status::Unset,
            tags: told.tags,
            attachment,
        }),
    }
}

// The same, where what is told agrees and each event has a packet.
fn job_if(alloc: Global, told: Told<'_>) -> Result<Option<Job>, NoMemory>
    ensures job { IfOk result (λ job. job ≡ spec.job_if (told_meant told.entry)) }
    ensures fits { IfOk result (λ job. IfSome job (λ job. IsTrue (spec.job_fits job))) }
{
    if !agrees(&told) {
        return Ok(None);
    }
    let job = job_with(alloc, told)?;
    if !job_fits(alloc, &job)? {
        return Ok(None);
    }
    Ok(Some(job))
}

// What the items tell, beside the verdict.
fn told_by<'a>(
    alloc: Global,
    items: &[Item<'a>],
    verdict: Option<Said<'a>>,
) -> Result<Told<'a>, NoMemory>
    ensures { IfOk result (λ told. told_meant told ≡ spec.told_by (map item_meant items.now) (option_map verdict_meant verdict.entry)) }
{
    Ok(Told {
        verdict,
        tags: tags_in(alloc, items)?,
        attached: value_of("--attach-file", items),
        name: value_of("--file-name", items),
        mime: value_of("--mimetype", items),
        time: value_of("--timestamp", items),
    })
}

// The job that the items ask for.
fn job_behind(alloc: Global, items: &[Item<'_>]) -> Result<Option<Job>, NoMemory>
    ensures job { IfOk result (λ job. job ≡ spec.job_behind (map item_meant items.now)) }
    ensures fits { IfOk result (λ job. IfSome job (λ job. IsTrue (spec.job_fits job))) }
{
    if has_refused(items) {
        return Ok(None);
    }
    match verdicts_in(items) {
        Verdicts::Nothing => job_if(alloc, told_by(alloc, items, None)?),
        Verdicts::Once(verdict) => job_if(alloc, told_by(alloc, items, Some(verdict))?),
        Verdicts::Several => Ok(None),
    }
}

/// The job that the words ask for. None comes exactly where they are no command.
pub(crate) fn job_of(alloc: Global, words: &[String]) -> Result<Option<Job>, NoMemory>
    ensures job { IfOk result (λ job. job ≡ spec.job_of (texts words.now)) }
    ensures fits { IfOk result (λ job. IfSome job (λ job. IsTrue (spec.job_fits job))) }
{
    match read_items(alloc, &OutputOptions, words)? {
        Some(items) => job_behind(alloc, &items),
        None => Ok(None),
    }
}
