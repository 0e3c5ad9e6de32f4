//! Records files as they are read, one after another: the first under lane 0, the next under lane 1, and so on.

ghost use Rattle.std.specs.Prelude.{◌≡◌, ℕ, ◌<◌, ◌≤◌, List, [], false, length, IfOk, IfErr, OnOk};
ghost use Rattle.edge_io.specs.Seen.{Seen};
ghost use Rattle.edge_io.specs.Spawners.{Spawning};
ghost use Rattle.edge_io.specs.Steps.{Goes, HasDraft};
ghost use Rattle.run_shelf.specs.Drafts.{SameButDraft};
ghost use Rattle.stream_reader.specs.Room.{most_held};
ghost use Rattle.suite_run.specs.Summed.{GivesSums};
ghost use Rattle.suite_run.specs.Aloud.{sinks};
ghost use Rattle.command_steps.specs.Hearing.{AnswersRecording, ClosesRecording, HearsMore, MayStop};
ghost use Rattle.command_steps.specs.Speaking.{WritesAloud, SaysPart};
ghost use Rattle.command_steps.specs.Files.{RecordsSources, HearsSources, summary_of, RecordsInTurn, RecordsFile, RecordsFilePieces, HasFileCause, HasFilesCause};
ghost use Rattle.command_steps.specs.Outside.{work, filed};
ghost use Rattle.worker_lane.specs.Scribing.{Recording};

use crate::input_recorder::{RecordFault, record_input, write_packets};
use crate::live_lines::Silenced;
use edge_io::{Found, MOST_BYTES, PIECE, Shelf, Sink, Site, Source};
use outcome_fold::Summary;
use packet_codec::Tags;
use std::alloc::Global;
use std::str;
use sub_number::{IdList, Text};
use suite_run::{Closed, Hearing, RunListener, Shown};
use worker_lane::Scribe;
use worker_mux::Listener;

/// What was recorded of sources.
#[derive(Drop)]
pub struct Recorded {
    /// What is kept of the rows of what was recorded.
    pub summary: Summary,
    /// The end of the lines, which is left to say.
    pub end: Vec<u8>,
}

/// Records the input where no file is named, else the files, of which there are 64 at most, behind the draft that was begun,
/// and gives what is kept of the rows of what was written. No tag filters.
///
/// As it is recorded it is said: its lines to `errors`, up to their end, and its packets to `out`, as `shown` asks.
/// `silenced` tells then which of them have failed.
pub fn record_sources<'a, H: Shelf, F: Site, I: Source, E: Sink, O: Sink>(
    alloc: Global,
    names: &'a IdList,
    shelf: &mut H,
    site: &mut F,
    input: &mut I,
    shown: Shown,
    errors: &mut E,
    out: &mut O,
    silenced: &mut Silenced,
) -> Result<Recorded, RecordFault<'a>>
    requires few { length names.now ≤ 64 }
    requires draft { HasDraft (H.seen shelf.old).told }
    ensures step { GivesSums [] (λ rows. (spawner : Seen Spawning) (printed : Seen (List ℕ)) → RecordsSources names.now
        (work (H.seen shelf.old) (F.seen site.old) spawner (I.seen input.old) printed)
        (work (H.seen shelf.new) (F.seen site.new) spawner (I.seen input.new) printed)
        rows) (summary_of result) }
    ensures draft { OnOk result (HasDraft (H.seen shelf.new).told) }
    ensures rests { Goes (H.seen shelf.old).told (H.seen shelf.new).told SameButDraft }
    ensures aloud { IfOk result (λ recorded. WritesAloud shown [] (H.seen shelf.old).told (H.seen shelf.new).told (sinks (E.seen errors.old) (O.seen out.old)) (sinks (E.seen errors.new) (O.seen out.new)) silenced.new recorded.end.items recorded.summary) }
    ensures some { IfErr result (λ _. SaysPart shown (sinks (E.seen errors.old) (O.seen out.old)) (sinks (E.seen errors.new) (O.seen out.new)) silenced.new) }
{
    let mut ear = RunListener {
        hearing: Hearing::new(alloc, Tags::new(alloc), shown.live),
        echo: shown.echo,
        errors,
        errors_failed: false,
        out,
        out_failed: false,
    };
    let done = record_heard(alloc, names, shelf, site, input, &mut ear);
    let RunListener {
        hearing,
        echo: _,
        errors,
        errors_failed,
        out,
        out_failed,
    } = ear;
    hand_back(errors);
    hand_back(out);
    silenced.errors = errors_failed;
    silenced.out = out_failed;
    answer_of(done, hearing)
}

// Why it was not recorded; or what was heard, closed.
fn answer_of<'a>(
    done: Result<(), RecordFault<'a>>,
    hearing: Hearing,
) -> Result<Recorded, RecordFault<'a>>
    ensures { AnswersRecording done.entry hearing result }
{
    match done {
        Ok(()) => close(hearing),
        Err(fault) => Err(fault),
    }
}

// What was heard, closed.
fn close(hearing: Hearing) -> Result<Recorded, RecordFault<'static>>
    ensures { ClosesRecording hearing result }
{
    let Closed { summary, end } = hearing.close()?;
    Ok(Recorded { summary, end })
}

// The sink is with its lender again.
fn hand_back<E: Sink>(sink: &mut E)
    ensures { sink.new ≡ sink.old }
{}

// Records the input where no file is named, else the files, and lets what was written be heard.
fn record_heard<'a, H: Shelf, F: Site, I: Source, L: Listener>(
    alloc: Global,
    names: &'a IdList,
    shelf: &mut H,
    site: &mut F,
    input: &mut I,
    listener: &mut L,
) -> Result<(), RecordFault<'a>>
    requires few { length names.now ≤ 64 }
    requires draft { HasDraft (H.seen shelf.old).told }
    ensures recorded { HearsSources names.now
        (filed (H.seen shelf.old) (F.seen site.old)) (I.seen input.old)
        (filed (H.seen shelf.new) (F.seen site.new)) (I.seen input.new)
        (HearsMore L.heard listener.old listener.new) result }
    ensures draft { OnOk result (HasDraft (H.seen shelf.new).told) }
    ensures rests { Goes (H.seen shelf.old).told (H.seen shelf.new).told SameButDraft }
    ensures stops { MayStop L.heard L.keeps listener.old listener.new }
{
    match names.list() {
        [] => record_input(alloc, shelf, input, listener),
        list => record_each(alloc, list, shelf, site, listener),
    }
}

// Records each of the files, of which there are 64 at most, under the lane of its place.
fn record_each<'a, H: Shelf, F: Site, L: Listener>(
    alloc: Global,
    names: &'a [Text],
    shelf: &mut H,
    site: &mut F,
    listener: &mut L,
) -> Result<(), RecordFault<'a>>
    requires few { length names.now ≤ 64 }
    requires draft { HasDraft (H.seen shelf.old).told }
    ensures recorded { OnOk result ((bytes : List ℕ) × RecordsInTurn names.now
        (filed (H.seen shelf.old) (F.seen site.old))
        (filed (H.seen shelf.new) (F.seen site.new))
        bytes × HearsMore L.heard listener.old listener.new bytes) }
    ensures draft { OnOk result (HasDraft (H.seen shelf.new).told) }
    ensures rests { Goes (H.seen shelf.old).told (H.seen shelf.new).told SameButDraft }
    ensures files { (F.seen site.new).told ≡ (F.seen site.old).told }
    ensures refused { IfErr result (HasFilesCause names.now
        (filed (H.seen shelf.old) (F.seen site.old))
        (filed (H.seen shelf.new) (F.seen site.new))) }
    ensures stops { MayStop L.heard L.keeps listener.old listener.new }
{
    let mut packets = Vec::new(alloc);
    let mut lane = 0;
    for name in names {
        record_file(
            alloc,
            lane,
            name_of(name),
            shelf,
            site,
            listener,
            &mut packets,
        )?;
        lane += 1;
    }
    Ok(())
}

// The text as words.
pub(crate) fn name_of(name: &Text) -> &str
    ensures { result.now ≡ name.now }
{
    match str::from_utf8(name.bytes()) {
        Ok(name) => name,
        Err(_) => unreachable!(),
    }
}

// Records the file under the lane.
fn record_file<'a, H: Shelf, F: Site, L: Listener>(
    alloc: Global,
    lane: u32,
    name: &'a str,
    shelf: &mut H,
    site: &mut F,
    listener: &mut L,
    packets: &mut Vec<u8>,
) -> Result<(), RecordFault<'a>>
    requires lane { lane < 64 }
    requires draft { HasDraft (H.seen shelf.old).told }
    requires empty { packets.old.items ≡ [] }
    ensures recorded { OnOk result (RecordsFile lane name.now
        (filed (H.seen shelf.old) (F.seen site.old))
        (filed (H.seen shelf.new) (F.seen site.new))
        (HearsMore L.heard listener.old listener.new)) }
    ensures draft { OnOk result (HasDraft (H.seen shelf.new).told) }
    ensures empty { OnOk result (packets.new.items ≡ []) }
    ensures rests { Goes (H.seen shelf.old).told (H.seen shelf.new).told SameButDraft }
    ensures files { (F.seen site.new).told ≡ (F.seen site.old).told }
    ensures refused { IfErr result (HasFileCause name.now
        (filed (H.seen shelf.old) (F.seen site.old))
        (filed (H.seen shelf.new) (F.seen site.new))) }
    ensures stops { MayStop L.heard L.keeps listener.old listener.new }
{
    let mut scribe = Scribe::new(alloc, lane)?;
    record_pieces(name, shelf, site, &mut scribe, listener, packets)?;
    scribe.finish();
    write_packets(shelf, &mut scribe, listener, packets)
}

// Records the file piece by piece, up to its end, which the scribe is not told.
fn record_pieces<'a, H: Shelf, F: Site, L: Listener>(
    name: &'a str,
    shelf: &mut H,
    site: &mut F,
    scribe: &mut Scribe,
    listener: &mut L,
    packets: &mut Vec<u8>,
) -> Result<(), RecordFault<'a>>
    requires draft { HasDraft (H.seen shelf.old).told }
    requires going_on { scribe.old.held.ended ≡ false }
    requires held { length scribe.old.held.bytes ≤ most_held }
    requires recording { Recording [] scribe.old [] }
    requires empty { packets.old.items ≡ [] }
    ensures recorded { OnOk result (RecordsFilePieces name.now
        (filed (H.seen shelf.old) (F.seen site.old))
        (filed (H.seen shelf.new) (F.seen site.new))
        scribe.new (HearsMore L.heard listener.old listener.new)) }
    ensures draft { OnOk result (HasDraft (H.seen shelf.new).told) }
    ensures lane { OnOk result (scribe.new.lane ≡ scribe.old.lane) }
    ensures going_on { OnOk result (scribe.new.held.ended ≡ false) }
    ensures empty { OnOk result (packets.new.items ≡ []) }
    ensures rests { Goes (H.seen shelf.old).told (H.seen shelf.new).told SameButDraft }
    ensures files { (F.seen site.new).told ≡ (F.seen site.old).told }
    ensures refused { IfErr result (HasFileCause name.now
        (filed (H.seen shelf.old) (F.seen site.old))
        (filed (H.seen shelf.new) (F.seen site.new))) }
    ensures stops { MayStop L.heard L.keeps listener.old listener.new }
{
    let mut piece = [0u8; PIECE];
    let mut total = 0;
    loop {
        let Ok(found) = site.read_at(name, total as u64, &mut piece) else {
            return Err(RecordFault::Site);
        };
        let Found::Read(count) = found else {
            return Err(RecordFault::NoFile(name));
        };
        if count == 0 {
            return Ok(());
        }
        total += count;
        if total > MOST_BYTES {
            return Err(RecordFault::FileTooLong(name));
        }
        scribe.feed(&piece[..count]);
        write_packets(shelf, scribe, listener, packets)?;
    }
}
