//! One run: begun, added to and finished, and read, over a folder that is lent for the call or held.

ghost use Rattle.std.specs.Prelude.{◌≡◌, ◌<◌, ◌++◌, ◌∷◌, [], length, IfSome, IfOk, IfErr, OnOk, OnErr};
ghost use Rattle.std.specs.Io.{ReadsAtMost};
ghost use Rattle.edge_io.specs.Causes.{HasCause, RisesExactlyIf};
ghost use Rattle.edge_io.specs.Steps.{Goes, Stays, Ticks, HasDraft, Opened, Dropped, Grown, GrownInPart};
ghost use Rattle.run_shelf.specs.Clocks.{TicksAsPlaced, TicksAsCommitted};
ghost use Rattle.run_shelf.specs.Drafts.{OfDraft, PlaceFails};
ghost use Rattle.run_shelf.specs.Holds.{kinds_of, HasRoom, FitsWhereTold};
ghost use Rattle.run_shelf.specs.Images.{KeepsRun, PassesRun, PassesOld};
ghost use Rattle.run_shelf.specs.Outcomes.{IsRunLength, IsRunPart, TicksAtMost, TicksUpTo};
ghost use Rattle.run_shelf.specs.Repository.{run_of, run_name, most_runs};
ghost use Rattle.run_shelf.specs.declared.faults.ShelfCall.TheVariants.{Length, ReadAt, StartDraft, Append};

use crate::file::place_draft;
use crate::{Found, ShelfCall, Store, StoreFault, names};
use edge_io::Shelf;

/// Begins a run: an empty draft, in place of any other. It takes no memory and makes one call of the folder. The error is
/// that call, where it failed; there is no draft then. The files are as before at each exit.
///
/// A run that was begun and is not finished is in no image that a stop may leave, so it needs no call to give it up.
pub fn begin_run<H: Shelf>(shelf: &mut H) -> Result<(), ShelfCall>
    ensures begun { OnOk result (Goes (H.seen shelf.old).told (H.seen shelf.new).told Opened) }
    ensures not_begun { OnErr result (Goes (H.seen shelf.old).told (H.seen shelf.new).told Dropped) }
    ensures failed { IfErr result (λ call. call ≡ StartDraft) }
    ensures any_moment { Goes (H.seen shelf.old).told (H.seen shelf.new).told PassesOld }
    ensures time { Ticks (H.clock shelf.old) (H.clock shelf.new) }
    ensures cause { HasCause (H.seen shelf.old).faults (H.seen shelf.new).faults result }
{
    let Ok(()) = shelf.start_draft() else {
        return Err(ShelfCall::StartDraft);
    };
    Ok(())
}

/// Adds the packet to the run that was begun, behind those added before. It takes no memory and makes one call of the
/// folder. The error is that call, where it failed; some of the packet's first bytes may then have been added, so that the
/// run is not to be finished. The files are as before at each exit.
pub fn add_packet<H: Shelf>(shelf: &mut H, packet: &[u8]) -> Result<(), ShelfCall>
    requires { HasDraft (H.seen shelf.old).told }
    ensures added { OnOk result (Goes (H.seen shelf.old).told (H.seen shelf.new).told (Grown packet.now)) }
    ensures not_added { OnErr result (Goes (H.seen shelf.old).told (H.seen shelf.new).told (GrownInPart packet.now)) }
    ensures failed { IfErr result (λ call. call ≡ Append) }
    ensures any_moment { Goes (H.seen shelf.old).told (H.seen shelf.new).told PassesOld }
    ensures time { Ticks (H.clock shelf.old) (H.clock shelf.new) }
    ensures cause { HasCause (H.seen shelf.old).faults (H.seen shelf.new).faults result }
{
    let Ok(()) = shelf.append(packet) else {
        return Err(ShelfCall::Append);
    };
    Ok(())
}

/// Keeps what was added as the run behind all others, and answers its number, which is how many runs there were. It takes
/// no memory, and makes at most three calls of the folder. There must be room for the run in what was found, which must fit
/// the folder, and fewer than 1,000,000 runs.
///
/// At `Ok` each later stop leaves the run and those before it. The error is the call of the folder that failed, and no call
/// was made behind it: before the publish the files are as they were, at it the run is there or not, after it the run is
/// there. A stop at any moment leaves what one before the call might have left, or the files as read before it with the run
/// beside them.
pub fn finish_run<H: Shelf>(
    shelf: &mut H,
    found: &mut Found,
    partial: bool,
) -> Result<u32, ShelfCall>
    requires few { length (kinds_of found.old) < most_runs }
    requires room { HasRoom found.old }
    requires fits { FitsWhereTold (kinds_of found.old) (H.seen shelf.old).told }
    requires draft { HasDraft (H.seen shelf.old).told }
    ensures number { IfOk result (λ number. number ≡ length (kinds_of found.old)) }
    ensures kept { OnOk result (Goes (H.seen shelf.old).told (H.seen shelf.new).told (OfDraft (λ bytes. KeepsRun (length (kinds_of found.old)) (run_of partial bytes)))) }
    ensures fits { OnOk result (FitsWhereTold (kinds_of found.new) (H.seen shelf.new).told) }
    ensures kinds { OnOk result (kinds_of found.new ≡ kinds_of found.old ++ partial ∷ []) }
    ensures kinds_err { OnErr result (kinds_of found.new ≡ kinds_of found.old) }
    ensures failed { IfErr result (λ call. Goes (H.seen shelf.old).told (H.seen shelf.new).told (OfDraft (λ bytes. PlaceFails (run_name (length (kinds_of found.old)) partial) bytes call))) }
    ensures any_moment { Goes (H.seen shelf.old).told (H.seen shelf.new).told (OfDraft (λ bytes. PassesRun (length (kinds_of found.old)) (run_of partial bytes))) }
    ensures calls { TicksAsPlaced result (H.clock shelf.old) (H.clock shelf.new) }
    ensures time { TicksUpTo 3 (H.clock shelf.old) (H.clock shelf.new) }
    ensures cause { HasCause (H.seen shelf.old).faults (H.seen shelf.new).faults result }
{
    let number = found.runs();
    let name = names::run_name(number, partial);
    place_draft(shelf, name.as_str())?;
    found.add(partial);
    Ok(number)
}

/// How many bytes the run of this number has, which must be one of those found. It takes no memory and makes one call of
/// the folder, in which nothing changes. The error is that call, where it failed.
pub fn run_length<H: Shelf>(shelf: &mut H, found: &Found, number: u32) -> Result<u64, ShelfCall>
    requires known { number < length (kinds_of found.now) }
    requires fits { FitsWhereTold (kinds_of found.now) (H.seen shelf.old).told }
    ensures size { IfOk result (λ size. IfSome (H.seen shelf.old).told (IsRunLength number size)) }
    ensures failed { IfErr result (λ call. call ≡ Length) }
    ensures same { Goes (H.seen shelf.old).told (H.seen shelf.new).told Stays }
    ensures time { Ticks (H.clock shelf.old) (H.clock shelf.new) }
    ensures cause { HasCause (H.seen shelf.old).faults (H.seen shelf.new).faults result }
{
    let name = names::run_name(number, found.partial(number));
    let Ok(size) = shelf.length(name.as_str()) else {
        return Err(ShelfCall::Length);
    };
    Ok(size.unwrap_or(0))
}

/// Moves bytes of the run of this number, which must be one of those found, into the front of `buf`: from the byte number
/// `place` on as many as are there and fit. It answers how many. It takes no memory and makes at most one call of the
/// folder, in which nothing changes. The error is that call, where it failed.
pub fn read_run<H: Shelf>(
    shelf: &mut H,
    found: &Found,
    number: u32,
    place: u64,
    buf: &mut [u8],
) -> Result<usize, ShelfCall>
    requires known { number < length (kinds_of found.now) }
    requires fits { FitsWhereTold (kinds_of found.now) (H.seen shelf.old).told }
    ensures bound { ReadsAtMost result buf.new }
    ensures part { IfOk result (λ count. IfSome (H.seen shelf.old).told (IsRunPart number place buf.new count)) }
    ensures failed { IfErr result (λ call. call ≡ ReadAt) }
    ensures same { Goes (H.seen shelf.old).told (H.seen shelf.new).told Stays }
    ensures time { TicksAtMost (H.clock shelf.old) (H.clock shelf.new) }
    ensures cause { HasCause (H.seen shelf.old).faults (H.seen shelf.new).faults result }
{
    if buf.is_empty() {
        return Ok(0);
    }
    let name = names::run_name(number, found.partial(number));
    let Ok(count) = shelf.read_at(name.as_str(), place, buf) else {
        return Err(ShelfCall::ReadAt);
    };
    Ok(count)
}

/// What is known of a run that was begun: the runs of the repository, with room for one more, whether it is partial, and
/// the call of the folder that failed.
#[derive(Drop)]
pub struct Recording {
    pub found: Found,
    pub partial: bool,
    pub fault: Option<ShelfCall>,
    ghost few: { length (kinds_of found) < 1000000 },
    ghost room: { HasRoom found },
}

/// The recording of one run. Each packet is written as it is added, behind those added before, and the run becomes one of
/// the repository's at the commit. After a fault of the folder it is closed, and so is the store that it gives back.
///
/// A run that is dropped, or whose recorder is let go, leaves the runs as they were, and so does a stop before the commit.
#[derive(Drop)]
pub struct Recorder<'h, H: Shelf> {
    /// The folder. Whoever adds to the run by calls of its own, as `add_packet`, keeps the fault in `recording`.
    pub shelf: &'h mut H,
    /// What is known of the run.
    pub recording: Recording,
}

impl<'h, H: Shelf> Recorder<'h, H> {
    ghost use Rattle.run_shelf.specs.Stores.{store_kinds, store_fault, store_failed, recorder_kinds, recorder_partial, recorder_fault, RecordsUnlessBroken, Closes, AddFails, FinishFails, PassesRecorded};

    // A recorder over this folder.
    pub(crate) fn over(shelf: &'h mut H, recording: Recording) -> Recorder<'h, H>
        ensures same_reference { result.shelf.ghost_name ≡ shelf.entry.ghost_name }
        ensures same { result.shelf.now ≡ shelf.entry.now }
        ensures recording { result.recording ≡ recording }
    {
        Recorder { shelf, recording }
    }

    /// Adds the packet behind those added before, as `add_packet`. It takes no memory. After a fault further calls answer
    /// `Closed`, and add nothing.
    pub fn add(&mut self, packet: &[u8]) -> Result<(), StoreFault>
        requires fits { RecordsUnlessBroken (recorder_kinds self.old) (recorder_fault self.old) (H.seen self.old.shelf.now).told }
        ensures same_reference { self.new.shelf.ghost_name ≡ self.old.shelf.ghost_name }
        ensures added { OnOk result (Goes (H.seen self.old.shelf.now).told (H.seen self.new.shelf.now).told (Grown packet.now)) }
        ensures not_added { IfErr result (λ fault. Goes (H.seen self.old.shelf.now).told (H.seen self.new.shelf.now).told (AddFails packet.now fault)) }
        ensures any_moment { Goes (H.seen self.old.shelf.now).told (H.seen self.new.shelf.now).told PassesOld }
        ensures closes { Closes (recorder_fault self.old) (recorder_fault self.new) result }
        ensures kinds { recorder_kinds self.new ≡ recorder_kinds self.old }
        ensures partial { recorder_partial self.new ≡ recorder_partial self.old }
        ensures fits { RecordsUnlessBroken (recorder_kinds self.new) (recorder_fault self.new) (H.seen self.new.shelf.now).told }
        ensures cause { RisesExactlyIf (H.seen self.old.shelf.now).faults (H.seen self.new.shelf.now).faults (store_failed result) }
    {
        if let Some(call) = self.recording.fault {
            return Err(StoreFault::Closed(call));
        }
        match add_packet(self.shelf, packet) {
            Ok(()) => Ok(()),
            Err(call) => {
                self.recording.fault = Some(call);
                Err(StoreFault::Shelf(call))
            }
        }
    }

    /// Keeps what was added as the run behind all others, and answers its number, as `finish_run`. It takes no memory.
    /// Where a call of the folder had failed before, it answers `Closed` and does nothing. After a fault the store is
    /// closed.
    pub fn commit(self) -> (Store<'h, H>, Result<u32, StoreFault>)
        requires fits { RecordsUnlessBroken (recorder_kinds self) (recorder_fault self) (H.seen self.shelf.now).told }
        ensures same_reference { result.0.shelf.ghost_name ≡ self.entry.shelf.ghost_name }
        ensures number { IfOk result.1 (λ number. number ≡ length (recorder_kinds self.entry)) }
        ensures kept { OnOk result.1 (Goes (H.seen self.entry.shelf.now).told (H.seen result.0.shelf.now).told (OfDraft (λ bytes. KeepsRun (length (recorder_kinds self.entry)) (run_of (recorder_partial self.entry) bytes)))) }
        ensures fits { OnOk result.1 (FitsWhereTold (store_kinds result.0) (H.seen result.0.shelf.now).told) }
        ensures kinds { OnOk result.1 (store_kinds result.0 ≡ recorder_kinds self.entry ++ recorder_partial self.entry ∷ []) }
        ensures kinds_err { OnErr result.1 (store_kinds result.0 ≡ recorder_kinds self.entry) }
        ensures failed { IfErr result.1 (λ fault. Goes (H.seen self.entry.shelf.now).told (H.seen result.0.shelf.now).told (FinishFails (run_name (length (recorder_kinds self.entry)) (recorder_partial self.entry)) fault)) }
        ensures closes { Closes (recorder_fault self.entry) (store_fault result.0) result.1 }
        ensures any_moment { Goes (H.seen self.entry.shelf.now).told (H.seen result.0.shelf.now).told (PassesRecorded (length (recorder_kinds self.entry)) (recorder_partial self.entry)) }
        ensures time { TicksAsCommitted result.1 (H.clock self.entry.shelf.now) (H.clock result.0.shelf.now) }
        ensures cause { RisesExactlyIf (H.seen self.entry.shelf.now).faults (H.seen result.0.shelf.now).faults (store_failed result.1) }
    {
        let Recorder { shelf, recording } = self;
        let Recording {
            mut found,
            partial,
            fault,
        } = recording;
        if let Some(call) = fault {
            return (
                Store::broken(shelf, found, call),
                Err(StoreFault::Closed(call)),
            );
        }
        match finish_run(shelf, &mut found, partial) {
            Ok(number) => (Store::attach(shelf, found), Ok(number)),
            Err(call) => (
                Store::broken(shelf, found, call),
                Err(StoreFault::Shelf(call)),
            ),
        }
    }

    /// Gives the run up. The runs are as before, and the folder is not called.
    pub fn drop_run(self) -> Store<'h, H>
        ensures same_reference { result.shelf.ghost_name ≡ self.entry.shelf.ghost_name }
        ensures same { result.shelf.now ≡ self.entry.shelf.now }
        ensures kinds { store_kinds result ≡ recorder_kinds self.entry }
        ensures fault { store_fault result ≡ recorder_fault self.entry }
    {
        let Recorder { shelf, recording } = self;
        let Recording {
            found,
            partial: _,
            fault,
        } = recording;
        Store::with_fault(shelf, found, fault)
    }
}
