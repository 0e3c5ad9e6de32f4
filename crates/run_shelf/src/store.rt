//! A repository that holds its folder, and the opening of it.

ghost use Rattle.std.specs.Prelude.{◌≡◌, ◌<◌, None, Some, length, slice_get, IfSome, IfOk, IfErr, OnOk};
ghost use Rattle.std.specs.Borrow.{sem, RestsIfErr};
ghost use Rattle.std.specs.Io.{ReadsAtMost};
ghost use Rattle.edge_io.specs.Causes.{RisesExactlyIf};
ghost use Rattle.edge_io.specs.Steps.{Goes, Opened};
ghost use Rattle.run_shelf.specs.Clocks.{TicksAsMade, TicksAsPut};
ghost use Rattle.run_shelf.specs.Faults.{init_failed};
ghost use Rattle.run_shelf.specs.Holds.{kinds_of};
ghost use Rattle.run_shelf.specs.Images.{MakesRepository, PassesFormat, PassesOld};
ghost use Rattle.run_shelf.specs.Looking.{ReadsBase};
ghost use Rattle.run_shelf.specs.Openings.{HandsBack, IsNotOpened};
ghost use Rattle.run_shelf.specs.Outcomes.{InitFails, Surveys, IsRunLength, IsRunPart, TicksAtMost, TicksUpTo};
ghost use Rattle.run_shelf.specs.Sides.{HoldsCacheFile, KeepsCacheFile, PassesCacheFile, PutFails, TellsOfReading, CacheFileReads};
ghost use Rattle.run_shelf.specs.declared.faults.ShelfCall.TheVariants.{Length, ReadAt};
ghost use Rattle.run_shelf.specs.declared.faults.StoreFault.TheVariants.{Shelf as ShelfFailed};
ghost use Rattle.run_shelf.specs.Stores.{store_kinds, store_fault, FitsUnlessBroken, seen_store, store_failed, StoreReads, Closes, TellsOf, HasOpenCause, HasStartCause, StartsFrom, StartFails, has_start_failed, fault_after_start, recorder_kinds, recorder_fault, RecordsUnlessBroken};

use crate::{
    Base, CacheFile, CacheFileFault, Found, InitFault, MOST_RUNS, OpenFault, Recorder, Recording,
    ShelfCall, StartFault, StoreFault, begin_run, make_repository, read_base, read_cache_file,
    read_run, run_length, survey, write_cache_file,
};
use edge_io::Shelf;
use std::alloc::Global;
use sub_number::Bytes;

/// A repository over the folder that it was opened on. What it knows of the runs fits the folder until a call of the
/// folder fails; then each call that can tell of it answers `StoreFault::Closed` with that call, until the folder is
/// opened again.
#[derive(Drop)]
pub struct Store<'h, H: Shelf> {
    shelf: &'h mut H,
    found: Found,
    fault: Option<ShelfCall>,
}

impl<'h, H: Shelf> Store<'h, H> {
    /// Makes the folder a repository, as `make_repository`.
    pub fn init(shelf: &mut H) -> Result<(), InitFault>
        ensures made { OnOk result (Goes (H.seen shelf.old).told (H.seen shelf.new).told MakesRepository) }
        ensures refused { IfErr result (λ fault. Goes (H.seen shelf.old).told (H.seen shelf.new).told (InitFails fault)) }
        ensures any_moment { Goes (H.seen shelf.old).told (H.seen shelf.new).told PassesFormat }
        ensures time { TicksAsMade result (H.seen shelf.old).told (H.seen shelf.new).told (H.clock shelf.old) (H.clock shelf.new) }
        ensures cause { RisesExactlyIf (H.seen shelf.old).faults (H.seen shelf.new).faults (init_failed result) }
    {
        make_repository(shelf)
    }

    /// Opens the repository of the folder, as `survey` looks at it, and holds the folder.
    ///
    /// Each error comes as from `survey`, and so does what the folder is then.
    pub fn open(alloc: Global, shelf: &'h mut H) -> Result<Store<'h, H>, OpenFault>
        ensures* not_opened { sem 𝓛 (RestsIfErr H.row shelf.entry (λ store. store.shelf.ghost_name) result (λ last. IfErr result (λ fault. IsNotOpened fault (H.seen shelf.entry.now).told (H.seen shelf.entry.now).faults (H.seen last).told (H.seen last).faults))) }
        ensures same_reference { IfOk result (λ store. store.shelf.ghost_name ≡ shelf.entry.ghost_name) }
        ensures opened { IfOk result (λ store. Goes (H.seen shelf.entry.now).told (H.seen store.shelf.now).told (Surveys (store_kinds store))) }
        ensures any_moment { IfOk result (λ store. Goes (H.seen shelf.entry.now).told (H.seen store.shelf.now).told PassesOld) }
        ensures fault { IfOk result (λ store. store_fault store ≡ None) }
        ensures count { IfOk result (λ store. (H.seen store.shelf.now).faults ≡ (H.seen shelf.entry.now).faults) }
        ensures refused { IfErr result (λ fault. IfSome (H.seen shelf.entry.now).told (HasOpenCause fault)) }
    {
        open_or_hand_back(alloc, shelf).opened
    }

    /// A store over a folder of which this is known.
    pub fn attach(shelf: &'h mut H, found: Found) -> Store<'h, H>
        ensures same_reference { result.shelf.ghost_name ≡ shelf.entry.ghost_name }
        ensures same { result.shelf.now ≡ shelf.entry.now }
        ensures kinds { store_kinds result ≡ kinds_of found }
        ensures fault { store_fault result ≡ None }
    {
        Store {
            shelf,
            found,
            fault: None,
        }
    }

    /// The call of the folder that failed, after which the store is closed.
    pub fn fault(&self) -> Option<ShelfCall>
        ensures { result ≡ store_fault self.now }
    {
        self.fault
    }

    /// How many runs there are.
    pub fn runs(&self) -> u32
        ensures { result ≡ length (store_kinds self.now) }
    {
        self.found.runs()
    }

    /// Whether the run of this number, which there must be, is partial.
    pub fn partial(&self, number: u32) -> bool
        requires { number < length (store_kinds self.now) }
        ensures { slice_get (store_kinds self.now) number ≡ Some result }
    {
        self.found.partial(number)
    }

    /// How many bytes the run of this number has, which there must be. It takes no memory.
    pub fn run_length(&mut self, number: u32) -> Result<u64, StoreFault>
        requires known { number < length (store_kinds self.old) }
        requires fits { FitsUnlessBroken (store_kinds self.old) (store_fault self.old) (H.seen self.old.shelf.now).told }
        ensures same_reference { self.new.shelf.ghost_name ≡ self.old.shelf.ghost_name }
        ensures size { IfOk result (λ size. IfSome (H.seen self.old.shelf.now).told (IsRunLength number size)) }
        ensures failed { IfErr result (TellsOf Length) }
        ensures reads { StoreReads (seen_store self.old (H.seen self.old.shelf.now)) (seen_store self.new (H.seen self.new.shelf.now)) result }
        ensures time { TicksAtMost (H.clock self.old.shelf.now) (H.clock self.new.shelf.now) }
    {
        if let Some(call) = self.fault {
            return Err(StoreFault::Closed(call));
        }
        match run_length(self.shelf, &self.found, number) {
            Ok(size) => Ok(size),
            Err(call) => Err(self.close(call)),
        }
    }

    /// Moves bytes of the run of this number, which there must be, into the front of `buf`: from the byte number `place`
    /// on as many as are there and fit. It answers how many, and takes no memory.
    pub fn read_run(&mut self, number: u32, place: u64, buf: &mut [u8]) -> Result<usize, StoreFault>
        requires known { number < length (store_kinds self.old) }
        requires fits { FitsUnlessBroken (store_kinds self.old) (store_fault self.old) (H.seen self.old.shelf.now).told }
        ensures same_reference { self.new.shelf.ghost_name ≡ self.old.shelf.ghost_name }
        ensures bound { ReadsAtMost result buf.new }
        ensures part { IfOk result (λ count. IfSome (H.seen self.old.shelf.now).told (IsRunPart number place buf.new count)) }
        ensures failed { IfErr result (TellsOf ReadAt) }
        ensures reads { StoreReads (seen_store self.old (H.seen self.old.shelf.now)) (seen_store self.new (H.seen self.new.shelf.now)) result }
        ensures time { TicksAtMost (H.clock self.old.shelf.now) (H.clock self.new.shelf.now) }
    {
        if let Some(call) = self.fault {
            return Err(StoreFault::Closed(call));
        }
        match read_run(self.shelf, &self.found, number, place, buf) {
            Ok(count) => Ok(count),
            Err(call) => Err(self.close(call)),
        }
    }

    /// The bytes of the file of this cache, as `read_cache_file`.
    ///
    /// `Store` comes only with the call of the folder that failed, and with `Closed` exactly where one had failed
    /// before, which comes first.
    pub fn cache_file(
        &mut self,
        alloc: Global,
        side: CacheFile,
    ) -> Result<Option<Bytes>, CacheFileFault>
        requires fits { FitsUnlessBroken (store_kinds self.old) (store_fault self.old) (H.seen self.old.shelf.now).told }
        ensures same_reference { self.new.shelf.ghost_name ≡ self.old.shelf.ghost_name }
        ensures found { IfOk result (λ found. IfSome (H.seen self.old.shelf.now).told (HoldsCacheFile side found)) }
        ensures failed { IfErr result TellsOfReading }
        ensures reads { CacheFileReads (seen_store self.old (H.seen self.old.shelf.now)) (seen_store self.new (H.seen self.new.shelf.now)) result }
        ensures time { TicksUpTo 2 (H.clock self.old.shelf.now) (H.clock self.new.shelf.now) }
    {
        if let Some(call) = self.fault {
            return Err(CacheFileFault::Store(StoreFault::Closed(call)));
        }
        match read_cache_file(alloc, self.shelf, side) {
            Ok(found) => Ok(found),
            Err(CacheFileFault::Store(StoreFault::Shelf(call))) => {
                Err(CacheFileFault::Store(self.close(call)))
            }
            Err(fault) => Err(fault),
        }
    }

    /// The base, as `read_base`.
    ///
    /// `Store` comes only with the call of the folder that failed, and with `Closed` exactly where one had failed before,
    /// which comes first.
    pub fn base(&mut self, alloc: Global) -> Result<Base, CacheFileFault>
        requires fits { FitsUnlessBroken (store_kinds self.old) (store_fault self.old) (H.seen self.old.shelf.now).told }
        ensures same_reference { self.new.shelf.ghost_name ≡ self.old.shelf.ghost_name }
        ensures found { IfOk result (λ base. IfSome (H.seen self.old.shelf.now).told (ReadsBase base)) }
        ensures reads { CacheFileReads (seen_store self.old (H.seen self.old.shelf.now)) (seen_store self.new (H.seen self.new.shelf.now)) result }
        ensures time { TicksUpTo 3 (H.clock self.old.shelf.now) (H.clock self.new.shelf.now) }
    {
        if let Some(call) = self.fault {
            return Err(CacheFileFault::Store(StoreFault::Closed(call)));
        }
        match read_base(alloc, self.shelf) {
            Ok(base) => Ok(base),
            Err(CacheFileFault::Store(StoreFault::Shelf(call))) => {
                Err(CacheFileFault::Store(self.close(call)))
            }
            Err(fault) => Err(fault),
        }
    }

    /// Puts the file of this cache beside the runs, which stay as they are, as `write_cache_file`. It takes no memory. After a
    /// fault the store is closed, and where one had failed before, nothing is done.
    pub fn put_cache_file(&mut self, side: CacheFile, bytes: &[u8]) -> Result<(), StoreFault>
        requires fits { FitsUnlessBroken (store_kinds self.old) (store_fault self.old) (H.seen self.old.shelf.now).told }
        ensures same_reference { self.new.shelf.ghost_name ≡ self.old.shelf.ghost_name }
        ensures kept { OnOk result (Goes (H.seen self.old.shelf.now).told (H.seen self.new.shelf.now).told (KeepsCacheFile side bytes.now)) }
        ensures failed { IfErr result (λ fault. Goes (H.seen self.old.shelf.now).told (H.seen self.new.shelf.now).told (PutFails side bytes.now fault)) }
        ensures any_moment { Goes (H.seen self.old.shelf.now).told (H.seen self.new.shelf.now).told (PassesCacheFile side bytes.now) }
        ensures closes { Closes (store_fault self.old) (store_fault self.new) result }
        ensures kinds { store_kinds self.new ≡ store_kinds self.old }
        ensures fits { FitsUnlessBroken (store_kinds self.new) (store_fault self.new) (H.seen self.new.shelf.now).told }
        ensures calls { TicksAsPut result (H.clock self.old.shelf.now) (H.clock self.new.shelf.now) }
        ensures time { TicksUpTo 5 (H.clock self.old.shelf.now) (H.clock self.new.shelf.now) }
        ensures cause { RisesExactlyIf (H.seen self.old.shelf.now).faults (H.seen self.new.shelf.now).faults (store_failed result) }
    {
        if let Some(call) = self.fault {
            return Err(StoreFault::Closed(call));
        }
        match write_cache_file(self.shelf, side, bytes) {
            Ok(()) => Ok(()),
            Err(call) => Err(self.close(call)),
        }
    }

    // Keeps the call that failed.
    fn close(&mut self, call: ShelfCall) -> StoreFault
        ensures same_reference { self.new.shelf.ghost_name ≡ self.old.shelf.ghost_name }
        ensures same { self.new.shelf.now ≡ self.old.shelf.now }
        ensures kinds { store_kinds self.new ≡ store_kinds self.old }
        ensures fault { store_fault self.new ≡ Some call }
        ensures told { result ≡ ShelfFailed call }
    {
        self.fault = Some(call);
        StoreFault::Shelf(call)
    }

    /// Starts the recording of one run more: takes the memory that it needs, and begins its draft. On each refusal the
    /// store is handed back with its runs as they were. `Store` comes first, where the store is closed; then `Full` exactly
    /// where there are 1,000,000 runs; `NoMemory` only for want of memory; and `Store` where the draft was not begun, after
    /// which the store is closed.
    pub fn start_run(
        self,
        alloc: Global,
        partial: bool,
    ) -> Result<Recorder<'h, H>, (Store<'h, H>, StartFault)>
        ensures same_reference { IfOk result (λ recorder. recorder.shelf.ghost_name ≡ self.entry.shelf.ghost_name) }
        ensures begun { IfOk result (λ recorder. Goes (H.seen self.entry.shelf.now).told (H.seen recorder.shelf.now).told Opened) }
        ensures started { IfOk result (λ recorder. StartsFrom (store_kinds self.entry) (store_fault self.entry) partial recorder) }
        ensures fits { FitsUnlessBroken (store_kinds self.entry) (store_fault self.entry) (H.seen self.entry.shelf.now).told → IfOk result (λ recorder. RecordsUnlessBroken (recorder_kinds recorder) (recorder_fault recorder) (H.seen recorder.shelf.now).told) }
        ensures any_moment { IfOk result (λ recorder. Goes (H.seen self.entry.shelf.now).told (H.seen recorder.shelf.now).told PassesOld) }
        ensures count { IfOk result (λ recorder. (H.seen recorder.shelf.now).faults ≡ (H.seen self.entry.shelf.now).faults) }
        ensures same_reference_err { IfErr result (λ e. e.0.shelf.ghost_name ≡ self.entry.shelf.ghost_name) }
        ensures not_begun { IfErr result (λ e. Goes (H.seen self.entry.shelf.now).told (H.seen e.0.shelf.now).told (StartFails e.1)) }
        ensures kept { IfErr result (λ e. store_kinds e.0 ≡ store_kinds self.entry) }
        ensures closes { IfErr result (λ e. store_fault e.0 ≡ fault_after_start (store_fault self.entry) e.1) }
        ensures refused { IfErr result (λ e. HasStartCause (length (store_kinds self.entry)) (store_fault self.entry) e.1) }
        ensures any_moment_err { IfErr result (λ e. Goes (H.seen self.entry.shelf.now).told (H.seen e.0.shelf.now).told PassesOld) }
        ensures cause { IfErr result (λ e. RisesExactlyIf (H.seen self.entry.shelf.now).faults (H.seen e.0.shelf.now).faults (has_start_failed e.1)) }
    {
        let mut store = self;
        if let Some(call) = store.fault {
            return Err((store, StartFault::Store(StoreFault::Closed(call))));
        }
        if store.found.runs() == MOST_RUNS {
            return Err((store, StartFault::Full));
        }
        let Ok(()) = store.found.make_room() else {
            return Err((store, StartFault::NoMemory));
        };
        let Store {
            shelf,
            found,
            fault: _,
        } = store;
        match begin_run(shelf) {
            Ok(()) => Ok(Recorder::over(
                shelf,
                Recording {
                    found,
                    partial,
                    fault: None,
                },
            )),
            Err(call) => Err((
                Store::broken(shelf, found, call),
                StartFault::Store(StoreFault::Shelf(call)),
            )),
        }
    }

    // A store over a folder of which a call failed.
    pub(crate) fn broken(shelf: &'h mut H, found: Found, call: ShelfCall) -> Store<'h, H>
        ensures same_reference { result.shelf.ghost_name ≡ shelf.entry.ghost_name }
        ensures same { result.shelf.now ≡ shelf.entry.now }
        ensures kinds { store_kinds result ≡ kinds_of found }
        ensures fault { store_fault result ≡ Some call }
    {
        Store::with_fault(shelf, found, Some(call))
    }

    // A store over a folder of which this call failed, or none.
    pub(crate) fn with_fault(
        shelf: &'h mut H,
        found: Found,
        fault: Option<ShelfCall>,
    ) -> Store<'h, H>
        ensures same_reference { result.shelf.ghost_name ≡ shelf.entry.ghost_name }
        ensures same { result.shelf.now ≡ shelf.entry.now }
        ensures kinds { store_kinds result ≡ kinds_of found }
        ensures fault { store_fault result ≡ fault }
    {
        Store {
            shelf,
            found,
            fault,
        }
    }

    /// The folder, given back.
    pub fn into_shelf(self) -> &'h mut H
        ensures same_reference { result.ghost_name ≡ self.entry.shelf.ghost_name }
        ensures same { result.now ≡ self.entry.shelf.now }
    {
        self.shelf
    }
}

// What came of opening a folder.
#[derive(Drop)]
struct Opening<'h, H: Shelf> {
    opened: Result<Store<'h, H>, OpenFault>,
    // The folder, where it was not opened. So a contract can tell what it is then.
    back: Option<&'h mut H>,
}

// Opens the repository of the folder, or hands the folder back.
fn open_or_hand_back<'h, H: Shelf>(alloc: Global, shelf: &'h mut H) -> Opening<'h, H>
    ensures back { HandsBack shelf.entry.ghost_name result (λ fault last. IsNotOpened fault (H.seen shelf.entry.now).told (H.seen shelf.entry.now).faults (H.seen last).told (H.seen last).faults) }
    ensures same_reference { IfOk result.opened (λ store. store.shelf.ghost_name ≡ shelf.entry.ghost_name) }
    ensures opened { IfOk result.opened (λ store. Goes (H.seen shelf.entry.now).told (H.seen store.shelf.now).told (Surveys (store_kinds store))) }
    ensures any_moment { IfOk result.opened (λ store. Goes (H.seen shelf.entry.now).told (H.seen store.shelf.now).told PassesOld) }
    ensures fault { IfOk result.opened (λ store. store_fault store ≡ None) }
    ensures count { IfOk result.opened (λ store. (H.seen store.shelf.now).faults ≡ (H.seen shelf.entry.now).faults) }
    ensures refused { IfErr result.opened (λ fault. IfSome (H.seen shelf.entry.now).told (HasOpenCause fault)) }
{
    match survey(alloc, shelf) {
        Ok(found) => Opening {
            opened: Ok(Store::attach(shelf, found)),
            back: None,
        },
        Err(fault) => Opening {
            opened: Err(fault),
            back: Some(shelf),
        },
    }
}
