//! What is told of the runs of a repository.

ghost use Rattle.std.specs.Prelude.{◌≡◌, ◌<◌, ◌-◌, ◌++◌, None, ℕ, List, length, IfSome, IfOk, OnOk};
ghost use Rattle.edge_io.specs.Steps.{Goes, Stays};
ghost use Rattle.edge_io.specs.Causes.{RisesExactlyIf};
ghost use Rattle.run_shelf.specs.Holds.{kinds_of, FitsWhereTold};
ghost use Rattle.run_shelf.specs.Stores.{store_kinds, store_fault, FitsUnlessBroken};
ghost use Rattle.run_ledger.specs.Ledger.{HasRowsAt};
ghost use Rattle.command_steps.specs.Says.{SaysReport, SaysSkips, SaysNotes, TellsReasons, IsNotedReport, SaysSlowest, SaysFailing, SaysLastFailures, SaysFailurePackets, SaysStats, run_count_line, verdict_of_failing};
ghost use Rattle.testr_words.specs.Questions.{OfBytes, OfLastRun};
ghost use Rattle.command_steps.specs.Calls.{SparesFor, SparesRuns};
ghost use Rattle.command_steps.specs.Telling.{line_text};
ghost use Rattle.command_steps.specs.Told.{FindsAnswer, IsAnswer, TellsSo, tell_failed, fault_of_ledger, tell_exit_status, tell_text};
ghost use Rattle.command_steps.specs.Trusted.{SoundFailing};

use crate::Verdict;
use crate::refusal_line::Line;
use crate::run_report::{report, verdict_of_rows};
use build_notes::notes_text;
use edge_io::Shelf;
use itoa::Buffer;
use last_failures::{last_failures, last_failures_text, last_packets_text};
use outcome_fold::Rows;
use run_ledger::{LedgerFault, failing, rows_of};
use run_shelf::{Found, Store};
use skip_reasons::skips_text;
use std::alloc::Global;
use sub_number::{IdList, NoMemory};
use sub_text::{failing_text, slowest_text};
use testr_words::Question;

/// What is told.
#[derive(Drop)]
pub struct Told {
    /// What is printed.
    pub text: Vec<u8>,
    /// What the status says.
    pub verdict: Verdict,
}

/// Why nothing is told.
#[derive(Clone, Copy, Debug, PartialEq, Eq)]
pub enum TellFault {
    /// A call of the folder failed.
    Shelf,
    /// There is not enough memory.
    NoMemory,
}

impl TellFault {
    /// The exit status.
    pub fn exit_status(self) -> u8
        ensures { result ≡ tell_exit_status self }
    {
        match self {
            TellFault::Shelf => 4,
            TellFault::NoMemory => 5,
        }
    }

    /// The line that tells of it.
    pub fn line(self) -> Line<'static>
        ensures { line_text result ≡ tell_text self }
    {
        match self {
            TellFault::Shelf => Line::of("testr: fault of the repository folder\n"),
            TellFault::NoMemory => Line::of("testr: out of memory\n"),
        }
    }
}

/// Finds the answer of the question, of the runs that were found. Where it is of the last run, there must be one; its bytes
/// are not asked for here.
pub fn find_answer<H: Shelf>(
    alloc: Global,
    question: Question,
    shelf: &mut H,
    found: Found,
) -> Result<Told, TellFault>
    requires text { OfBytes question → ⊥ }
    requires some { OfLastRun question → 0 < length (kinds_of found) }
    requires fits { FitsWhereTold (kinds_of found) (H.seen shelf.old).told }
    ensures step { FindsAnswer question (H.seen shelf.old) (H.seen shelf.new) result }
    ensures spares { SparesFor 2 question (H.seen shelf.old).told (H.clock shelf.old) (H.clock shelf.new) }
{
    let mut store = Store::attach(shelf, found);
    let told = answer_of(alloc, question, &mut store);
    hand_back(store.into_shelf());
    told
}

// The folder is with its lender again.
pub(crate) fn hand_back<H: Shelf>(shelf: &mut H)
    ensures { shelf.new ≡ shelf.old }
{}

// The answer of the question, of the runs of the store. Where it is of the last run, there must be one, and its report is
// asked for.
fn answer_of<H: Shelf>(
    alloc: Global,
    question: Question,
    store: &mut Store<'_, H>,
) -> Result<Told, TellFault>
    requires text { OfBytes question → ⊥ }
    requires some { OfLastRun question → 0 < length (store_kinds store.old) }
    requires open { store_fault store.old ≡ None }
    requires fits { FitsUnlessBroken (store_kinds store.old) (store_fault store.old) (H.seen store.old.shelf.now).told }
    ensures same_reference { store.new.shelf.ghost_name ≡ store.old.shelf.ghost_name }
    ensures told { IfOk result (λ told. IfSome (H.seen store.old.shelf.now).told (IsAnswer question told)) }
    ensures spares { SparesFor 2 question (H.seen store.old.shelf.now).told (H.clock store.old.shelf.now) (H.clock store.new.shelf.now) }
    ensures count { RisesExactlyIf (H.seen store.old.shelf.now).faults (H.seen store.new.shelf.now).faults (tell_failed result) }
    ensures same { Goes (H.seen store.old.shelf.now).told (H.seen store.new.shelf.now).told Stays }
{
    match question {
        Question::Last { .. } => tell_report(alloc, store),
        Question::Skips => tell_skips(alloc, store),
        Question::Notes { skips } => tell_notes(alloc, skips, store),
        Question::Failing { list } => tell_failing(alloc, list, store),
        Question::LastFailures => tell_last_failures(alloc, store),
        Question::FailurePackets => tell_failure_packets(alloc, store),
        Question::Slowest { all } => tell_slowest(alloc, all, store),
        Question::Stats => tell_stats(alloc, store),
    }
}

// The rows of the last run.
fn last_rows<H: Shelf>(alloc: Global, store: &mut Store<'_, H>) -> Result<Rows, TellFault>
    requires some { 0 < length (store_kinds store.old) }
    requires open { store_fault store.old ≡ None }
    requires fits { FitsUnlessBroken (store_kinds store.old) (store_fault store.old) (H.seen store.old.shelf.now).told }
    ensures same_reference { store.new.shelf.ghost_name ≡ store.old.shelf.ghost_name }
    ensures rows { IfOk result (λ rows. IfSome (H.seen store.old.shelf.now).told (HasRowsAt (length (store_kinds store.old) - 1) rows)) }
    ensures count { RisesExactlyIf (H.seen store.old.shelf.now).faults (H.seen store.new.shelf.now).faults (tell_failed result) }
    ensures same { Goes (H.seen store.old.shelf.now).told (H.seen store.new.shelf.now).told Stays }
{
    let number = store.runs() - 1;
    match rows_of(alloc, store, number) {
        Ok(rows) => Ok(rows),
        Err(fault) => Err(ledger_refusal(fault)),
    }
}

// The report of the last run.
fn tell_report<H: Shelf>(alloc: Global, store: &mut Store<'_, H>) -> Result<Told, TellFault>
    requires some { 0 < length (store_kinds store.old) }
    requires open { store_fault store.old ≡ None }
    requires fits { FitsUnlessBroken (store_kinds store.old) (store_fault store.old) (H.seen store.old.shelf.now).told }
    ensures same_reference { store.new.shelf.ghost_name ≡ store.old.shelf.ghost_name }
    ensures told { IfOk result (λ told. IfSome (H.seen store.old.shelf.now).told (TellsSo SaysReport told)) }
    ensures count { RisesExactlyIf (H.seen store.old.shelf.now).faults (H.seen store.new.shelf.now).faults (tell_failed result) }
    ensures same { Goes (H.seen store.old.shelf.now).told (H.seen store.new.shelf.now).told Stays }
{
    let number = store.runs() - 1;
    let rows = match last_rows(alloc, store) {
        Ok(rows) => rows,
        Err(fault) => return Err(fault),
    };
    let Ok(text) = report(alloc, &rows, number) else {
        return Err(TellFault::NoMemory);
    };
    Ok(Told {
        text,
        verdict: verdict_of_rows(&rows),
    })
}

// The report of the last run, and why tests were skipped.
fn tell_skips<H: Shelf>(alloc: Global, store: &mut Store<'_, H>) -> Result<Told, TellFault>
    requires some { 0 < length (store_kinds store.old) }
    requires open { store_fault store.old ≡ None }
    requires fits { FitsUnlessBroken (store_kinds store.old) (store_fault store.old) (H.seen store.old.shelf.now).told }
    ensures same_reference { store.new.shelf.ghost_name ≡ store.old.shelf.ghost_name }
    ensures told { IfOk result (λ told. IfSome (H.seen store.old.shelf.now).told (TellsSo SaysSkips told)) }
    ensures count { RisesExactlyIf (H.seen store.old.shelf.now).faults (H.seen store.new.shelf.now).faults (tell_failed result) }
    ensures same { Goes (H.seen store.old.shelf.now).told (H.seen store.new.shelf.now).told Stays }
{
    let number = store.runs() - 1;
    let rows = match last_rows(alloc, store) {
        Ok(rows) => rows,
        Err(fault) => return Err(fault),
    };
    let Ok(mut text) = report(alloc, &rows, number) else {
        return Err(TellFault::NoMemory);
    };
    let Ok(()) = skips_text(alloc, &rows, &mut text) else {
        return Err(TellFault::NoMemory);
    };
    Ok(Told {
        text,
        verdict: verdict_of_rows(&rows),
    })
}

// The report of the last run, why tests were skipped, where that is wanted, and the notes of those that failed.
fn tell_notes<H: Shelf>(
    alloc: Global,
    skips: bool,
    store: &mut Store<'_, H>,
) -> Result<Told, TellFault>
    requires some { 0 < length (store_kinds store.old) }
    requires open { store_fault store.old ≡ None }
    requires fits { FitsUnlessBroken (store_kinds store.old) (store_fault store.old) (H.seen store.old.shelf.now).told }
    ensures same_reference { store.new.shelf.ghost_name ≡ store.old.shelf.ghost_name }
    ensures told { IfOk result (λ told. IfSome (H.seen store.old.shelf.now).told (TellsSo (SaysNotes skips) told)) }
    ensures count { RisesExactlyIf (H.seen store.old.shelf.now).faults (H.seen store.new.shelf.now).faults (tell_failed result) }
    ensures same { Goes (H.seen store.old.shelf.now).told (H.seen store.new.shelf.now).told Stays }
{
    let number = store.runs() - 1;
    let rows = match last_rows(alloc, store) {
        Ok(rows) => rows,
        Err(fault) => return Err(fault),
    };
    let Ok(text) = noted_report(alloc, skips, &rows, number) else {
        return Err(TellFault::NoMemory);
    };
    Ok(Told {
        text,
        verdict: verdict_of_rows(&rows),
    })
}

// The report of the run of this number, why tests were skipped, where that is wanted, and the notes.
fn noted_report(alloc: Global, skips: bool, rows: &Rows, number: u32) -> Result<Vec<u8>, NoMemory>
    ensures { IfOk result (λ text. IsNotedReport skips rows.now number text.items) }
{
    let mut text = report(alloc, rows, number)?;
    put_reasons(alloc, skips, rows, &mut text)?;
    notes_text(rows.list(), &mut text)?;
    Ok(text)
}

// Appends why tests were skipped, where that is wanted.
fn put_reasons(alloc: Global, skips: bool, rows: &Rows, text: &mut Vec<u8>) -> Result<(), NoMemory>
    ensures { OnOk result ((reasons : List ℕ) × TellsReasons skips rows.now reasons × (text.new.items ≡ text.old.items ++ reasons)) }
{
    if skips {
        skips_text(alloc, rows, text)
    } else {
        Ok(())
    }
}

// The slowest tests of the last run.
fn tell_slowest<H: Shelf>(
    alloc: Global,
    all: bool,
    store: &mut Store<'_, H>,
) -> Result<Told, TellFault>
    requires some { 0 < length (store_kinds store.old) }
    requires open { store_fault store.old ≡ None }
    requires fits { FitsUnlessBroken (store_kinds store.old) (store_fault store.old) (H.seen store.old.shelf.now).told }
    ensures same_reference { store.new.shelf.ghost_name ≡ store.old.shelf.ghost_name }
    ensures told { IfOk result (λ told. IfSome (H.seen store.old.shelf.now).told (TellsSo (SaysSlowest all) told)) }
    ensures count { RisesExactlyIf (H.seen store.old.shelf.now).faults (H.seen store.new.shelf.now).faults (tell_failed result) }
    ensures same { Goes (H.seen store.old.shelf.now).told (H.seen store.new.shelf.now).told Stays }
{
    let rows = match last_rows(alloc, store) {
        Ok(rows) => rows,
        Err(fault) => return Err(fault),
    };
    let mut text = Vec::new(alloc);
    let Ok(()) = slowest_text(alloc, &rows, all, &mut text) else {
        return Err(TellFault::NoMemory);
    };
    Ok(Told {
        text,
        verdict: Verdict::Passed,
    })
}

// The tests that fail by all runs, told with the help of their cache.
fn tell_failing<H: Shelf>(
    alloc: Global,
    list: bool,
    store: &mut Store<'_, H>,
) -> Result<Told, TellFault>
    requires open { store_fault store.old ≡ None }
    requires fits { FitsUnlessBroken (store_kinds store.old) (store_fault store.old) (H.seen store.old.shelf.now).told }
    ensures same_reference { store.new.shelf.ghost_name ≡ store.old.shelf.ghost_name }
    ensures told { IfOk result (λ told. IfSome (H.seen store.old.shelf.now).told (λ s. SoundFailing s → TellsSo (SaysFailing list) told s)) }
    ensures spares { SparesRuns 2 (H.seen store.old.shelf.now).told (H.clock store.old.shelf.now) (H.clock store.new.shelf.now) }
    ensures count { RisesExactlyIf (H.seen store.old.shelf.now).faults (H.seen store.new.shelf.now).faults (tell_failed result) }
    ensures same { Goes (H.seen store.old.shelf.now).told (H.seen store.new.shelf.now).told Stays }
{
    let ids = match failing(alloc, store) {
        Ok(ids) => ids,
        Err(fault) => return Err(ledger_refusal(fault)),
    };
    let mut text = Vec::new(alloc);
    let Ok(()) = failing_text(&ids, list, &mut text) else {
        return Err(TellFault::NoMemory);
    };
    Ok(Told {
        text,
        verdict: failing_verdict(&ids),
    })
}

// How each test that fails by all runs failed last.
fn tell_last_failures<H: Shelf>(alloc: Global, store: &mut Store<'_, H>) -> Result<Told, TellFault>
    requires open { store_fault store.old ≡ None }
    requires fits { FitsUnlessBroken (store_kinds store.old) (store_fault store.old) (H.seen store.old.shelf.now).told }
    ensures same_reference { store.new.shelf.ghost_name ≡ store.old.shelf.ghost_name }
    ensures told { IfOk result (λ told. IfSome (H.seen store.old.shelf.now).told (λ s. SoundFailing s → TellsSo SaysLastFailures told s)) }
    ensures count { RisesExactlyIf (H.seen store.old.shelf.now).faults (H.seen store.new.shelf.now).faults (tell_failed result) }
    ensures same { Goes (H.seen store.old.shelf.now).told (H.seen store.new.shelf.now).told Stays }
{
    let ids = match failing(alloc, store) {
        Ok(ids) => ids,
        Err(fault) => return Err(ledger_refusal(fault)),
    };
    let found = match last_failures(alloc, store, &ids, false) {
        Ok(found) => found,
        Err(fault) => return Err(ledger_refusal(fault)),
    };
    let mut text = Vec::new(alloc);
    let Ok(()) = last_failures_text(alloc, &ids, &found, &mut text) else {
        return Err(TellFault::NoMemory);
    };
    Ok(Told {
        text,
        verdict: failing_verdict(&ids),
    })
}

// The packets of how each test that fails by all runs failed last.
fn tell_failure_packets<H: Shelf>(
    alloc: Global,
    store: &mut Store<'_, H>,
) -> Result<Told, TellFault>
    requires open { store_fault store.old ≡ None }
    requires fits { FitsUnlessBroken (store_kinds store.old) (store_fault store.old) (H.seen store.old.shelf.now).told }
    ensures same_reference { store.new.shelf.ghost_name ≡ store.old.shelf.ghost_name }
    ensures told { IfOk result (λ told. IfSome (H.seen store.old.shelf.now).told (λ s. SoundFailing s → TellsSo SaysFailurePackets told s)) }
    ensures count { RisesExactlyIf (H.seen store.old.shelf.now).faults (H.seen store.new.shelf.now).faults (tell_failed result) }
    ensures same { Goes (H.seen store.old.shelf.now).told (H.seen store.new.shelf.now).told Stays }
{
    let ids = match failing(alloc, store) {
        Ok(ids) => ids,
        Err(fault) => return Err(ledger_refusal(fault)),
    };
    let found = match last_failures(alloc, store, &ids, true) {
        Ok(found) => found,
        Err(fault) => return Err(ledger_refusal(fault)),
    };
    let mut text = Vec::new(alloc);
    let Ok(()) = last_packets_text(&ids, &found, &mut text) else {
        return Err(TellFault::NoMemory);
    };
    Ok(Told {
        text,
        verdict: Verdict::Passed,
    })
}

// How many runs there are.
fn tell_stats<H: Shelf>(alloc: Global, store: &mut Store<'_, H>) -> Result<Told, TellFault>
    requires open { store_fault store.old ≡ None }
    requires fits { FitsUnlessBroken (store_kinds store.old) (store_fault store.old) (H.seen store.old.shelf.now).told }
    ensures same_reference { store.new.shelf.ghost_name ≡ store.old.shelf.ghost_name }
    ensures told { IfOk result (λ told. IfSome (H.seen store.old.shelf.now).told (TellsSo SaysStats told)) }
    ensures count { RisesExactlyIf (H.seen store.old.shelf.now).faults (H.seen store.new.shelf.now).faults (tell_failed result) }
    ensures same { Goes (H.seen store.old.shelf.now).told (H.seen store.new.shelf.now).told Stays }
{
    let Ok(text) = stats_text(alloc, store.runs()) else {
        return Err(TellFault::NoMemory);
    };
    Ok(Told {
        text,
        verdict: Verdict::Passed,
    })
}

fn stats_text(alloc: Global, runs: u32) -> Result<Vec<u8>, NoMemory>
    ensures { IfOk result (λ text. text.items ≡ run_count_line runs) }
{
    let mut digits = Buffer::new();
    let mut text = Vec::new(alloc);
    text.extend_from_slice(b"runs=")?;
    text.extend_from_slice(digits.format(runs).as_bytes())?;
    text.push(b'\n')?;
    Ok(text)
}

// A set of failing tests that is not empty tells of a failure.
fn failing_verdict(ids: &IdList) -> Verdict
    ensures { result ≡ verdict_of_failing ids.now }
{
    if ids.list().is_empty() {
        Verdict::Passed
    } else {
        Verdict::Failed
    }
}

// What a store that could not be read answers.
pub(crate) fn ledger_refusal(fault: LedgerFault) -> TellFault
    ensures { result ≡ fault_of_ledger fault }
{
    match fault {
        LedgerFault::Store(_) => TellFault::Shelf,
        LedgerFault::NoMemory => TellFault::NoMemory,
    }
}
