//! What is left to tell at the end of a call: which tests that were asked for did not run.

ghost use Rattle.std.specs.Prelude.{◌≡◌, ◌≤◌, [], ℕ, List, Option, true, false, Ok, IfOk, option_map};
ghost use Rattle.edge_io.specs.Causes.{Rose};
ghost use Rattle.missing_tests.specs.Missing as missing;
ghost use Rattle.outcome_fold.specs.Summed.{Sums};
ghost use Rattle.outcome_fold.specs.declared.row.Row.{Row as ARow};
ghost use Rattle.command_steps.specs.Refusals.{exit_status};
ghost use Rattle.testr_commands.specs.Endings as endings;
ghost use Rattle.testr_commands.specs.Spoken as spoken;
ghost use Rattle.testr_words.specs.Suites.{wanted_of};

use crate::answer::{answer, answer_behind};
use crate::null_sink::NullSink;
use crate::{Refusal, Verdict};
use command_steps::{Selected, Silenced};
use edge_io::Sink;
use missing_tests::{asked_once, each_once, missing_text};
use outcome_fold::Summary;
use speaker::say;
use std::alloc::Global;
use sub_number::{IdList, NoMemory};
use testr_words::Command;

/// What is left to tell, behind all else, where the command was done.
#[derive(Drop)]
pub(crate) struct MissingReport {
    /// Whole lines, or nothing.
    pub(crate) text: Vec<u8>,
    /// The command fails for it.
    pub(crate) fails: bool,
}

impl MissingReport {
    /// Nothing.
    pub(crate) fn none(alloc: Global) -> Self
        ensures { (result.text.items ≡ []) × (result.fails ≡ false) }
    {
        MissingReport {
            text: Vec::new(alloc),
            fails: false,
        }
    }
}

/// What is left to tell of the rows of a run, of which this is kept, where its jobs name these ids.
pub(crate) fn left_of_run(
    alloc: Global,
    asks: bool,
    asked: &[IdList],
    summary: &Summary,
) -> Result<MissingReport, NoMemory>
    ensures { (filter_tags : List (List ℕ)) (rows : List ARow) → Sums filter_tags rows summary.now → IfOk result (λ left. (left.text.items ≡ endings.run_lines asks asked.now filter_tags rows) × (left.fails ≡ endings.none_ran asks filter_tags rows)) }
{
    let mut text = Vec::new(alloc);
    let ids = asked_once(alloc, asked)?;
    missing_text(alloc, ids, summary, &mut text)?;
    let fails = asks && counts_none(summary);
    if fails {
        text.extend_from_slice(b"testr: no test ran\n")?;
    }
    Ok(MissingReport { text, fails })
}

// Whether no row is counted.
fn counts_none(summary: &Summary) -> bool
    ensures { (filter_tags : List (List ℕ)) (rows : List ARow) → Sums filter_tags rows summary.now → result ≡ endings.none_counted filter_tags rows }
{
    summary.counts().total == 0
}

/// What is left to tell of the rows of a load, of which this is kept, where these ids are expected.
pub(crate) fn left_of_load(
    alloc: Global,
    expected: &IdList,
    summary: &Summary,
) -> Result<MissingReport, NoMemory>
    ensures { (filter_tags : List (List ℕ)) (rows : List ARow) → Sums filter_tags rows summary.now → IfOk result (λ left. (left.text.items ≡ missing.missing_text expected.now rows) × (left.fails ≡ missing.some_missing expected.now rows)) }
{
    let mut text = Vec::new(alloc);
    let ids = each_once(alloc, expected.list())?;
    let fails = missing_text(alloc, ids, summary, &mut text)?;
    Ok(MissingReport { text, fails })
}

/// Whether tests are asked for by jobs that name these ids, or by patterns that no id meets.
pub(crate) fn asks_tests(command: &Command, chose_none: bool, asked: &[IdList]) -> bool
    ensures { (chosen : Option (List (List ℕ))) → chose_none ≡ endings.selects_none chosen → result ≡ endings.asks_tests (wanted_of command.now) chosen asked.now }
{
    names_some(asked) || (has_pattern(command) && chose_none)
}

// Whether one of the jobs names an id.
fn names_some(asked: &[IdList]) -> bool
    ensures { result ≡ endings.names_some asked.now }
{
    asked.iter().any(|ids| !ids.list().is_empty())
}

// Whether the command says something by patterns of the ids that are wanted.
fn has_pattern(command: &Command) -> bool
    ensures { result ≡ endings.has_pattern (wanted_of command.now) }
{
    !command.names.list().is_empty()
        || !command.excluded.list().is_empty()
        || command.include_list.is_some()
        || command.exclude_list.is_some()
}

/// Whether ids are given, and none of them is wanted.
pub(crate) fn selects_none(selected: &Selected) -> bool
    ensures { result ≡ endings.selects_none selected.now.ids }
{
    match &selected.ids {
        Some(ids) => ids.list().is_empty(),
        None => false,
    }
}

/// Tells of the outcome, and behind it what is left to tell, where the command was done. It gives the status, and whether the
/// sink has failed with what was left.
pub(crate) fn answer_left<E: Sink>(
    outcome: Result<Verdict, Refusal<'_>>,
    left: &MissingReport,
    err: &mut E,
) -> (u8, bool)
    ensures told { endings.TellsLeft outcome.entry left.now.text.items left.now.fails (E.seen err.old) (E.seen err.new) result.0 }
    ensures rose { result.1 ≡ true → Rose (E.seen err.old).faults (E.seen err.new).faults }
    ensures stands { result.1 ≡ false → result.0 ≤ 1 → (E.seen err.new).faults ≡ (E.seen err.old).faults }
    ensures code { (2 ≤ exit_status outcome.entry → result.0 ≡ exit_status outcome.entry) × (exit_status outcome.entry ≤ 1 → result.0 ≡ endings.status_at_end left.now.fails (exit_status outcome.entry)) }
{
    match outcome {
        Ok(verdict) => {
            let failed = say(err, false, &left.text);
            (ended_as(left.fails, verdict), failed)
        }
        Err(refusal) => (answer(Err(refusal), err), false),
    }
}

// The status of the verdict, or 1.
fn ended_as(fails: bool, verdict: Verdict) -> u8
    ensures { result ≡ endings.status_at_end fails (exit_status (Ok verdict)) }
{
    if fails { 1 } else { verdict.exit_status() }
}

/// The same behind what was said, unless the sink has failed.
pub(crate) fn answer_left_behind<E: Sink>(
    outcome: Result<Verdict, Refusal<'_>>,
    left: &MissingReport,
    err: &mut E,
    silenced: &mut Silenced,
) -> u8
    ensures spoken { silenced.old.errors ≡ false → endings.TellsLeft outcome.entry left.now.text.items left.now.fails (E.seen err.old) (E.seen err.new) result }
    ensures deaf { silenced.old.errors ≡ true → (E.seen err.new ≡ E.seen err.old) × endings.TellsLeft outcome.entry left.now.text.items left.now.fails spoken.nowhere spoken.nowhere result }
    ensures rose { silenced.old.errors ≡ false → silenced.new.errors ≡ true → Rose (E.seen err.old).faults (E.seen err.new).faults }
    ensures stands { silenced.new.errors ≡ false → result ≤ 1 → (silenced.old.errors ≡ false) × ((E.seen err.new).faults ≡ (E.seen err.old).faults) }
    ensures out { silenced.new.out ≡ silenced.old.out }
    ensures code { (2 ≤ exit_status outcome.entry → result ≡ exit_status outcome.entry) × (exit_status outcome.entry ≤ 1 → result ≡ endings.status_at_end left.now.fails (exit_status outcome.entry)) }
{
    if silenced.errors {
        let mut nowhere = NullSink;
        let (status, _) = answer_left(outcome, left, &mut nowhere);
        return status;
    }
    let (status, failed) = answer_left(outcome, left, err);
    silenced.errors = failed;
    status
}

/// The same of a load: where nothing is expected of it, nothing is left to tell.
pub(crate) fn answer_expected<E: Sink>(
    outcome: Result<Verdict, Refusal<'_>>,
    expected: Option<&IdList>,
    left: &MissingReport,
    err: &mut E,
    silenced: &mut Silenced,
) -> u8
    ensures spoken { silenced.old.errors ≡ false → endings.TellsExpected (option_map (λ ids. ids.now) expected.entry) outcome.entry left.now.text.items left.now.fails (E.seen err.old) (E.seen err.new) result }
    ensures deaf { silenced.old.errors ≡ true → (E.seen err.new ≡ E.seen err.old) × endings.TellsExpected (option_map (λ ids. ids.now) expected.entry) outcome.entry left.now.text.items left.now.fails spoken.nowhere spoken.nowhere result }
    ensures rose { silenced.old.errors ≡ false → silenced.new.errors ≡ true → Rose (E.seen err.old).faults (E.seen err.new).faults }
    ensures stands { silenced.new.errors ≡ false → result ≤ 1 → (silenced.old.errors ≡ false) × ((E.seen err.new).faults ≡ (E.seen err.old).faults) }
    ensures out { silenced.new.out ≡ silenced.old.out }
    ensures code { endings.IsCodeOf (exit_status outcome.entry) result }
{
    match expected {
        None => answer_behind(outcome, silenced.errors, err),
        Some(_) => answer_left_behind(outcome, left, err, silenced),
    }
}
