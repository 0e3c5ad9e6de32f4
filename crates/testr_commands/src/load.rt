//! `testr load`.

ghost use Rattle.testr_commands.specs.Endings.{LeavesLoadEnd};
ghost use Rattle.missing_tests.specs.Missing as missing;
ghost use Rattle.testr_commands.specs.Load.{Loads};
ghost use Rattle.testr_commands.specs.Spoken.{shown_of};
ghost use Rattle.outcome_fold.specs.Summed.{Sums};
ghost use Rattle.outcome_fold.specs.declared.row.Row.{Row as ARow};
ghost use Rattle.command_steps.specs.Outside.{work};
ghost use Rattle.command_steps.specs.Refusals.{exit_status};
ghost use Rattle.command_steps.specs.Speaking.{SaysAloud};
ghost use Rattle.std.specs.Prelude.{◌≡◌, ◌≤◌, ℕ, List, false, length, IfSome, IfOk};
ghost use Rattle.testr_words.specs.Suites.{load_options};
ghost use Rattle.edge_io.specs.Seen.{Seen};
ghost use Rattle.edge_io.specs.Spawners.{Spawning};
ghost use Rattle.suite_run.specs.Aloud.{sinks};

use crate::live_settings::shown_by;
use crate::missing_report::{MissingReport, left_of_load};
use crate::{Refusal, Verdict};
use command_steps::{
    Recorded, Silenced, check_next_number, end_report, keep_run, open_store, print_report,
    record_sources, refresh_caches, say_end, start_run,
};
use edge_io::{Shelf, Sink, Site, Source};
use outcome_fold::Summary;
use std::alloc::Global;
use std::mem::forget;
use sub_number::{IdList, NoMemory};
use testr_words::Command;

/// Reads the sources to their ends, one after another, keeps what is recorded of them as the next run, brings the caches up
/// to it, and prints the run's report. They are the files that the command names, of which there are 64 at most, or the input
/// where there are none. What is recorded is written as it is read, and summed up. The last lines of the
/// report are made before the run is kept; what is printed behind that takes no memory. Where ids are expected of it and it was
/// done, `left` has what is left to tell: which of them did not run.
///
/// As the run is recorded it is said, as the command asks: its lines to `err`, its packets to `stream`. None of the two has failed
/// before; `silenced` tells which of them has then. A sink that fails stops nothing.
pub fn load<'a, H: Shelf, F: Site, I: Source, O: Sink, E: Sink, P: Sink>(
    alloc: Global,
    command: &'a Command,
    expected: Option<&IdList>,
    shelf: &mut H,
    site: &mut F,
    input: &mut I,
    out: &mut O,
    err: &mut E,
    stream: &mut P,
    silenced: &mut Silenced,
    left: &mut MissingReport,
) -> Result<Verdict, Refusal<'a>>
    requires few { length command.now.names ≤ 64 }
    requires speaks { (silenced.old.errors ≡ false) × (silenced.old.out ≡ false) }
    ensures step { (spawner : Seen Spawning) → Loads (load_options command.now) command.now.names
        (work (H.seen shelf.old) (F.seen site.old) spawner (I.seen input.old) (O.seen out.old))
        (work (H.seen shelf.new) (F.seen site.new) spawner (I.seen input.new) (O.seen out.new))
        result }
    ensures says { SaysAloud (shown_of command.now) false command.now.partial (exit_status result) (H.seen shelf.new).told (sinks (E.seen err.old) (P.seen stream.old)) (sinks (E.seen err.new) (P.seen stream.new)) silenced.new }
    ensures left { exit_status result ≤ 1 → IfSome expected.entry (λ ids. (spawner : Seen Spawning) → LeavesLoadEnd (load_options command.now) command.now.names ids.now
        (work (H.seen shelf.old) (F.seen site.old) spawner (I.seen input.old) (O.seen out.old))
        (work (H.seen shelf.new) (F.seen site.new) spawner (I.seen input.new) (O.seen out.new))
        left.new.text.items left.new.fails) }
{
    let mut found = open_store(alloc, shelf)?;
    check_next_number(&found)?;
    start_run(shelf)?;
    let Recorded { summary, end } = record_sources(
        alloc,
        &command.names,
        shelf,
        site,
        input,
        shown_by(command),
        err,
        stream,
        silenced,
    )?;
    let missing = missing_of(alloc, expected, &summary)?;
    let ending = end_report(alloc, command.format, found.runs(), &summary)?;
    keep_run(shelf, &mut found, command.partial)?;
    say_end(&end, err, silenced);
    if let Err(fault) = refresh_caches(alloc, shelf, found, &summary) {
        return Err(Refusal::Refresh(fault));
    }
    print_report(out, &ending, &summary)?;
    // The program ends here, and the system takes the memory back in one piece.
    forget(summary);
    *left = missing;
    Ok(ending.verdict)
}

// What is left to tell of the rows of which this is kept.
fn missing_of(
    alloc: Global,
    expected: Option<&IdList>,
    summary: &Summary,
) -> Result<MissingReport, NoMemory>
    ensures { IfSome expected.entry (λ ids. (filter_tags : List (List ℕ)) (rows : List ARow) → Sums filter_tags rows summary.now → IfOk result (λ end. (end.text.items ≡ missing.missing_text ids.now rows) × (end.fails ≡ missing.some_missing ids.now rows))) }
{
    match expected {
        Some(ids) => left_of_load(alloc, ids, summary),
        None => Ok(MissingReport::none(alloc)),
    }
}
