//! `testr run`.

ghost use Rattle.std.proofs.Props.{props};
ghost use Rattle.std.specs.Prelude.{[], ◌≡◌, ◌<◌, ◌≤◌, ℕ, List, length, false, true, IfOk, IfSome};
ghost use Rattle.edge_io.specs.Disk.{Files, Folder};
ghost use Rattle.edge_io.specs.Seen.{Seen};
ghost use Rattle.outcome_fold.specs.Summed.{Sums};
ghost use Rattle.outcome_fold.specs.declared.row.Row.{Row as ARow};
ghost use Rattle.command_steps.specs.Refusals.{exit_status};
ghost use Rattle.command_steps.specs.Outside.{work};
ghost use Rattle.run_shelf.specs.Holds.{kinds_of, FitsWhereTold};
ghost use Rattle.suite_causes.specs.Searching.{CanHandIds};
ghost use Rattle.command_steps.specs.Causes.{FindsCauses};
ghost use Rattle.testr_commands.specs.RunSuite.{RunsBy, TellsAndFinds, TellsRun, compiled_in};
ghost use Rattle.testr_commands.specs.SparingRun.{SparesRunOf};
ghost use Rattle.testr_commands.specs.Endings.{LeavesRunEnd};
ghost use Rattle.testr_commands.specs.Spoken.{shown_of};
ghost use Rattle.command_steps.specs.Speaking.{SaysAloud};
ghost use Rattle.suite_run.specs.Aloud.{sinks};
ghost use Rattle.command_steps.specs.Verdicts.{verdict_of};
ghost use Rattle.command_steps.specs.declared.answer.Verdict.TheVariants.{Passed};
ghost use Rattle.testr_words.specs.Suites.{wanted_of, run_options, runs_in_part, is_partial as is_partial_run};
ghost use Rattle.suite_plan.specs.Patterns.{Compiles};

use crate::live_settings::shown_by;
use crate::missing_report::{MissingReport, asks_tests, left_of_run, selects_none};
use crate::{Refusal, Verdict};
use command_steps::{
    Kept, Silenced, check_next_number, end_report, find_causes, open_store, plan_workers,
    print_report, run_workers, select_tests,
};
use edge_io::{Shelf, Sink, Site, Spawner};
use outcome_fold::{Summary, copies_of};
use packet_codec::Tags;
use run_shelf::Found;
use std::alloc::Global;
use std::mem::forget;
use std::sync::Wait;
use std::thread::Threads;
use sub_number::NoMemory;
use suite_plan::{Compiled, PatternRefusal, compile_picks};
use testr_conf::Conf;
use testr_words::{Command, FormatKind};

/// Runs the tests that the command selects, by the project's configuration, in worker processes that are read side by side;
/// keeps what is recorded of them as the next run; brings the caches up to it; and prints the run's report, by what is kept
/// of the rows that were told as it was recorded. Where causes are looked for, each test that fails is searched behind that, and
/// its line printed. It may wait for the workers.
///
/// As the run is recorded it is said, as the command asks: its lines to `err`, its packets to `stream`. None of the two has failed
/// before; `silenced` tells which of them has then. A sink that fails stops nothing. Where the command was done, `left` has what
/// is left to tell: which tests that were asked for did not run.
pub fn run<'a, R: Threads + Wait + Sync, H: Shelf, S: Spawner, F: Site, O: Sink, E: Sink, P: Sink>(
    rt: &R,
    alloc: Global,
    command: &'a Command,
    conf: &'a Conf,
    shelf: &mut H,
    spawner: &mut S,
    site: &mut F,
    out: &mut O,
    err: &mut E,
    stream: &mut P,
    silenced: &mut Silenced,
    left: &mut MissingReport,
) -> Result<Verdict, Refusal<'a>>
    requires speaks { (silenced.old.errors ≡ false) × (silenced.old.out ≡ false) }
    ensures step { (input : Seen (List ℕ)) → RunsBy (run_options [] command.now) conf.now
        (work (H.seen shelf.old) (F.seen site.old) (S.seen spawner.old) input (O.seen out.old))
        (work (H.seen shelf.new) (F.seen site.new) (S.seen spawner.new) input (O.seen out.new))
        result }
    ensures says { SaysAloud (shown_of command.now) true (is_partial_run (run_options [] command.now)) (exit_status result) (H.seen shelf.new).told (sinks (E.seen err.old) (P.seen stream.old)) (sinks (E.seen err.new) (P.seen stream.new)) silenced.new }
    ensures left { (input : Seen (List ℕ)) → exit_status result ≤ 1 → LeavesRunEnd (run_options [] command.now) conf.now
        (work (H.seen shelf.old) (F.seen site.old) (S.seen spawner.old) input (O.seen out.old))
        (work (H.seen shelf.new) (F.seen site.new) (S.seen spawner.new) input (O.seen out.new))
        left.new.text.items left.new.fails }
    ensures calls { SparesRunOf command.now.find_causes (is_partial_run (run_options [] command.now)) (H.seen shelf.old).told (H.seen shelf.new).told (exit_status result) (H.clock shelf.old) (H.clock shelf.new) }
{
    let found = open_store(alloc, shelf)?;
    check_next_number(&found)?;
    let number = found.runs();
    let asked = read_asked(alloc, command, conf)?;
    let selected = select_tests(
        alloc,
        conf,
        command,
        &asked.compiled.picks,
        shelf,
        &found,
        spawner,
        site,
    )?;
    let chose_none = selects_none(&selected);
    let plan = plan_workers(
        alloc,
        conf,
        &asked.compiled.groups,
        command.find_causes,
        selected,
        shelf,
        &found,
    )?;
    let kept = run_workers(
        rt,
        alloc,
        &plan.jobs,
        &plan.asked,
        asked.partial,
        command.find_causes,
        shelf,
        found,
        spawner,
        asked.filter_tags,
        shown_by(command),
        err,
        stream,
        silenced,
    )?;
    let Kept { found, summary } = kept;
    let asks = asks_tests(command, chose_none, &plan.asked);
    let end = match left_of_run(alloc, asks, &plan.asked, &summary) {
        Ok(end) => end,
        Err(fault) => return Err(Refusal::Report(fault)),
    };
    let stored = Stored { found, number };
    let answer = tell_and_find(
        alloc,
        conf,
        command.format,
        command.find_causes,
        stored,
        &summary,
        shelf,
        spawner,
        out,
    );
    // The program ends here, and the system takes the memory back in one piece.
    forget(summary);
    *left = end;
    answer
}

// A run that is kept.
#[derive(Drop)]
struct Stored {
    // The runs that there are, where there was memory for them.
    found: Option<Found>,
    // Its number, which is that of one of these.
    number: u32,

    ghost known: { IfSome found (λ runs. number < length (kinds_of runs)) } by { Prim.hlevel props },
}

// Prints the report of the run, for this reader, of whose rows this is; and then, where causes are looked for, searches for what makes each test
// that fails do so.
fn tell_and_find<H: Shelf, S: Spawner, O: Sink>(
    alloc: Global,
    conf: &Conf,
    format: FormatKind,
    find_causes: bool,
    stored: Stored,
    summary: &Summary,
    shelf: &mut H,
    spawner: &mut S,
    out: &mut O,
) -> Result<Verdict, Refusal<'static>>
    requires handed { find_causes ≡ true → CanHandIds conf.now }
    requires fits { IfSome stored.found (λ runs. FitsWhereTold (kinds_of runs) (H.seen shelf.old).told) }
    ensures step { (site : Seen Files) → (input : Seen (List ℕ)) → (rows : List ARow) → Sums conf.now.filter_tags rows summary.now → TellsAndFinds format find_causes conf.now stored.number rows
        (work (H.seen shelf.old) site (S.seen spawner.old) input (O.seen out.old))
        (work (H.seen shelf.new) site (S.seen spawner.new) input (O.seen out.new))
        result }
    ensures still { (rows : List ARow) → Sums conf.now.filter_tags rows summary.now → exit_status result ≤ 1 → (find_causes ≡ true → exit_status result ≡ 0) → (H.seen shelf.new ≡ H.seen shelf.old) × (H.clock shelf.new ≡ H.clock shelf.old) }
{
    let Stored { found, number } = stored;
    let verdict = tell_run(alloc, format, number, summary, out)?;
    find_where_asked(
        alloc,
        conf,
        find_causes,
        number,
        found,
        summary,
        shelf,
        spawner,
        out,
    )?;
    Ok(verdict)
}

// The search for causes, where it is asked for.
fn find_where_asked<H: Shelf, S: Spawner, O: Sink>(
    alloc: Global,
    conf: &Conf,
    asked: bool,
    number: u32,
    found: Option<Found>,
    summary: &Summary,
    shelf: &mut H,
    spawner: &mut S,
    out: &mut O,
) -> Result<(), Refusal<'static>>
    requires handed { asked ≡ true → CanHandIds conf.now }
    requires known { IfSome found (λ runs. number < length (kinds_of runs)) }
    requires fits { IfSome found (λ runs. FitsWhereTold (kinds_of runs) (H.seen shelf.old).told) }
    ensures step { (site : Seen Files) → (input : Seen (List ℕ)) → (filter_tags : List (List ℕ)) (rows : List ARow) → Sums filter_tags rows summary.now → FindsCauses asked conf.now number rows
        (work (H.seen shelf.old) site (S.seen spawner.old) input (O.seen out.old))
        (work (H.seen shelf.new) site (S.seen spawner.new) input (O.seen out.new))
        result }
    ensures still { (filter_tags : List (List ℕ)) (rows : List ARow) → Sums filter_tags rows summary.now → (asked ≡ true → verdict_of rows ≡ Passed) → (H.seen shelf.new ≡ H.seen shelf.old) × (H.clock shelf.new ≡ H.clock shelf.old) }
{
    if !asked {
        return Ok(());
    }
    find_causes(alloc, conf, number, found, summary, shelf, spawner, out)
}

// What the command and the configuration say before anything is read.
#[derive(Drop)]
struct Asked {
    // The patterns of the command and the regex of the configuration's groups.
    compiled: Compiled,
    // The run is of a part of the tests.
    partial: bool,
    // The tags of the configuration, whose tests are not counted.
    filter_tags: Tags,
}

fn read_asked<'a>(
    alloc: Global,
    command: &'a Command,
    conf: &'a Conf,
) -> Result<Asked, PatternRefusal<'a>>
    ensures compiled { Compiles command.now.names command.now.excluded conf.now.group_regex (compiled_in result) }
    ensures filter_tags { IfOk result (λ asked. asked.filter_tags ≡ conf.now.filter_tags) }
    ensures partial { IfOk result (λ asked. asked.partial ≡ runs_in_part command.now.partial command.now.failing command.now.load_list (wanted_of command.now)) }
{
    let partial = is_partial(command);
    match compile_picks(alloc, &command.names, &command.excluded, conf.group_regex()) {
        Ok(compiled) => match copies_of(alloc, conf.filter_tags().list()) {
            Ok(filter_tags) => Ok(Asked {
                compiled,
                partial,
                filter_tags,
            }),
            Err(NoMemory) => Err(PatternRefusal::NoMemory),
        },
        Err(refusal) => Err(refusal),
    }
}

// Whether the run is of a part of the tests: it is called so, or its tests are chosen.
fn is_partial(command: &Command) -> bool
    ensures { result ≡ runs_in_part command.now.partial command.now.failing command.now.load_list (wanted_of command.now) }
{
    command.partial || command.failing || command.load_list.is_some() || command.is_choosing()
}

// Prints the report of the run of this number, for this reader, which is kept, and of whose rows this is. Its last lines are made before the
// first one is printed.
fn tell_run<O: Sink>(
    alloc: Global,
    format: FormatKind,
    number: u32,
    summary: &Summary,
    out: &mut O,
) -> Result<Verdict, Refusal<'static>>
    ensures { (folder : Seen Folder) → (site : _) → (spawner : _) → (input : Seen (List ℕ)) → (filter_tags : List (List ℕ)) (rows : List ARow) → Sums filter_tags rows summary.now → TellsRun format number filter_tags rows
        (work folder site spawner input (O.seen out.old))
        (work folder site spawner input (O.seen out.new))
        result }
{
    let ending = match end_report(alloc, format, number, summary) {
        Ok(ending) => ending,
        Err(fault) => return Err(Refusal::Report(fault)),
    };
    print_report(out, &ending, summary)?;
    Ok(ending.verdict)
}
