//! The steps of the folder, and why each refuses.

ghost use Rattle.std.specs.Prelude.{◌≡◌, ◌+◌, ◌<◌, ◌++◌, ◌∷◌, [], length, IfErr, OnOk};
ghost use Rattle.edge_io.specs.Steps.{HasDraft};
ghost use Rattle.run_shelf.specs.Clocks.{TicksBy, TicksToPlace};
ghost use Rattle.run_shelf.specs.Holds.{kinds_of, HasRoom, FitsWhereTold};
ghost use Rattle.run_shelf.specs.Looking.{base_calls};
ghost use Rattle.run_shelf.specs.Outcomes.{TicksUpTo};
ghost use Rattle.run_shelf.specs.Repository.{most_runs};
ghost use Rattle.command_steps.specs.Store.{Makes, MakesWhereNone, Opens, TakesRun, HasRunFor, runs_text, Begins, Keeps, keep_text};
ghost use Rattle.command_steps.specs.Telling.{line_text};

use crate::refusal_line::{Line, Part, Refuses};
use edge_io::Shelf;
use run_shelf::{
    Found, InitFault, MOST_RUNS, OpenFault, ShelfCall, begin_run, finish_run, make_repository,
    survey,
};
use std::alloc::Global;
use testr_words::Question;

/// Makes a repository. It takes no memory.
pub fn make_store<H: Shelf>(shelf: &mut H) -> Result<(), InitFault>
    ensures { Makes (H.seen shelf.old) (H.seen shelf.new) result }
{
    make_repository(shelf)
}

/// Makes a repository where there is none. Where `format` is there, whatever it holds, it stays. It takes no memory.
pub fn make_store_where_none<H: Shelf>(shelf: &mut H) -> Result<(), InitFault>
    ensures { MakesWhereNone (H.seen shelf.old) (H.seen shelf.new) result }
{
    match make_store(shelf) {
        Ok(()) => Ok(()),
        Err(InitFault::Exists) => Ok(()),
        Err(InitFault::Shelf(call)) => Err(InitFault::Shelf(call)),
    }
}

impl<'a> Refuses<'a> for InitFault {
    ghost use Rattle.command_steps.specs.Store.{init_exit_status, init_text};

    ghost status = { init_exit_status };

    ghost text = { init_text };

    fn exit_status(self) -> u8 {
        match self {
            InitFault::Exists => 3,
            InitFault::Shelf(_) => 4,
        }
    }

    fn line(self) -> Line<'a> {
        match self {
            InitFault::Exists => Line::of("testr: a repository is already here\n"),
            InitFault::Shelf(_) => Line::of("testr: fault of the repository folder\n"),
        }
    }
}

/// Looks which runs the repository has, in at most four calls of the folder, and two more under the second format.
pub fn open_store<H: Shelf>(alloc: Global, shelf: &mut H) -> Result<Found, OpenFault>
    ensures step { Opens (H.seen shelf.old) (H.seen shelf.new) result }
    ensures time { TicksUpTo (4 + base_calls (H.seen shelf.old).told) (H.clock shelf.old) (H.clock shelf.new) }
{
    survey(alloc, shelf)
}

impl<'a> Refuses<'a> for OpenFault {
    ghost use Rattle.command_steps.specs.Store.{open_exit_status, open_text};

    ghost status = { open_exit_status };

    ghost text = { open_text };

    fn exit_status(self) -> u8 {
        match self {
            OpenFault::NoStore
            | OpenFault::UnknownFormat
            | OpenFault::BadBase
            | OpenFault::Gap(_) => 3,
            OpenFault::Shelf(_) => 4,
            OpenFault::NoMemory => 5,
        }
    }

    fn line(self) -> Line<'a> {
        match self {
            OpenFault::NoStore => Line::of("testr: no repository here\n"),
            OpenFault::UnknownFormat => Line::of("testr: unknown repository format\n"),
            OpenFault::BadBase => Line::of("testr: the base set is damaged\n"),
            OpenFault::Gap(number) => Line {
                front: "testr: run ",
                part: Part::Number(number),
                rest: " is missing\n",
            },
            OpenFault::Shelf(_) => Line::of("testr: fault of the repository folder\n"),
            OpenFault::NoMemory => Line::of("testr: out of memory\n"),
        }
    }
}

/// Why the runs that are there do not serve a command.
#[derive(Clone, Copy, Debug, PartialEq, Eq)]
pub enum RunsFault {
    /// Each of the 1,000,000 numbers has a run.
    Full,
    /// There is no run.
    NoRuns,
}

impl RunsFault {
    /// The line that tells of it.
    pub fn line(self) -> Line<'static>
        ensures { line_text result ≡ runs_text self }
    {
        match self {
            RunsFault::Full => Line::of("testr: the repository is full\n"),
            RunsFault::NoRuns => Line::of("testr: no runs\n"),
        }
    }
}

/// There must be a number for a run more.
pub fn check_next_number(found: &Found) -> Result<(), RunsFault>
    ensures { TakesRun (length (kinds_of found.now)) result }
{
    if found.runs() == MOST_RUNS {
        Err(RunsFault::Full)
    } else {
        Ok(())
    }
}

/// There must be a run, where the question is of the last one.
pub fn check_has_run(question: Question, found: &Found) -> Result<(), RunsFault>
    ensures { HasRunFor question (length (kinds_of found.now)) result }
{
    if found.runs() == 0 && question.is_of_last_run() {
        Err(RunsFault::NoRuns)
    } else {
        Ok(())
    }
}

/// This call of the folder failed while a run was begun or kept.
#[derive(Clone, Copy, Debug, PartialEq, Eq)]
pub struct KeepFault {
    /// The call.
    pub call: ShelfCall,
}

impl KeepFault {
    /// The line that tells of it.
    pub fn line(self) -> Line<'static>
        ensures { line_text result ≡ keep_text }
    {
        Line::of("testr: fault of the repository folder\n")
    }
}

/// Begins a run, in one call of the folder.
pub fn start_run<H: Shelf>(shelf: &mut H) -> Result<(), KeepFault>
    ensures step { Begins (H.seen shelf.old) (H.seen shelf.new) result }
    ensures time { TicksUpTo 1 (H.clock shelf.old) (H.clock shelf.new) }
{
    match begin_run(shelf) {
        Ok(()) => Ok(()),
        Err(call) => Err(KeepFault { call }),
    }
}

/// Keeps what was added as the run behind all others, in three calls of the folder, and counts it among what was found. Where
/// one of them failed none was made behind it, so the clock tells which one did.
pub fn keep_run<H: Shelf>(shelf: &mut H, found: &mut Found, partial: bool) -> Result<(), KeepFault>
    requires few { length (kinds_of found.old) < most_runs }
    requires room { HasRoom found.old }
    requires fits { FitsWhereTold (kinds_of found.old) (H.seen shelf.old).told }
    requires draft { HasDraft (H.seen shelf.old).told }
    ensures step { Keeps partial (length (kinds_of found.old)) (H.seen shelf.old) (H.seen shelf.new) result }
    ensures kinds { OnOk result (kinds_of found.new ≡ kinds_of found.old ++ partial ∷ []) }
    ensures fits { OnOk result (FitsWhereTold (kinds_of found.new) (H.seen shelf.new).told) }
    ensures time { TicksUpTo 3 (H.clock shelf.old) (H.clock shelf.new) }
    ensures all_calls { OnOk result (TicksBy 3 (H.clock shelf.old) (H.clock shelf.new)) }
    ensures failed_call { IfErr result (λ fault. TicksToPlace fault.call (H.clock shelf.old) (H.clock shelf.new)) }
{
    match finish_run(shelf, found, partial) {
        Ok(_) => Ok(()),
        Err(call) => Err(KeepFault { call }),
    }
}
