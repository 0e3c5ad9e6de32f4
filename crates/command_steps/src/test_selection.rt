//! Which tests a run is of, and in how many workers they run.

ghost use Rattle.std.specs.Prelude.{[], ◌≡◌, ℕ, List, length, IfOk, IfSome, OnOk};
ghost use Rattle.std.specs.List.{IsDistinct};
ghost use Rattle.std.specs.Str.{bytes_eq};
ghost use Rattle.edge_io.specs.Seen.{Seen};
ghost use Rattle.run_shelf.specs.Holds.{kinds_of, FitsWhereTold};
ghost use Rattle.suite_plan.specs.Listing.{ListsTests};
ghost use Rattle.suite_plan.specs.LoadList.{ReadsLoadList};
ghost use Rattle.suite_plan.specs.PatternList.{ReadsPatternList};
ghost use Rattle.suite_plan.specs.Processors.{IsInRange};
ghost use Rattle.command_steps.specs.Asking.{FindsFailing};
ghost use Rattle.command_steps.specs.TimesFile.{ReadsTimes};
ghost use Rattle.command_steps.specs.Outside.{work};
ghost use Rattle.command_steps.specs.Perhaps.{when, Perhaps};
ghost use Rattle.command_steps.specs.Selecting.{CountsWorkers, ReadsFurther, Selects, picks_of, needs_listing as is_listing_needed};
ghost use Rattle.command_steps.specs.Calls.{AsksByFew};
ghost use Rattle.testr_words.specs.Suites.{wanted_of, run_options};

use crate::Refusal;
use crate::files::name_of;
use crate::ledger_queries::find_failing;
use crate::question_answers::TellFault;
use crate::times_file::{TimesRefusal, read_times};
use edge_io::{Shelf, Site, Spawner};
use partition_times::Filters;
use run_shelf::Found;
use std::alloc::Global;
use sub_number::{IdList, Text, TimeMap};
use suite_plan::{
    FurtherPicks, ListRefusal, ListingRefusal, MOST_WORKERS, PatternListRefusal, Picks, chosen_ids,
    count_processors, list_tests, read_load_list, read_pattern_list, run_count_command,
};
use testr_conf::Conf;
use testr_words::{Command, Shard};

// Words may ask for as many workers as a run may have.
const _: () = prove!(testr_words::MOST_WORKERS == MOST_WORKERS);

/// How many workers a run has, and which tests it is of: where no ids are given, one worker runs all that there are.
#[derive(Drop)]
pub struct Selected {
    /// The number of workers, at least 1 and at most `MOST_WORKERS`.
    pub workers: u32,
    /// The ids of the tests, in their order, each once.
    pub ids: Option<IdList>,
    /// The shard of these that is wanted.
    pub shard: Option<Shard>,
    /// The times that stand in place of those of the repository, where a file of them is named.
    pub times: Option<TimeMap>,
}

/// What files say beside the words.
#[derive(Drop)]
pub struct Further {
    /// Further patterns.
    pub picks: FurtherPicks,
    /// The times that stand in place of those of the repository, where a file of them is named.
    pub times: Option<TimeMap>,
}

/// Why a file that stands beside the words was not taken.
#[derive(Drop)]
pub enum FurtherRefusal<'a> {
    /// A list of patterns was not.
    Patterns(PatternListRefusal<'a>),
    /// The file of times was not.
    Times(TimesRefusal<'a>),
}

impl<'a> From<PatternListRefusal<'a>> for FurtherRefusal<'a> {
    ghost use Rattle.std.specs.Prelude.{◌≡◌};
    ghost use Rattle.command_steps.specs.declared.test_selection.FurtherRefusal.TheVariants.{Patterns};

    ghost from_gives = { λ fault refusal. refusal ≡ Patterns fault };

    fn from(fault: PatternListRefusal<'a>) -> Self {
        FurtherRefusal::Patterns(fault)
    }
}

impl<'a> From<TimesRefusal<'a>> for FurtherRefusal<'a> {
    ghost use Rattle.std.specs.Prelude.{◌≡◌};
    ghost use Rattle.command_steps.specs.declared.test_selection.FurtherRefusal.TheVariants.{Times};

    ghost from_gives = { λ fault refusal. refusal ≡ Times fault };

    fn from(fault: TimesRefusal<'a>) -> Self {
        FurtherRefusal::Times(fault)
    }
}

/// Selects the tests of a run and the number of its workers, in two calls of the folder at most where both caches cover the
/// runs that were found. The patterns are those of the command, and those of the lists that it names stand behind them.
pub fn select_tests<'a, H: Shelf, S: Spawner, F: Site>(
    alloc: Global,
    conf: &Conf,
    command: &'a Command,
    picks: &Picks,
    shelf: &mut H,
    found: &Found,
    spawner: &mut S,
    site: &mut F,
) -> Result<Selected, Refusal<'a>>
    requires picks { picks.now ≡ picks_of (wanted_of command.now) }
    requires fits { FitsWhereTold (kinds_of found.now) (H.seen shelf.old).told }
    ensures step { (input out : Seen (List ℕ)) → Selects conf.now (run_options [] command.now)
        (work (H.seen shelf.old) (F.seen site.old) (S.seen spawner.old) input out)
        (work (H.seen shelf.new) (F.seen site.new) (S.seen spawner.new) input out)
        result }
    ensures range { IfOk result (λ selected. IsInRange selected.workers) }
    ensures fits { OnOk result (FitsWhereTold (kinds_of found.now) (H.seen shelf.new).told) }
    ensures calls { AsksByFew (length (kinds_of found.now)) 2 (H.seen shelf.old).told (H.seen shelf.new).told (H.clock shelf.old) (H.clock shelf.new) }
{
    let listed = load_list(alloc, &command.load_list, site)?;
    let further = read_further(alloc, command, site)?;
    let failing = failing_ids(alloc, command.failing, shelf, found)?;
    let workers = count_workers(
        alloc,
        conf,
        command.parallel,
        command.concurrency,
        spawner,
        site,
    )?;
    let listing = listing(alloc, needs_listing(command, workers), conf, spawner)?;
    let Further {
        picks: further,
        times,
    } = further;
    let ids = chosen_ids(alloc, failing, listed, listing, picks, &further)?;
    Ok(Selected {
        workers,
        ids,
        shard: command.shard,
        times,
    })
}

// The ids of the file of this name, where one is named.
fn load_list<'a, F: Site>(
    alloc: Global,
    name: &'a Option<Text>,
    site: &mut F,
) -> Result<Option<IdList>, ListRefusal<'a>>
    ensures { Perhaps name.now ReadsLoadList (F.seen site.old) (F.seen site.new) result }
{
    match name {
        Some(name) => Ok(Some(read_load_list(alloc, site, name_of(name))?)),
        None => Ok(None),
    }
}

/// The ids of the file of this name.
pub fn read_ids<'a, F: Site>(
    alloc: Global,
    name: &'a Text,
    site: &mut F,
) -> Result<IdList, ListRefusal<'a>>
    ensures { ReadsLoadList name.now (F.seen site.old) (F.seen site.new) result }
{
    read_load_list(alloc, site, name_of(name))
}

/// The patterns of the lists that the command names, and the times of the file that it names.
pub fn read_further<'a, F: Site>(
    alloc: Global,
    command: &'a Command,
    site: &mut F,
) -> Result<Further, FurtherRefusal<'a>>
    ensures { ReadsFurther (wanted_of command.now) (F.seen site.old) (F.seen site.new) result }
{
    let including = pattern_list(alloc, &command.include_list, site)?;
    let excluding = pattern_list(alloc, &command.exclude_list, site)?;
    let times = times_of_file(alloc, &command.times, site)?;
    let picks = FurtherPicks {
        including,
        excluding,
    };
    Ok(Further { picks, times })
}

// The times of the file of this name, where one is named.
fn times_of_file<'a, F: Site>(
    alloc: Global,
    name: &'a Option<Text>,
    site: &mut F,
) -> Result<Option<TimeMap>, TimesRefusal<'a>>
    ensures { Perhaps name.now ReadsTimes (F.seen site.old) (F.seen site.new) result }
{
    match name {
        Some(name) => Ok(Some(read_times(alloc, site, name_of(name))?)),
        None => Ok(None),
    }
}

// The patterns of the list of this name, where one is named.
fn pattern_list<'a, F: Site>(
    alloc: Global,
    name: &'a Option<Text>,
    site: &mut F,
) -> Result<Option<Filters>, PatternListRefusal<'a>>
    ensures { Perhaps name.now ReadsPatternList (F.seen site.old) (F.seen site.new) result }
{
    match name {
        Some(name) => Ok(Some(read_pattern_list(alloc, site, name_of(name))?)),
        None => Ok(None),
    }
}

// The ids that fail by the runs, where they are wanted.
fn failing_ids<H: Shelf>(
    alloc: Global,
    wanted: bool,
    shelf: &mut H,
    found: &Found,
) -> Result<Option<IdList>, TellFault>
    requires { FitsWhereTold (kinds_of found.now) (H.seen shelf.old).told }
    ensures step { Perhaps (when wanted) (λ _. FindsFailing) (H.seen shelf.old) (H.seen shelf.new) result }
    ensures fits { OnOk result (FitsWhereTold (kinds_of found.now) (H.seen shelf.new).told) }
    ensures calls { AsksByFew (length (kinds_of found.now)) 2 (H.seen shelf.old).told (H.seen shelf.new).told (H.clock shelf.old) (H.clock shelf.new) }
{
    if !wanted {
        return Ok(None);
    }
    Ok(Some(find_failing(alloc, shelf, found)?))
}

/// The number of workers, at least 1 and at most so many as a run may have: what the words say, what the project's own command
/// calls out, or the number of processors.
pub fn count_workers<S: Spawner, F: Site>(
    alloc: Global,
    conf: &Conf,
    parallel: bool,
    asked: u32,
    spawner: &mut S,
    site: &mut F,
) -> Result<u32, Refusal<'static>>
    ensures step { (folder : _) → (input out : Seen (List ℕ)) → CountsWorkers conf.now parallel asked
        (work folder (F.seen site.old) (S.seen spawner.old) input out)
        (work folder (F.seen site.new) (S.seen spawner.new) input out)
        result }
    ensures path { F.folder site.new ≡ F.folder site.old }
    ensures range { IfOk result IsInRange }
{
    if !parallel {
        return Ok(1);
    }
    if asked > 0 {
        return Ok(asked.min(MOST_WORKERS));
    }
    let called = run_count_command(alloc, conf, spawner)?.unwrap_or(0);
    if called > 0 {
        return Ok(called.min(MOST_WORKERS));
    }
    let counted = count_processors(alloc, site)?;
    Ok(counted)
}

// Whether a listing is needed: ids are given neither by the failing set nor by a file, and are wanted by a pattern, by a
// list of patterns, for a shard or by several workers.
fn needs_listing(command: &Command, workers: u32) -> bool
    ensures { result ≡ is_listing_needed (run_options [] command.now) workers }
{
    let given = command.failing || command.load_list.is_some();
    !given && (command.is_choosing() || workers > 1)
}

// The ids of a listing, where they are wanted.
fn listing<S: Spawner>(
    alloc: Global,
    wanted: bool,
    conf: &Conf,
    spawner: &mut S,
) -> Result<Option<IdList>, ListingRefusal>
    ensures step { Perhaps (when wanted) (λ _. ListsTests conf.now) (S.seen spawner.old) (S.seen spawner.new) result }
    ensures distinct { IfOk result (λ ids. IfSome ids (IsDistinct bytes_eq)) }
{
    if !wanted {
        return Ok(None);
    }
    Ok(Some(list_tests(alloc, conf, spawner)?))
}
