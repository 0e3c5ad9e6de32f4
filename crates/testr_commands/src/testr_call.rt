//! The top call: `testr`.

ghost use Rattle.std.specs.Prelude.{◌≡◌, ◌≤◌, [], ℕ, List, true, false, None, OnOk, option_map};
ghost use Rattle.std.specs.Io.KnownBytes.{Appends};
ghost use Rattle.edge_io.specs.Bytes.{AppendsPrefix};
ghost use Rattle.edge_io.specs.Causes.{HasCause, Rose};
ghost use Rattle.edge_io.specs.Disk.{Files, Folder};
ghost use Rattle.edge_io.specs.Seen.{Seen};
ghost use Rattle.edge_io.specs.Spawners.{Spawning};
ghost use Rattle.command_words.specs.Items.{texts};
ghost use Rattle.command_steps.specs.Outside.{outside};
ghost use Rattle.testr_commands.specs.Program.{Answers};
ghost use Rattle.testr_commands.specs.Endings.{Adding, Begun};
ghost use Rattle.testr_commands.specs.Spoken.{packets_for, Saying, Streams};
ghost use Rattle.testr_commands.specs.Elsewhere.{TestrPromises};
ghost use Rattle.testr_commands.specs.WholeCall.{PromisesEnding, PromisesSaying, PromisesExpecting, PromisesCommand, most_workers_text};
ghost use Rattle.testr_commands.specs.Sparing.{SparesReads};
ghost use Rattle.testr_commands.specs.SparingRun.{SparesRun};
ghost use Rattle.testr_words.specs.Tasks.{task_of, task_with, forces, hides, live_of, streams, warns, expects};
ghost use Rattle.testr_words.specs.Words.{asked_by, forced_by, streamed_by};
ghost use Rattle.testr_words.specs.declared.command.Face.TheVariants.{Testr};
ghost use Rattle.testr_words.specs.declared.command.Verb.TheVariants.{Run, ListTests, SelfTest};

use crate::Refusal;
use crate::answer::{answer, end_stream};
use crate::elsewhere::follow_anywhere;
use crate::list::list;
use crate::missing_report::{MissingReport, answer_left, answer_left_behind};
use crate::null_sink::NullSink;
use crate::run::run;
use crate::selftest::selftest;
use crate::single_thread::quiet_ready;
use command_steps::{Silenced, UsageFault, make_store_where_none, read_ids};
use edge_io::{Failed, Shelf, Sink, Site, Source, Spawner, write_whole};
use std::alloc::Global;
use std::sync::Wait;
use std::thread::Threads;
use sub_number::IdList;
use suite_plan::read_conf;
use testr_words::{Command, Face, LiveKind, Verb, drawing_of, read_command_as};

/// Does what the words behind `testr` say, and answers the exit status: 0 where it was done and no test failed, 1 where a
/// test failed, 2 where the words are no command, 3 for a named refusal, 4 for a fault of the outside, 5 for want of
/// memory.
///
/// `init` makes a repository. `load` reads the files that are named, or the input where none is, to their ends, one after
/// another; keeps what is recorded of them as the next run, the first file under lane 0; and prints the run's report.
/// `last`, `failing`, `slowest` and `stats` tell of the runs and change nothing; `failing` goes by its cache, where one is
/// there, and tells what all runs say where the folder is sound. A refusal prints one line to `err`. Before
/// a run is kept a refusal leaves the shown runs as they were; behind that a refusal leaves the new run. A stop at any moment
/// leaves the earlier runs, and the new one wholly or not at all.
///
/// `run` reads `.testr.conf`, starts the project's tests in worker processes, reads these side by side, keeps what is
/// recorded of them as the next run, and prints its report; `list-tests` prints the tests that the project lists. The two
/// may wait for programs that they start. All other commands leave the spawner as it was. `selftest` runs made-up workers in
/// memory, for whose threads it may wait, and prints the summary of their run; it touches the sinks alone.
///
/// While a run is recorded, by `run` or `load`, the lines of the tests that complete are written to `err` where `--live` asks for
/// them, and its packets to `out`, in place of its report, where `--subunit` does. A sink that fails is told no more; the run goes on.
pub fn testr<R: Threads + Wait + Sync, H: Shelf, S: Spawner, F: Site, I: Source, O: Sink, E: Sink>(
    rt: &R,
    alloc: Global,
    words: &[String],
    shelf: &mut H,
    spawner: &mut S,
    site: &mut F,
    input: &mut I,
    out: &mut O,
    err: &mut E,
) -> u8
    ensures promises { TestrPromises (F.folder site.old) Testr (texts words.now)
        (outside (H.seen shelf.old) (F.seen site.old) (S.seen spawner.old) (I.seen input.old) (O.seen out.old) (E.seen err.old))
        (outside (H.seen shelf.new) (F.seen site.new) (S.seen spawner.new) (I.seen input.new) (O.seen out.new) (E.seen err.new))
        result }
    ensures spares { SparesReads (asked_by (F.folder site.old) Testr (texts words.now)) (H.seen shelf.old).told (H.clock shelf.old) (H.clock shelf.new) }
    ensures spares_run { forced_by (F.folder site.old) Testr (texts words.now) ≡ false → streamed_by (F.folder site.old) Testr (texts words.now) ≡ false → SparesRun (asked_by (F.folder site.old) Testr (texts words.now)) (H.seen shelf.old).told (H.seen shelf.new).told result (H.clock shelf.old) (H.clock shelf.new) }
{
    testr_as(
        rt,
        alloc,
        Face::Testr,
        words,
        shelf,
        spawner,
        site,
        input,
        out,
        err,
    )
}

/// Does what the words behind the name of this face say, as `testr` does for its own name, and answers the same statuses. To
/// `stestr` some words mean more (docs/COMMANDS.md, "Words").
pub fn testr_as<
    R: Threads + Wait + Sync,
    H: Shelf,
    S: Spawner,
    F: Site,
    I: Source,
    O: Sink,
    E: Sink,
>(
    rt: &R,
    alloc: Global,
    face: Face,
    words: &[String],
    shelf: &mut H,
    spawner: &mut S,
    site: &mut F,
    input: &mut I,
    out: &mut O,
    err: &mut E,
) -> u8
    ensures promises { TestrPromises (F.folder site.old) face (texts words.now)
        (outside (H.seen shelf.old) (F.seen site.old) (S.seen spawner.old) (I.seen input.old) (O.seen out.old) (E.seen err.old))
        (outside (H.seen shelf.new) (F.seen site.new) (S.seen spawner.new) (I.seen input.new) (O.seen out.new) (E.seen err.new))
        result }
    ensures spares { SparesReads (asked_by (F.folder site.old) face (texts words.now)) (H.seen shelf.old).told (H.clock shelf.old) (H.clock shelf.new) }
    ensures spares_run { forced_by (F.folder site.old) face (texts words.now) ≡ false → streamed_by (F.folder site.old) face (texts words.now) ≡ false → SparesRun (asked_by (F.folder site.old) face (texts words.now)) (H.seen shelf.old).told (H.seen shelf.new).told result (H.clock shelf.old) (H.clock shelf.new) }
{
    match read_command_as(alloc, face, words) {
        Ok(Some(command)) => follow_anywhere(
            rt, alloc, command, shelf, spawner, site, input, out, err,
        ),
        Ok(None) => answer(Err(Refusal::Usage(UsageFault::Words)), err),
        Err(fault) => answer(Err(Refusal::Memory(fault)), err),
    }
}

// Tells first that there are not so many workers, where the command asks for more. Does what it says then, and answers its
// status.
pub(crate) fn follow<
    R: Threads + Wait + Sync,
    H: Shelf,
    S: Spawner,
    F: Site,
    I: Source,
    O: Sink,
    E: Sink,
>(
    rt: &R,
    alloc: Global,
    command: &Command,
    shelf: &mut H,
    spawner: &mut S,
    site: &mut F,
    input: &mut I,
    out: &mut O,
    err: &mut E,
) -> u8
    ensures promises { PromisesCommand (warns (F.folder site.old) command.now) (streams (F.folder site.old) command.now) (live_of (F.folder site.old) command.now) (hides (F.folder site.old) command.now) (forces (F.folder site.old) command.now) (expects (F.folder site.old) command.now) (task_of (F.folder site.old) command.now)
        (outside (H.seen shelf.old) (F.seen site.old) (S.seen spawner.old) (I.seen input.old) (O.seen out.old) (E.seen err.old))
        (outside (H.seen shelf.new) (F.seen site.new) (S.seen spawner.new) (I.seen input.new) (O.seen out.new) (E.seen err.new))
        result }
    ensures spares { SparesReads (task_of (F.folder site.old) command.now) (H.seen shelf.old).told (H.clock shelf.old) (H.clock shelf.new) }
    ensures spares_run { forces (F.folder site.old) command.now ≡ false → streams (F.folder site.old) command.now ≡ false → SparesRun (task_of (F.folder site.old) command.now) (H.seen shelf.old).told (H.seen shelf.new).told result (H.clock shelf.old) (H.clock shelf.new) }
{
    if !command.warns() {
        return follow_expecting(rt, alloc, command, shelf, spawner, site, input, out, err);
    }
    // Whether the line was written changes nothing.
    let _ = tell_most_workers(err);
    follow_expecting(rt, alloc, command, shelf, spawner, site, input, out, err)
}

// Reads first the list of what is expected, where the command names one. Does what it says then, and answers its status.
fn follow_expecting<
    R: Threads + Wait + Sync,
    H: Shelf,
    S: Spawner,
    F: Site,
    I: Source,
    O: Sink,
    E: Sink,
>(
    rt: &R,
    alloc: Global,
    command: &Command,
    shelf: &mut H,
    spawner: &mut S,
    site: &mut F,
    input: &mut I,
    out: &mut O,
    err: &mut E,
) -> u8
    ensures promises { PromisesExpecting (streams (F.folder site.old) command.now) (live_of (F.folder site.old) command.now) (hides (F.folder site.old) command.now) (forces (F.folder site.old) command.now) (expects (F.folder site.old) command.now) (task_of (F.folder site.old) command.now)
        (outside (H.seen shelf.old) (F.seen site.old) (S.seen spawner.old) (I.seen input.old) (O.seen out.old) (E.seen err.old))
        (outside (H.seen shelf.new) (F.seen site.new) (S.seen spawner.new) (I.seen input.new) (O.seen out.new) (E.seen err.new))
        result }
    ensures spares { SparesReads (task_of (F.folder site.old) command.now) (H.seen shelf.old).told (H.clock shelf.old) (H.clock shelf.new) }
    ensures spares_run { forces (F.folder site.old) command.now ≡ false → streams (F.folder site.old) command.now ≡ false → SparesRun (task_of (F.folder site.old) command.now) (H.seen shelf.old).told (H.seen shelf.new).told result (H.clock shelf.old) (H.clock shelf.new) }
{
    match command.expected() {
        None => follow_warned(
            rt, alloc, command, None, shelf, spawner, site, input, out, err,
        ),
        Some(name) => match read_ids(alloc, name, site) {
            Ok(ids) => follow_warned(
                rt,
                alloc,
                command,
                Some(&ids),
                shelf,
                spawner,
                site,
                input,
                out,
                err,
            ),
            Err(refusal) => answer(Err(Refusal::LoadList(refusal)), err),
        },
    }
}

// Does what the command says, without its report where it asks for none, or for packets in its place, and answers its status.
fn follow_warned<
    R: Threads + Wait + Sync,
    H: Shelf,
    S: Spawner,
    F: Site,
    I: Source,
    O: Sink,
    E: Sink,
>(
    rt: &R,
    alloc: Global,
    command: &Command,
    expected: Option<&IdList>,
    shelf: &mut H,
    spawner: &mut S,
    site: &mut F,
    input: &mut I,
    out: &mut O,
    err: &mut E,
) -> u8
    ensures promises { PromisesSaying (streams (F.folder site.old) command.now) (live_of (F.folder site.old) command.now) (hides (F.folder site.old) command.now) (forces (F.folder site.old) command.now) false (option_map (λ ids. ids.now) expected.entry) (task_of (F.folder site.old) command.now)
        (outside (H.seen shelf.old) (F.seen site.old) (S.seen spawner.old) (I.seen input.old) (O.seen out.old) (E.seen err.old))
        (outside (H.seen shelf.new) (F.seen site.new) (S.seen spawner.new) (I.seen input.new) (O.seen out.new) (E.seen err.new))
        result }
    ensures spares { SparesReads (task_of (F.folder site.old) command.now) (H.seen shelf.old).told (H.clock shelf.old) (H.clock shelf.new) }
    ensures spares_run { forces (F.folder site.old) command.now ≡ false → streams (F.folder site.old) command.now ≡ false → SparesRun (task_of (F.folder site.old) command.now) (H.seen shelf.old).told (H.seen shelf.new).told result (H.clock shelf.old) (H.clock shelf.new) }
{
    if command.streams() {
        return follow_streaming(
            rt, alloc, command, expected, shelf, spawner, site, input, out, err,
        );
    }
    let mut stream = NullSink;
    let mut silenced = Silenced::none();
    if !command.hides_report() {
        return follow_forced(
            rt,
            alloc,
            command,
            expected,
            shelf,
            spawner,
            site,
            input,
            out,
            err,
            &mut stream,
            &mut silenced,
        );
    }
    let mut nowhere = NullSink;
    follow_forced(
        rt,
        alloc,
        command,
        expected,
        shelf,
        spawner,
        site,
        input,
        &mut nowhere,
        err,
        &mut stream,
        &mut silenced,
    )
}

// Does what the command says, with the run's packets in place of its report, and answers its status.
fn follow_streaming<
    R: Threads + Wait + Sync,
    H: Shelf,
    S: Spawner,
    F: Site,
    I: Source,
    O: Sink,
    E: Sink,
>(
    rt: &R,
    alloc: Global,
    command: &Command,
    expected: Option<&IdList>,
    shelf: &mut H,
    spawner: &mut S,
    site: &mut F,
    input: &mut I,
    out: &mut O,
    err: &mut E,
) -> u8
    requires streams { streams (F.folder site.old) command.now ≡ true }
    ensures promises { Streams (packets_for (task_of (F.folder site.old) command.now)) (Saying (live_of (F.folder site.old) command.now) (task_of (F.folder site.old) command.now) (PromisesEnding (forces (F.folder site.old) command.now) false (option_map (λ ids. ids.now) expected.entry) (task_of (F.folder site.old) command.now)))
        (outside (H.seen shelf.old) (F.seen site.old) (S.seen spawner.old) (I.seen input.old) (O.seen out.old) (E.seen err.old))
        (outside (H.seen shelf.new) (F.seen site.new) (S.seen spawner.new) (I.seen input.new) (O.seen out.new) (E.seen err.new))
        result }
    ensures spares { SparesReads (task_of (F.folder site.old) command.now) (H.seen shelf.old).told (H.clock shelf.old) (H.clock shelf.new) }
{
    let mut nowhere = NullSink;
    let mut silenced = Silenced::none();
    let answer = follow_forced(
        rt,
        alloc,
        command,
        expected,
        shelf,
        spawner,
        site,
        input,
        &mut nowhere,
        err,
        out,
        &mut silenced,
    );
    end_stream(answer, silenced, err)
}

// Makes a repository first, where the command asks for that and there is none. Does what the command says then, and answers
// its status.
fn follow_forced<
    R: Threads + Wait + Sync,
    H: Shelf,
    S: Spawner,
    F: Site,
    I: Source,
    O: Sink,
    E: Sink,
    P: Sink,
>(
    rt: &R,
    alloc: Global,
    command: &Command,
    expected: Option<&IdList>,
    shelf: &mut H,
    spawner: &mut S,
    site: &mut F,
    input: &mut I,
    out: &mut O,
    err: &mut E,
    stream: &mut P,
    silenced: &mut Silenced,
) -> u8
    requires speaks { (silenced.old.errors ≡ false) × (silenced.old.out ≡ false) }
    ensures promises { Saying (live_of (F.folder site.old) command.now) (task_of (F.folder site.old) command.now) (PromisesEnding (forces (F.folder site.old) command.now) false (option_map (λ ids. ids.now) expected.entry) (task_of (F.folder site.old) command.now))
        (outside (H.seen shelf.old) (F.seen site.old) (S.seen spawner.old) (I.seen input.old) (O.seen out.old) (E.seen err.old))
        (outside (H.seen shelf.new) (F.seen site.new) (S.seen spawner.new) (I.seen input.new) (O.seen out.new) (E.seen err.new))
        result }
    ensures spares { SparesReads (task_of (F.folder site.old) command.now) (H.seen shelf.old).told (H.clock shelf.old) (H.clock shelf.new) }
    ensures spares_run { forces (F.folder site.old) command.now ≡ false → SparesRun (task_of (F.folder site.old) command.now) (H.seen shelf.old).told (H.seen shelf.new).told result (H.clock shelf.old) (H.clock shelf.new) }
    ensures streamed { streams (F.folder site.old) command.now ≡ true → packets_for (task_of (F.folder site.old) command.now) result (H.seen shelf.new).told (P.seen stream.old) (P.seen stream.new) silenced.new.out }
    ensures silent { silenced.new.errors ≡ true → Rose (E.seen err.old).faults (E.seen err.new).faults }
    ensures heard { streams (F.folder site.old) command.now ≡ true → silenced.new.errors ≡ false → result ≤ 1 → (E.seen err.new).faults ≡ (E.seen err.old).faults }
{
    if !command.forces() {
        return follow_ready(
            rt, alloc, command, expected, shelf, spawner, site, input, out, err, stream, silenced,
        );
    }
    match make_store_where_none(shelf) {
        Ok(()) => follow_ready(
            rt, alloc, command, expected, shelf, spawner, site, input, out, err, stream, silenced,
        ),
        Err(fault) => answer(Err(Refusal::Init(fault)), err),
    }
}

// Does what the command says, and answers its status.
fn follow_ready<
    R: Threads + Wait + Sync,
    H: Shelf,
    S: Spawner,
    F: Site,
    I: Source,
    O: Sink,
    E: Sink,
    P: Sink,
>(
    rt: &R,
    alloc: Global,
    command: &Command,
    expected: Option<&IdList>,
    shelf: &mut H,
    spawner: &mut S,
    site: &mut F,
    input: &mut I,
    out: &mut O,
    err: &mut E,
    stream: &mut P,
    silenced: &mut Silenced,
) -> u8
    requires speaks { (silenced.old.errors ≡ false) × (silenced.old.out ≡ false) }
    ensures answers { Saying (live_of (F.folder site.old) command.now) (task_of (F.folder site.old) command.now) (Adding Begun (option_map (λ ids. ids.now) expected.entry) (task_of (F.folder site.old) command.now) (Answers false (task_of (F.folder site.old) command.now)))
        (outside (H.seen shelf.old) (F.seen site.old) (S.seen spawner.old) (I.seen input.old) (O.seen out.old) (E.seen err.old))
        (outside (H.seen shelf.new) (F.seen site.new) (S.seen spawner.new) (I.seen input.new) (O.seen out.new) (E.seen err.new))
        result }
    ensures spares { SparesReads (task_of (F.folder site.old) command.now) (H.seen shelf.old).told (H.clock shelf.old) (H.clock shelf.new) }
    ensures spares_run { SparesRun (task_of (F.folder site.old) command.now) (H.seen shelf.old).told (H.seen shelf.new).told result (H.clock shelf.old) (H.clock shelf.new) }
    ensures streamed { streams (F.folder site.old) command.now ≡ true → packets_for (task_of (F.folder site.old) command.now) result (H.seen shelf.new).told (P.seen stream.old) (P.seen stream.new) silenced.new.out }
    ensures silent { silenced.new.errors ≡ true → Rose (E.seen err.old).faults (E.seen err.new).faults }
    ensures heard { streams (F.folder site.old) command.now ≡ true → silenced.new.errors ≡ false → result ≤ 1 → (E.seen err.new).faults ≡ (E.seen err.old).faults }
{
    match command.verb {
        Verb::Run => run_suite(
            rt, alloc, command, shelf, spawner, site, out, err, stream, silenced,
        ),
        Verb::ListTests => list_suite(alloc, command, spawner, site, out, err),
        Verb::SelfTest => test_itself(rt, alloc, command, out, err),
        _ => quiet_ready(
            alloc, command, expected, shelf, site, input, out, err, stream, silenced,
        ),
    }
}

// Runs the workers of the drawing that the command asks for, and sums them up.
fn test_itself<R: Threads + Wait + Sync, O: Sink, E: Sink>(
    rt: &R,
    alloc: Global,
    command: &Command,
    out: &mut O,
    err: &mut E,
) -> u8
    ensures { (folder : Seen Folder) → (site : Seen Files) → (spawner : Seen Spawning) → (input : Seen (List ℕ)) → Answers false (task_with [] SelfTest command.now)
        (outside folder site spawner input (O.seen out.old) (E.seen err.old))
        (outside folder site spawner input (O.seen out.new) (E.seen err.new))
        result }
{
    match drawing_of(command) {
        Some(drawing) => {
            let outcome = selftest(rt, alloc, drawing, out);
            answer(outcome, err)
        }
        None => answer(Err(Refusal::Usage(UsageFault::Words)), err),
    }
}

// Runs tests of the project, by its configuration. What is said of the run is said as the command asks.
fn run_suite<R: Threads + Wait + Sync, H: Shelf, S: Spawner, F: Site, O: Sink, E: Sink, P: Sink>(
    rt: &R,
    alloc: Global,
    command: &Command,
    shelf: &mut H,
    spawner: &mut S,
    site: &mut F,
    out: &mut O,
    err: &mut E,
    stream: &mut P,
    silenced: &mut Silenced,
) -> u8
    requires speaks { (silenced.old.errors ≡ false) × (silenced.old.out ≡ false) }
    ensures answers { (input : Seen (List ℕ)) → Saying command.now.live (task_with (F.folder site.old) Run command.now) (Adding Begun None (task_with (F.folder site.old) Run command.now) (Answers false (task_with (F.folder site.old) Run command.now)))
        (outside (H.seen shelf.old) (F.seen site.old) (S.seen spawner.old) input (O.seen out.old) (E.seen err.old))
        (outside (H.seen shelf.new) (F.seen site.new) (S.seen spawner.new) input (O.seen out.new) (E.seen err.new))
        result }
    ensures spares_run { SparesRun (task_with (F.folder site.old) Run command.now) (H.seen shelf.old).told (H.seen shelf.new).told result (H.clock shelf.old) (H.clock shelf.new) }
    ensures streamed { command.now.subunit ≡ true → packets_for (task_with (F.folder site.old) Run command.now) result (H.seen shelf.new).told (P.seen stream.old) (P.seen stream.new) silenced.new.out }
    ensures silent { silenced.new.errors ≡ true → Rose (E.seen err.old).faults (E.seen err.new).faults }
    ensures heard { silenced.new.errors ≡ false → result ≤ 1 → (E.seen err.new).faults ≡ (E.seen err.old).faults }
{
    match read_conf(alloc, command.face, &command.project, site) {
        Ok(conf) => {
            let mut left = MissingReport::none(alloc);
            match command.live {
                LiveKind::Nothing => {
                    let mut nowhere = NullSink;
                    let outcome = run(
                        rt,
                        alloc,
                        command,
                        &conf,
                        shelf,
                        spawner,
                        site,
                        out,
                        &mut nowhere,
                        stream,
                        silenced,
                        &mut left,
                    );
                    let (status, failed) = answer_left(outcome, &left, err);
                    // That sink cannot fail; the errors' own may have.
                    silenced.errors = failed;
                    status
                }
                LiveKind::Tests | LiveKind::Failures | LiveKind::Dots => {
                    let outcome = run(
                        rt, alloc, command, &conf, shelf, spawner, site, out, err, stream,
                        silenced, &mut left,
                    );
                    answer_left_behind(outcome, &left, err, silenced)
                }
            }
        }
        Err(refusal) => answer(Err(Refusal::Conf(refusal)), err),
    }
}

// Lists tests of the project, by its configuration.
fn list_suite<S: Spawner, F: Site, O: Sink, E: Sink>(
    alloc: Global,
    command: &Command,
    spawner: &mut S,
    site: &mut F,
    out: &mut O,
    err: &mut E,
) -> u8
    ensures { (folder : Seen Folder) → (input : Seen (List ℕ)) → Answers false (task_with (F.folder site.old) ListTests command.now)
        (outside folder (F.seen site.old) (S.seen spawner.old) input (O.seen out.old) (E.seen err.old))
        (outside folder (F.seen site.new) (S.seen spawner.new) input (O.seen out.new) (E.seen err.new))
        result }
{
    match read_conf(alloc, command.face, &command.project, site) {
        Ok(conf) => {
            let outcome = list(alloc, command, &conf, spawner, site, out);
            answer(outcome, err)
        }
        Err(refusal) => answer(Err(Refusal::Conf(refusal)), err),
    }
}

// Writes the line that tells that there are not so many workers.
pub(crate) fn tell_most_workers<E: Sink>(err: &mut E) -> Result<(), Failed>
    ensures whole { OnOk result (Appends (E.seen err.old).told (E.seen err.new).told most_workers_text) }
    ensures prefix { AppendsPrefix (E.seen err.old).told (E.seen err.new).told most_workers_text }
    ensures cause { HasCause (E.seen err.old).faults (E.seen err.new).faults result }
{
    write_whole(err, b"testr: --concurrency: 64 workers at most\n")
}
