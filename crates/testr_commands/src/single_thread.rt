//! What a call does that starts no program and no thread: `quiet`.

ghost use Rattle.std.specs.Prelude.{◌≡◌, ◌≤◌, ℕ, List, length, true, false, Some, option_map};
ghost use Rattle.edge_io.specs.Causes.{Rose};
ghost use Rattle.edge_io.specs.Disk.{Files};
ghost use Rattle.edge_io.specs.Seen.{Seen};
ghost use Rattle.edge_io.specs.Spawners.{Spawning};
ghost use Rattle.command_steps.specs.Outside.{outside, work};
ghost use Rattle.testr_commands.specs.Program.{Performs, Answers};
ghost use Rattle.testr_commands.specs.Endings.{Adding, Begun, Expecting};
ghost use Rattle.testr_commands.specs.Spoken.{packets_for, Saying, Streams};
ghost use Rattle.testr_commands.specs.WholeCall.{PromisesEnding, PromisesSaying};
ghost use Rattle.testr_commands.specs.Sparing.{SparesReads};
ghost use Rattle.testr_words.specs.Tasks.{task_of, task_with, quiet_of, forces_quiet, hides_quiet, live_for, live_quiet, load as loads, streams_for, streams_quiet, expects_quiet};
ghost use Rattle.testr_words.specs.Suites.{load_options};
ghost use Rattle.testr_words.specs.declared.command.Verb.TheVariants.{Load};

use crate::answer::{answer, end_stream};
use crate::ask::ask;
use crate::init::init;
use crate::load::load;
use crate::missing_report::{MissingReport, answer_expected};
use crate::null_sink::NullSink;
use crate::upgrade::upgrade;
use crate::{Refusal, Verdict};
use command_steps::{Silenced, UsageFault, make_store_where_none, read_ids};
use edge_io::{Shelf, Sink, Site, Source};
use std::alloc::Global;
use sub_number::IdList;
use testr_words::{Command, LiveKind, MOST_FILES, Question, Verb};

/// Does what `testr` does on the words of this command, and answers its status. It starts no program and no thread, and
/// returns. A command that needs them is answered as words that are no command.
///
/// It has no spawner; so what it promises it promises of each, as of one that is left as it was.
pub fn quiet<H: Shelf, F: Site, I: Source, O: Sink, E: Sink>(
    alloc: Global,
    command: &Command,
    shelf: &mut H,
    site: &mut F,
    input: &mut I,
    out: &mut O,
    err: &mut E,
) -> u8
    ensures promises { (spawner : Seen Spawning) → Expecting (expects_quiet (F.folder site.old) command.now) (λ expected. PromisesSaying (streams_quiet (F.folder site.old) command.now) (live_quiet (F.folder site.old) command.now) (hides_quiet (F.folder site.old) command.now) (forces_quiet (F.folder site.old) command.now) false expected (quiet_of (task_of (F.folder site.old) command.now)))
        (outside (H.seen shelf.old) (F.seen site.old) spawner (I.seen input.old) (O.seen out.old) (E.seen err.old))
        (outside (H.seen shelf.new) (F.seen site.new) spawner (I.seen input.new) (O.seen out.new) (E.seen err.new))
        result }
    ensures spares { SparesReads (task_of (F.folder site.old) command.now) (H.seen shelf.old).told (H.clock shelf.old) (H.clock shelf.new) }
{
    match command.expected() {
        None => quiet_read(alloc, command, None, shelf, site, input, out, err),
        Some(name) => match read_ids(alloc, name, site) {
            Ok(ids) => quiet_read(alloc, command, Some(&ids), shelf, site, input, out, err),
            Err(refusal) => answer(Err(Refusal::LoadList(refusal)), err),
        },
    }
}

// Does what the command says, without its report where it asks for none, or for packets in its place, and answers its status.
fn quiet_read<H: Shelf, F: Site, I: Source, O: Sink, E: Sink>(
    alloc: Global,
    command: &Command,
    expected: Option<&IdList>,
    shelf: &mut H,
    site: &mut F,
    input: &mut I,
    out: &mut O,
    err: &mut E,
) -> u8
    ensures promises { (spawner : Seen Spawning) → PromisesSaying (streams_quiet (F.folder site.old) command.now) (live_quiet (F.folder site.old) command.now) (hides_quiet (F.folder site.old) command.now) (forces_quiet (F.folder site.old) command.now) false (option_map (λ ids. ids.now) expected.entry) (quiet_of (task_of (F.folder site.old) command.now))
        (outside (H.seen shelf.old) (F.seen site.old) spawner (I.seen input.old) (O.seen out.old) (E.seen err.old))
        (outside (H.seen shelf.new) (F.seen site.new) spawner (I.seen input.new) (O.seen out.new) (E.seen err.new))
        result }
    ensures spares { SparesReads (task_of (F.folder site.old) command.now) (H.seen shelf.old).told (H.clock shelf.old) (H.clock shelf.new) }
{
    if command.streams_quietly() {
        return quiet_streaming(alloc, command, expected, shelf, site, input, out, err);
    }
    let mut stream = NullSink;
    let mut silenced = Silenced::none();
    if !command.hides_report_quietly() {
        return quiet_forced(
            alloc,
            command,
            expected,
            shelf,
            site,
            input,
            out,
            err,
            &mut stream,
            &mut silenced,
        );
    }
    let mut hidden = NullSink;
    quiet_forced(
        alloc,
        command,
        expected,
        shelf,
        site,
        input,
        &mut hidden,
        err,
        &mut stream,
        &mut silenced,
    )
}

// Does what the command says, with the run's packets in place of its report, and answers its status.
fn quiet_streaming<H: Shelf, F: Site, I: Source, O: Sink, E: Sink>(
    alloc: Global,
    command: &Command,
    expected: Option<&IdList>,
    shelf: &mut H,
    site: &mut F,
    input: &mut I,
    out: &mut O,
    err: &mut E,
) -> u8
    requires streams { streams_quiet (F.folder site.old) command.now ≡ true }
    ensures promises { (spawner : Seen Spawning) → Streams (packets_for (quiet_of (task_of (F.folder site.old) command.now))) (Saying (live_quiet (F.folder site.old) command.now) (quiet_of (task_of (F.folder site.old) command.now)) (PromisesEnding (forces_quiet (F.folder site.old) command.now) false (option_map (λ ids. ids.now) expected.entry) (quiet_of (task_of (F.folder site.old) command.now))))
        (outside (H.seen shelf.old) (F.seen site.old) spawner (I.seen input.old) (O.seen out.old) (E.seen err.old))
        (outside (H.seen shelf.new) (F.seen site.new) spawner (I.seen input.new) (O.seen out.new) (E.seen err.new))
        result }
    ensures spares { SparesReads (task_of (F.folder site.old) command.now) (H.seen shelf.old).told (H.clock shelf.old) (H.clock shelf.new) }
{
    let mut nowhere = NullSink;
    let mut silenced = Silenced::none();
    let answer = quiet_forced(
        alloc,
        command,
        expected,
        shelf,
        site,
        input,
        &mut nowhere,
        err,
        out,
        &mut silenced,
    );
    end_stream(answer, silenced, err)
}

// Makes a repository first, where the command asks for that and there is none. Does what the command says then, and answers
// its status.
fn quiet_forced<H: Shelf, F: Site, I: Source, O: Sink, E: Sink, P: Sink>(
    alloc: Global,
    command: &Command,
    expected: Option<&IdList>,
    shelf: &mut H,
    site: &mut F,
    input: &mut I,
    out: &mut O,
    err: &mut E,
    stream: &mut P,
    silenced: &mut Silenced,
) -> u8
    requires speaks { (silenced.old.errors ≡ false) × (silenced.old.out ≡ false) }
    ensures promises { (spawner : Seen Spawning) → Saying (live_quiet (F.folder site.old) command.now) (quiet_of (task_of (F.folder site.old) command.now)) (PromisesEnding (forces_quiet (F.folder site.old) command.now) false (option_map (λ ids. ids.now) expected.entry) (quiet_of (task_of (F.folder site.old) command.now)))
        (outside (H.seen shelf.old) (F.seen site.old) spawner (I.seen input.old) (O.seen out.old) (E.seen err.old))
        (outside (H.seen shelf.new) (F.seen site.new) spawner (I.seen input.new) (O.seen out.new) (E.seen err.new))
        result }
    ensures spares { SparesReads (task_of (F.folder site.old) command.now) (H.seen shelf.old).told (H.clock shelf.old) (H.clock shelf.new) }
    ensures streamed { streams_quiet (F.folder site.old) command.now ≡ true → packets_for (quiet_of (task_of (F.folder site.old) command.now)) result (H.seen shelf.new).told (P.seen stream.old) (P.seen stream.new) silenced.new.out }
    ensures silent { silenced.new.errors ≡ true → Rose (E.seen err.old).faults (E.seen err.new).faults }
    ensures heard { streams_quiet (F.folder site.old) command.now ≡ true → silenced.new.errors ≡ false → result ≤ 1 → (E.seen err.new).faults ≡ (E.seen err.old).faults }
{
    if !command.forces_quietly() {
        return quiet_ready(
            alloc, command, expected, shelf, site, input, out, err, stream, silenced,
        );
    }
    match make_store_where_none(shelf) {
        Ok(()) => quiet_ready(
            alloc, command, expected, shelf, site, input, out, err, stream, silenced,
        ),
        Err(fault) => answer(Err(Refusal::Init(fault)), err),
    }
}

// Does what the command says, and answers its status.
pub(crate) fn quiet_ready<H: Shelf, F: Site, I: Source, O: Sink, E: Sink, P: Sink>(
    alloc: Global,
    command: &Command,
    expected: Option<&IdList>,
    shelf: &mut H,
    site: &mut F,
    input: &mut I,
    out: &mut O,
    err: &mut E,
    stream: &mut P,
    silenced: &mut Silenced,
) -> u8
    requires speaks { (silenced.old.errors ≡ false) × (silenced.old.out ≡ false) }
    ensures answers { (spawner : Seen Spawning) → Saying (live_quiet (F.folder site.old) command.now) (quiet_of (task_of (F.folder site.old) command.now)) (Adding Begun (option_map (λ ids. ids.now) expected.entry) (quiet_of (task_of (F.folder site.old) command.now)) (Answers false (quiet_of (task_of (F.folder site.old) command.now))))
        (outside (H.seen shelf.old) (F.seen site.old) spawner (I.seen input.old) (O.seen out.old) (E.seen err.old))
        (outside (H.seen shelf.new) (F.seen site.new) spawner (I.seen input.new) (O.seen out.new) (E.seen err.new))
        result }
    ensures spares { SparesReads (task_of (F.folder site.old) command.now) (H.seen shelf.old).told (H.clock shelf.old) (H.clock shelf.new) }
    ensures streamed { streams_quiet (F.folder site.old) command.now ≡ true → packets_for (quiet_of (task_of (F.folder site.old) command.now)) result (H.seen shelf.new).told (P.seen stream.old) (P.seen stream.new) silenced.new.out }
    ensures silent { silenced.new.errors ≡ true → Rose (E.seen err.old).faults (E.seen err.new).faults }
    ensures heard { streams_quiet (F.folder site.old) command.now ≡ true → silenced.new.errors ≡ false → result ≤ 1 → (E.seen err.new).faults ≡ (E.seen err.old).faults }
{
    match command.verb {
        Verb::Load => load_named(
            alloc, command, expected, shelf, site, input, out, err, stream, silenced,
        ),
        _ => {
            let outcome = perform(alloc, command, shelf, out);
            answer(outcome, err)
        }
    }
}

// Loads the sources that the command names, where these are 64 at most.
fn load_named<H: Shelf, F: Site, I: Source, O: Sink, E: Sink, P: Sink>(
    alloc: Global,
    command: &Command,
    expected: Option<&IdList>,
    shelf: &mut H,
    site: &mut F,
    input: &mut I,
    out: &mut O,
    err: &mut E,
    stream: &mut P,
    silenced: &mut Silenced,
) -> u8
    requires speaks { (silenced.old.errors ≡ false) × (silenced.old.out ≡ false) }
    ensures answers { (spawner : Seen Spawning) → Saying (live_for command.now.live (task_with (F.folder site.old) Load command.now)) (task_with (F.folder site.old) Load command.now) (Adding Begun (option_map (λ ids. ids.now) expected.entry) (task_with (F.folder site.old) Load command.now) (Answers false (task_with (F.folder site.old) Load command.now)))
        (outside (H.seen shelf.old) (F.seen site.old) spawner (I.seen input.old) (O.seen out.old) (E.seen err.old))
        (outside (H.seen shelf.new) (F.seen site.new) spawner (I.seen input.new) (O.seen out.new) (E.seen err.new))
        result }
    ensures streamed { streams_for command.now.subunit (task_with (F.folder site.old) Load command.now) ≡ true → packets_for (task_with (F.folder site.old) Load command.now) result (H.seen shelf.new).told (P.seen stream.old) (P.seen stream.new) silenced.new.out }
    ensures silent { silenced.new.errors ≡ true → Rose (E.seen err.old).faults (E.seen err.new).faults }
    ensures heard { silenced.new.errors ≡ false → result ≤ 1 → (E.seen err.new).faults ≡ (E.seen err.old).faults }
{
    if command.names.list().len() > MOST_FILES {
        return answer(Err(Refusal::Usage(UsageFault::Words)), err);
    }
    load_aloud(
        alloc, command, expected, shelf, site, input, out, err, stream, silenced,
    )
}

// Loads them. What is said of the run is said as the command asks.
fn load_aloud<H: Shelf, F: Site, I: Source, O: Sink, E: Sink, P: Sink>(
    alloc: Global,
    command: &Command,
    expected: Option<&IdList>,
    shelf: &mut H,
    site: &mut F,
    input: &mut I,
    out: &mut O,
    err: &mut E,
    stream: &mut P,
    silenced: &mut Silenced,
) -> u8
    requires few { length command.now.names ≤ 64 }
    requires speaks { (silenced.old.errors ≡ false) × (silenced.old.out ≡ false) }
    ensures answers { (spawner : Seen Spawning) → Saying command.now.live (Some (loads (load_options command.now) command.now.names)) (Adding Begun (option_map (λ ids. ids.now) expected.entry) (Some (loads (load_options command.now) command.now.names)) (Answers false (Some (loads (load_options command.now) command.now.names))))
        (outside (H.seen shelf.old) (F.seen site.old) spawner (I.seen input.old) (O.seen out.old) (E.seen err.old))
        (outside (H.seen shelf.new) (F.seen site.new) spawner (I.seen input.new) (O.seen out.new) (E.seen err.new))
        result }
    ensures streamed { command.now.subunit ≡ true → packets_for (Some (loads (load_options command.now) command.now.names)) result (H.seen shelf.new).told (P.seen stream.old) (P.seen stream.new) silenced.new.out }
    ensures silent { silenced.new.errors ≡ true → Rose (E.seen err.old).faults (E.seen err.new).faults }
    ensures heard { silenced.new.errors ≡ false → result ≤ 1 → (E.seen err.new).faults ≡ (E.seen err.old).faults }
{
    let mut left = MissingReport::none(alloc);
    match command.live {
        LiveKind::Nothing => {
            let mut nowhere = NullSink;
            let outcome = load(
                alloc,
                command,
                expected,
                shelf,
                site,
                input,
                out,
                &mut nowhere,
                stream,
                silenced,
                &mut left,
            );
            // That sink cannot fail.
            silenced.errors = false;
            answer_expected(outcome, expected, &left, err, silenced)
        }
        LiveKind::Tests | LiveKind::Failures | LiveKind::Dots => {
            let outcome = load(
                alloc, command, expected, shelf, site, input, out, err, stream, silenced, &mut left,
            );
            answer_expected(outcome, expected, &left, err, silenced)
        }
    }
}

// Does what the command says, which is not to load.
fn perform<'a, H: Shelf, O: Sink>(
    alloc: Global,
    command: &'a Command,
    shelf: &mut H,
    out: &mut O,
) -> Result<Verdict, Refusal<'a>>
    requires other { command.now.verb ≡ Load → ⊥ }
    ensures step { (folder : List ℕ) → (site : Seen Files) → (spawner : Seen Spawning) → (input : Seen (List ℕ)) → Performs (quiet_of (task_of folder command.now))
        (work (H.seen shelf.old) site spawner input (O.seen out.old))
        (work (H.seen shelf.new) site spawner input (O.seen out.new))
        result }
    ensures spares { (folder : List ℕ) → SparesReads (task_of folder command.now) (H.seen shelf.old).told (H.clock shelf.old) (H.clock shelf.new) }
{
    match command.verb {
        Verb::Init => init(shelf),
        Verb::Load => unreachable!(),
        Verb::Last => ask(alloc, command.last_question(), shelf, out),
        Verb::Failing => ask(alloc, command.failing_question(), shelf, out),
        Verb::Slowest => ask(alloc, Question::Slowest { all: command.all }, shelf, out),
        Verb::Stats => ask(alloc, Question::Stats, shelf, out),
        Verb::Upgrade => upgrade(alloc, shelf, out),
        Verb::Run | Verb::ListTests | Verb::SelfTest => { Err(Refusal::Usage(UsageFault::Words)) }
    }
}
