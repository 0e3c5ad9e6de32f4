//! A command of a project that asks for instances: they are provisioned in front of it, and disposed of behind it.

ghost use Rattle.std.specs.Prelude.{◌≡◌, ℕ, List, false};
ghost use Rattle.edge_io.specs.Disk.{Folder};
ghost use Rattle.edge_io.specs.Seen.{Seen};
ghost use Rattle.command_steps.specs.Outside.{outside, work};
ghost use Rattle.testr_commands.specs.Elsewhere.{AsksForInstances, CountsFor, GoesCounted, GoesElsewhere, GoesThere, HasProject, LooksAhead, PlainAnywhere, PromisesAnywhere, PromisesPlain, ReadiedAnywhere, Unprovides, plain};
ghost use Rattle.testr_commands.specs.Sparing.{SparesReads};
ghost use Rattle.testr_commands.specs.SparingRun.{SparesRun};
ghost use Rattle.testr_words.specs.Tasks.{task_of, forces, streams};

use crate::Refusal;
use crate::answer::answer;
use crate::testr_call::{follow, tell_most_workers};
use command_steps::{Provided, Unprovided, count_workers, dispose, make_store_where_none, provide};
use edge_io::{Shelf, Sink, Site, Source, Spawner};
use std::alloc::Global;
use std::sync::Wait;
use std::thread::Threads;
use suite_plan::{ConfRefusal, read_own_conf};
use testr_conf::Conf;
use testr_words::{Command, Verb};

// What a look at the project's configuration found, in front of all else.
#[derive(Drop)]
pub(crate) enum Look {
    // It asks for no instances, or is refused for what it says; or the command has no project.
    Here,
    // It asks for instances.
    There(Conf),
    // It was not read, for a reason that is none of its own.
    Unread(ConfRefusal),
}

// Whether the project of this command asks for instances.
fn look_ahead<F: Site>(alloc: Global, command: &Command, site: &mut F) -> Look
    requires { HasProject command.now.verb }
    ensures found { LooksAhead (F.folder site.old) command.now (F.seen site.old) (F.seen site.new) result }
    ensures path { F.folder site.new ≡ F.folder site.old }
{
    match read_own_conf(alloc, command.face, &command.project, site) {
        Ok(conf) => {
            if conf.asks_instances() {
                Look::There(conf)
            } else {
                Look::Here
            }
        }
        Err(ConfRefusal::Site) => Look::Unread(ConfRefusal::Site),
        Err(ConfRefusal::NoMemory) => Look::Unread(ConfRefusal::NoMemory),
        Err(ConfRefusal::Absent) => Look::Here,
        Err(ConfRefusal::Bad(_, _)) => Look::Here,
    }
}

/// Does what the command says, and answers its status. Where its project asks for instances, they are provisioned for as many
/// workers as the command has, it is done on them, and they are disposed of, whatever it answers.
pub(crate) fn follow_anywhere<
    R: Threads + Wait + Sync,
    H: Shelf,
    S: Spawner,
    F: Site,
    I: Source,
    O: Sink,
    E: Sink,
>(
    rt: &R,
    alloc: Global,
    command: Command,
    shelf: &mut H,
    spawner: &mut S,
    site: &mut F,
    input: &mut I,
    out: &mut O,
    err: &mut E,
) -> u8
    ensures promises { PromisesAnywhere (F.folder site.old) command
        (outside (H.seen shelf.old) (F.seen site.old) (S.seen spawner.old) (I.seen input.old) (O.seen out.old) (E.seen err.old))
        (outside (H.seen shelf.new) (F.seen site.new) (S.seen spawner.new) (I.seen input.new) (O.seen out.new) (E.seen err.new))
        result }
    ensures spares { SparesReads (task_of (F.folder site.old) command) (H.seen shelf.old).told (H.clock shelf.old) (H.clock shelf.new) }
    ensures spares_run { forces (F.folder site.old) command ≡ false → streams (F.folder site.old) command ≡ false → SparesRun (task_of (F.folder site.old) command) (H.seen shelf.old).told (H.seen shelf.new).told result (H.clock shelf.old) (H.clock shelf.new) }
{
    match command.verb {
        Verb::Run => follow_project(rt, alloc, command, shelf, spawner, site, input, out, err),
        Verb::ListTests => follow_project(
            rt, alloc, command, shelf, spawner, site, input, out, err,
        ),
        _ => follow(rt, alloc, &command, shelf, spawner, site, input, out, err),
    }
}

// The same of a command that has a project. Tells first that there are not so many workers, where it asks for more.
fn follow_project<
    R: Threads + Wait + Sync,
    H: Shelf,
    S: Spawner,
    F: Site,
    I: Source,
    O: Sink,
    E: Sink,
>(
    rt: &R,
    alloc: Global,
    command: Command,
    shelf: &mut H,
    spawner: &mut S,
    site: &mut F,
    input: &mut I,
    out: &mut O,
    err: &mut E,
) -> u8
    requires project { HasProject command.verb }
    ensures promises { PromisesAnywhere (F.folder site.old) command
        (outside (H.seen shelf.old) (F.seen site.old) (S.seen spawner.old) (I.seen input.old) (O.seen out.old) (E.seen err.old))
        (outside (H.seen shelf.new) (F.seen site.new) (S.seen spawner.new) (I.seen input.new) (O.seen out.new) (E.seen err.new))
        result }
    ensures spares_run { forces (F.folder site.old) command ≡ false → streams (F.folder site.old) command ≡ false → SparesRun (task_of (F.folder site.old) command) (H.seen shelf.old).told (H.seen shelf.new).told result (H.clock shelf.old) (H.clock shelf.new) }
{
    if !command.warns() {
        return follow_told(rt, alloc, command, shelf, spawner, site, input, out, err);
    }
    // Whether the line was written changes nothing.
    let _ = tell_most_workers(err);
    follow_told(rt, alloc, command, shelf, spawner, site, input, out, err)
}

// The same behind that line. Makes a repository first, where the command asks for that and there is none.
fn follow_told<
    R: Threads + Wait + Sync,
    H: Shelf,
    S: Spawner,
    F: Site,
    I: Source,
    O: Sink,
    E: Sink,
>(
    rt: &R,
    alloc: Global,
    command: Command,
    shelf: &mut H,
    spawner: &mut S,
    site: &mut F,
    input: &mut I,
    out: &mut O,
    err: &mut E,
) -> u8
    requires project { HasProject command.verb }
    ensures promises { ReadiedAnywhere (F.folder site.old) command
        (outside (H.seen shelf.old) (F.seen site.old) (S.seen spawner.old) (I.seen input.old) (O.seen out.old) (E.seen err.old))
        (outside (H.seen shelf.new) (F.seen site.new) (S.seen spawner.new) (I.seen input.new) (O.seen out.new) (E.seen err.new))
        result }
    ensures spares_run { forces (F.folder site.old) command ≡ false → streams (F.folder site.old) command ≡ false → SparesRun (task_of (F.folder site.old) command) (H.seen shelf.old).told (H.seen shelf.new).told result (H.clock shelf.old) (H.clock shelf.new) }
{
    if !command.forces() {
        return follow_plain(rt, alloc, command, shelf, spawner, site, input, out, err);
    }
    match make_store_where_none(shelf) {
        Ok(()) => follow_plain(rt, alloc, command, shelf, spawner, site, input, out, err),
        Err(fault) => answer(Err(Refusal::Init(fault)), err),
    }
}

// The same behind that. Looks first whether the project asks for instances.
fn follow_plain<
    R: Threads + Wait + Sync,
    H: Shelf,
    S: Spawner,
    F: Site,
    I: Source,
    O: Sink,
    E: Sink,
>(
    rt: &R,
    alloc: Global,
    command: Command,
    shelf: &mut H,
    spawner: &mut S,
    site: &mut F,
    input: &mut I,
    out: &mut O,
    err: &mut E,
) -> u8
    requires project { HasProject command.verb }
    ensures promises { PlainAnywhere (F.folder site.old) command
        (outside (H.seen shelf.old) (F.seen site.old) (S.seen spawner.old) (I.seen input.old) (O.seen out.old) (E.seen err.old))
        (outside (H.seen shelf.new) (F.seen site.new) (S.seen spawner.new) (I.seen input.new) (O.seen out.new) (E.seen err.new))
        result }
    ensures spares_run { streams (F.folder site.old) command ≡ false → SparesRun (task_of (F.folder site.old) command) (H.seen shelf.old).told (H.seen shelf.new).told result (H.clock shelf.old) (H.clock shelf.new) }
{
    match look_ahead(alloc, &command, site) {
        Look::Here => follow_here(rt, alloc, command, shelf, spawner, site, input, out, err),
        Look::There(conf) => follow_there(
            rt, alloc, command, conf, shelf, spawner, site, input, out, err,
        ),
        Look::Unread(refusal) => answer(Err(Refusal::Conf(refusal)), err),
    }
}

// Does here what the command says, for which no line is told first, and no repository made.
fn follow_here<
    R: Threads + Wait + Sync,
    H: Shelf,
    S: Spawner,
    F: Site,
    I: Source,
    O: Sink,
    E: Sink,
>(
    rt: &R,
    alloc: Global,
    command: Command,
    shelf: &mut H,
    spawner: &mut S,
    site: &mut F,
    input: &mut I,
    out: &mut O,
    err: &mut E,
) -> u8
    requires project { HasProject command.verb }
    ensures promises { PromisesPlain (F.folder site.old) command
        (outside (H.seen shelf.old) (F.seen site.old) (S.seen spawner.old) (I.seen input.old) (O.seen out.old) (E.seen err.old))
        (outside (H.seen shelf.new) (F.seen site.new) (S.seen spawner.new) (I.seen input.new) (O.seen out.new) (E.seen err.new))
        result }
    ensures spares_run { streams (F.folder site.old) command ≡ false → SparesRun (task_of (F.folder site.old) command) (H.seen shelf.old).told (H.seen shelf.new).told result (H.clock shelf.old) (H.clock shelf.new) }
{
    let command = plain(command);
    follow(rt, alloc, &command, shelf, spawner, site, input, out, err)
}

// The same command, for which no line is told first, and no repository made.
fn plain(mut command: Command) -> Command
    ensures { result ≡ plain command }
{
    command.force_init = false;
    command.too_many = false;
    command
}

// Does what the command says on instances, for which the project asks.
fn follow_there<
    R: Threads + Wait + Sync,
    H: Shelf,
    S: Spawner,
    F: Site,
    I: Source,
    O: Sink,
    E: Sink,
>(
    rt: &R,
    alloc: Global,
    command: Command,
    conf: Conf,
    shelf: &mut H,
    spawner: &mut S,
    site: &mut F,
    input: &mut I,
    out: &mut O,
    err: &mut E,
) -> u8
    requires asks { AsksForInstances (F.folder site.old) command (F.seen site.old) conf }
    ensures promises { GoesElsewhere (F.folder site.old) command
        (outside (H.seen shelf.old) (F.seen site.old) (S.seen spawner.old) (I.seen input.old) (O.seen out.old) (E.seen err.old))
        (outside (H.seen shelf.new) (F.seen site.new) (S.seen spawner.new) (I.seen input.new) (O.seen out.new) (E.seen err.new))
        result }
    ensures spares_run { streams (F.folder site.old) command ≡ false → SparesRun (task_of (F.folder site.old) command) (H.seen shelf.old).told (H.seen shelf.new).told result (H.clock shelf.old) (H.clock shelf.new) }
{
    match count_for(alloc, &command, &conf, spawner, site) {
        Ok(workers) => follow_counted(
            rt, alloc, command, conf, workers, shelf, spawner, site, input, out, err,
        ),
        Err(refusal) => answer(Err(refusal), err),
    }
}

// For how many workers instances are provisioned: those of a run, and one of a listing.
fn count_for<S: Spawner, F: Site>(
    alloc: Global,
    command: &Command,
    conf: &Conf,
    spawner: &mut S,
    site: &mut F,
) -> Result<u32, Refusal<'static>>
    ensures step { (folder : Seen Folder) → (input out : Seen (List ℕ)) → CountsFor command.now.verb command.now conf.now
        (work folder (F.seen site.old) (S.seen spawner.old) input out)
        (work folder (F.seen site.new) (S.seen spawner.new) input out)
        result }
    ensures path { F.folder site.new ≡ F.folder site.old }
{
    match command.verb {
        Verb::Run => count_workers(
            alloc,
            conf,
            command.parallel,
            command.concurrency,
            spawner,
            site,
        ),
        _ => Ok(1),
    }
}

// The same for so many workers.
fn follow_counted<
    R: Threads + Wait + Sync,
    H: Shelf,
    S: Spawner,
    F: Site,
    I: Source,
    O: Sink,
    E: Sink,
>(
    rt: &R,
    alloc: Global,
    command: Command,
    conf: Conf,
    workers: u32,
    shelf: &mut H,
    spawner: &mut S,
    site: &mut F,
    input: &mut I,
    out: &mut O,
    err: &mut E,
) -> u8
    requires project { HasProject command.verb }
    ensures promises { GoesCounted (F.folder site.old) command conf workers
        (outside (H.seen shelf.old) (F.seen site.old) (S.seen spawner.old) (I.seen input.old) (O.seen out.old) (E.seen err.old))
        (outside (H.seen shelf.new) (F.seen site.new) (S.seen spawner.new) (I.seen input.new) (O.seen out.new) (E.seen err.new))
        result }
    ensures spares_run { streams (F.folder site.old) command ≡ false → SparesRun (task_of (F.folder site.old) command) (H.seen shelf.old).told (H.seen shelf.new).told result (H.clock shelf.old) (H.clock shelf.new) }
{
    match provide(alloc, conf, workers, spawner) {
        Ok(given) => follow_given(
            rt, alloc, command, given, shelf, spawner, site, input, out, err,
        ),
        Err(fault) => stop_unprovided(fault, spawner, err),
    }
}

// Tells why there are no instances, and disposes of them where their provisioning ended well all the same.
fn stop_unprovided<S: Spawner, E: Sink>(fault: Unprovided, spawner: &mut S, err: &mut E) -> u8
    ensures { Unprovides fault (S.seen spawner.old) (S.seen spawner.new) (E.seen err.old) (E.seen err.new) result }
{
    let Unprovided {
        refusal,
        disposal: left,
    } = fault;
    let status = answer(Err(Refusal::Provision(refusal)), err);
    dispose(left, spawner, err);
    status
}

// The same on these instances, which are disposed of behind all else.
fn follow_given<
    R: Threads + Wait + Sync,
    H: Shelf,
    S: Spawner,
    F: Site,
    I: Source,
    O: Sink,
    E: Sink,
>(
    rt: &R,
    alloc: Global,
    command: Command,
    given: Provided,
    shelf: &mut H,
    spawner: &mut S,
    site: &mut F,
    input: &mut I,
    out: &mut O,
    err: &mut E,
) -> u8
    requires project { HasProject command.verb }
    ensures promises { GoesThere (F.folder site.old) command given
        (outside (H.seen shelf.old) (F.seen site.old) (S.seen spawner.old) (I.seen input.old) (O.seen out.old) (E.seen err.old))
        (outside (H.seen shelf.new) (F.seen site.new) (S.seen spawner.new) (I.seen input.new) (O.seen out.new) (E.seen err.new))
        result }
    ensures spares_run { streams (F.folder site.old) command ≡ false → SparesRun (task_of (F.folder site.old) command) (H.seen shelf.old).told (H.seen shelf.new).told result (H.clock shelf.old) (H.clock shelf.new) }
{
    let Provided {
        conf,
        workers,
        disposal,
    } = given;
    let command = plain(command).on_instances(conf.into_instances(), workers);
    let status = follow(rt, alloc, &command, shelf, spawner, site, input, out, err);
    dispose(disposal, spawner, err);
    status
}
