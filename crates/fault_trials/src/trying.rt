//! Each call of a command fails in turn, and it stops at each moment.

use crate::breaking::{Fault, OBJECTS, Object};
use crate::scripts::{Answers, EARLIER, Found, NEVER, Script, folder};
use edge_io::{Finish, ListSink, ListSource, MemShelf, Shelf};
use std::alloc::Global;
use std::sync::Wait;
use std::test::Fail;
use std::thread::Threads;
use testr_cli::program;
use trial_calls::{
    CallOutcome, FOO, NOTHING, Project, has_file, owned, project_with, sink, source, tells_of,
};

// No line is written in so many writes.
const MOST_WRITES: u64 = 8;

/// What a call told and left.
#[derive(Drop)]
pub struct Left {
    /// What it told.
    pub told: CallOutcome,
    /// The folder of runs.
    pub shelf: MemShelf,
    /// The project, with the jobs that were started.
    pub project: Project,
}

// The status that the program answers over all that it may touch.
fn status_over<R: Threads + Wait + Sync + AllocGlobal>(
    rt: &R,
    words: &[String],
    shelf: &mut MemShelf,
    project: &mut Project,
    input: &mut ListSource,
    out: &mut ListSink,
    err: &mut ListSink,
) -> u8 {
    let Project { site, spawner } = project;
    program(rt, rt.alloc(), words, shelf, spawner, site, input, out, err)
}

// What the sinks took of a call that answered this status.
fn told_of(alloc: Global, status: u8, out: &ListSink, err: &ListSink) -> Result<CallOutcome, Fail> {
    let out = out.taken().to_vec(alloc)?;
    let err = err.taken().to_vec(alloc)?;
    Ok(CallOutcome { status, out, err })
}

// What the script tells over this folder and this project, where this call fails, and these writes of the errors' sink do.
fn tell<R: Threads + Wait + Sync + AllocGlobal>(
    rt: &R,
    script: &Script<'_>,
    fault: Fault,
    errors: &[u64],
    shelf: &mut MemShelf,
    project: &mut Project,
) -> Result<CallOutcome, Fail> {
    let alloc = rt.alloc();
    let calls = [fault.call];
    let words = owned(alloc, script.words)?;
    let mut input = source(alloc, script.input, 5, fault.of(Object::Input, &calls))?;
    let mut out = sink(alloc, fault.of(Object::Output, &calls))?;
    let mut err = sink(alloc, errors)?;
    let status = status_over(rt, &words, shelf, project, &mut input, &mut out, &mut err);
    told_of(alloc, status, &out, &err)
}

/// What the script tells and leaves where this call fails, and these writes of the errors' sink do.
pub fn play<R: Threads + Wait + Sync + AllocGlobal>(
    rt: &R,
    script: &Script<'_>,
    fault: Fault,
    errors: &[u64],
) -> Result<Left, Fail> {
    play_over(rt, script, script.outputs, fault, errors)
}

/// The same, where the programs that are started give this and end so.
pub fn play_over<R: Threads + Wait + Sync + AllocGlobal>(
    rt: &R,
    script: &Script<'_>,
    outputs: &[(&[u8], Finish)],
    fault: Fault,
    errors: &[u64],
) -> Result<Left, Fail> {
    let alloc = rt.alloc();
    let calls = [fault.call];
    let mut shelf = folder(alloc, script.found, fault.of(Object::Folder, &calls))?;
    let reads = fault.of(Object::Files, &calls);
    let starts = fault.of(Object::Spawner, &calls);
    let mut project = project_with(alloc, script.files, outputs, reads, starts)?;
    let told = tell(rt, script, fault, errors, &mut shelf, &mut project)?;
    Ok(Left {
        told,
        shelf,
        project,
    })
}

// ---- what is told

// The line of an object that fails, behind the name of the program.
fn line_of(object: Object) -> &'static [u8] {
    match object {
        Object::Folder => b": fault of the repository folder\n",
        Object::Files => b": fault reading a file\n",
        Object::Spawner => b": fault starting a program\n",
        Object::Input => b": fault reading standard input\n",
        Object::Output => b": fault writing output\n",
    }
}

// The name of the program, which is the first word.
fn name_of<'a>(script: &Script<'a>) -> &'a [u8] {
    match script.words {
        [name, ..] => name.as_bytes(),
        [] => NOTHING,
    }
}

// Whether it is the line of that object.
fn is_line(script: &Script<'_>, object: Object, line: &[u8]) -> bool {
    line.strip_prefix(name_of(script)) == Some(line_of(object))
}

// Whether the output took what it may before this object fails: nothing, or of a command that prints on its way, and of an output
// that fails, a first part.
fn is_front(script: &Script<'_>, object: Object, out: &[u8]) -> bool {
    if object == Object::Output {
        return script.out.starts_with(out) && out.len() < script.out.len();
    }
    out.is_empty() || (script.early && script.out.starts_with(out))
}

// Whether the fault of this object is told.
fn is_fault(script: &Script<'_>, object: Object, told: &CallOutcome) -> bool {
    told.status == 4 && is_front(script, object, &told.out) && is_line(script, object, &told.err)
}

// ---- what is left

// Whether a run that is made has the bytes of one that may be.
fn is_kept(script: &Script<'_>, shelf: &mut MemShelf) -> Result<bool, Fail> {
    for bytes in script.kept {
        if has_file(shelf, script.run, bytes)? {
            return Ok(true);
        }
    }
    Ok(false)
}

// Whether the earlier run is there, and the new one, where it is made.
fn has_runs(script: &Script<'_>, shelf: &mut MemShelf, made: bool) -> Result<bool, Fail> {
    if script.found == Found::OneRun && !has_file(shelf, "0", EARLIER)? {
        return Ok(false);
    }
    if made && !script.kept.is_empty() {
        return is_kept(script, shelf);
    }
    Ok(shelf.length(script.run)?.is_none())
}

// Whether the next commands tell this of the folder.
fn answers<R: Threads + Wait + Sync + AllocGlobal>(
    rt: &R,
    shelf: &mut MemShelf,
    wanted: &Answers<'_>,
) -> Result<bool, Fail> {
    let [failing, load] = wanted;
    Ok(
        tells_of(
            rt,
            &["testr", "failing", "--list"],
            shelf,
            NOTHING,
            1,
            *failing,
        )? && tells_of(rt, &["testr", "load"], shelf, FOO, 12, *load)?,
    )
}

/// Whether the folder is as it must be, where what is made is there, or not. Opened again, it tells so, and takes a run.
pub fn is_left<R: Threads + Wait + Sync + AllocGlobal>(
    rt: &R,
    script: &Script<'_>,
    shelf: &mut MemShelf,
    made: bool,
) -> Result<bool, Fail> {
    let wanted = if made { &script.behind } else { &script.before };
    Ok(has_runs(script, shelf, made)? && answers(rt, shelf, wanted)?)
}

// Whether what is made is there after so many calls of the folder, and a stop: the one that names it has one behind it, or by this
// choice of the disk is the last.
fn is_made(script: &Script<'_>, calls: u64, choice: bool) -> bool {
    let last = calls.saturating_sub(1);
    last > script.named || (last == script.named && choice)
}

// Whether a stop at this moment leaves it so by each choice, where so many calls were done.
fn are_images<R: Threads + Wait + Sync + AllocGlobal>(
    rt: &R,
    script: &Script<'_>,
    shelf: &MemShelf,
    moment: u64,
    calls: u64,
) -> Result<bool, Fail> {
    let mut image = shelf.image(moment, false)?;
    let mut other = shelf.image(moment, true)?;
    Ok(
        is_left(rt, script, &mut image, is_made(script, calls, false))?
            && is_left(rt, script, &mut other, is_made(script, calls, true))?,
    )
}

// ---- the loop

// How many calls of the folder were done where this call fails. All faults but those of the folder and the output come before
// anything is made.
fn calls_before(script: &Script<'_>, fault: Fault) -> u64 {
    match fault.object {
        Object::Folder => fault.call,
        Object::Output => script.folder,
        Object::Files | Object::Spawner | Object::Input => 0,
    }
}

// Whether the folder is left so, also by a stop, where this call failed.
fn leaves_well<R: Threads + Wait + Sync + AllocGlobal>(
    rt: &R,
    script: &Script<'_>,
    fault: Fault,
    shelf: &mut MemShelf,
) -> Result<bool, Fail> {
    let calls = calls_before(script, fault);
    Ok(
        are_images(rt, script, shelf, NEVER, calls)?
            && is_left(rt, script, shelf, is_made(script, calls, true))?,
    )
}

// How much of a line was told.
#[derive(Clone, Copy, PartialEq, Eq)]
enum Part {
    Front,
    Whole,
    Other,
}

// How much of this line was told by a call that answers 4.
fn part_of(told: &CallOutcome, line: &[u8]) -> Part {
    if told.status != 4 || !line.starts_with(&told.err) {
        return Part::Other;
    }
    if told.err.len() < line.len() {
        Part::Front
    } else {
        Part::Whole
    }
}

// How much of this line of a fault is told where this write of it fails.
fn part_told<R: Threads + Wait + Sync + AllocGlobal>(
    rt: &R,
    script: &Script<'_>,
    fault: Fault,
    write: u64,
    line: &[u8],
) -> Result<Part, Fail> {
    let left = play(rt, script, fault, &[write])?;
    Ok(part_of(&left.told, line))
}

// Whether some of this line of a fault is told whichever write of it fails, and the status stays.
fn is_told_in_part<R: Threads + Wait + Sync + AllocGlobal>(
    rt: &R,
    script: &Script<'_>,
    fault: Fault,
    line: &[u8],
) -> Result<bool, Fail> {
    for write in 0..MOST_WRITES {
        let part = part_told(rt, script, fault, write, line)?;
        if part != Part::Front {
            return Ok(write > 0 && part == Part::Whole);
        }
    }
    Ok(false)
}

// Whether this call fails as it must: the line tells so, and the folder is as before, or has what is made.
fn fails_well<R: Threads + Wait + Sync + AllocGlobal>(
    rt: &R,
    script: &Script<'_>,
    fault: Fault,
) -> Result<bool, Fail> {
    let mut left = play(rt, script, fault, &[])?;
    Ok(
        is_fault(script, fault.object, &left.told)
            && is_told_in_part(rt, script, fault, &left.told.err)?
            && leaves_well(rt, script, fault, &mut left.shelf)?,
    )
}

// Whether the script tells and leaves what it must where this call is one that it does not make. That call of the folder would be
// the next one, so what it leaves is looked at as a stop would leave it.
fn is_whole<R: Threads + Wait + Sync + AllocGlobal>(
    rt: &R,
    script: &Script<'_>,
    fault: Fault,
) -> Result<bool, Fail> {
    let left = play(rt, script, fault, &[])?;
    let mut image = left.shelf.image(NEVER, true)?;
    Ok(
        left.told.is(script.status, script.out, NOTHING)
            && is_left(rt, script, &mut image, script.named != NEVER)?,
    )
}

// The first call of this object that does not fail as it must, or the one behind all, where that one changes anything.
fn wrong_call<R: Threads + Wait + Sync + AllocGlobal>(
    rt: &R,
    script: &Script<'_>,
    object: Object,
) -> Result<Option<u64>, Fail> {
    let calls = script.calls(object);
    for call in 0..calls {
        if !fails_well(rt, script, Fault { object, call })? {
            return Ok(Some(call));
        }
    }
    let call = calls;
    if is_whole(rt, script, Fault { object, call })? {
        Ok(None)
    } else {
        Ok(Some(call))
    }
}

// The first moment of this folder at which a stop leaves what it must not.
fn wrong_moment<R: Threads + Wait + Sync + AllocGlobal>(
    rt: &R,
    script: &Script<'_>,
    shelf: &MemShelf,
) -> Result<Option<u64>, Fail> {
    for moment in 0..script.folder {
        if !are_images(rt, script, shelf, moment, moment)? {
            return Ok(Some(moment));
        }
    }
    if are_images(rt, script, shelf, NEVER, script.folder)? {
        Ok(None)
    } else {
        Ok(Some(script.folder))
    }
}

/// A place at which a script is wrong: the object whose call is to fail, or none for a stop, and the number of the call, or the
/// moment.
pub type Place = (Option<Object>, u64);

// Where the script is wrong.
fn wrong_place<R: Threads + Wait + Sync + AllocGlobal>(
    rt: &R,
    script: &Script<'_>,
) -> Result<Option<Place>, Fail> {
    for object in &OBJECTS {
        if let Some(call) = wrong_call(rt, script, *object)? {
            return Ok(Some((Some(*object), call)));
        }
    }
    let fault = Fault {
        object: Object::Folder,
        call: NEVER,
    };
    let left = play(rt, script, fault, &[])?;
    match wrong_moment(rt, script, &left.shelf)? {
        Some(moment) => Ok(Some((None, moment))),
        None => Ok(None),
    }
}

/// The first of the scripts that is wrong, and where. Each call of each object of the outside fails in turn, and a stop comes at
/// each moment.
pub fn first_wrong<R: Threads + Wait + Sync + AllocGlobal>(
    rt: &R,
    scripts: &[Script<'_>],
) -> Result<Option<(usize, Place)>, Fail> {
    for (row, script) in scripts.iter().enumerate() {
        if let Some(place) = wrong_place(rt, script)? {
            return Ok(Some((row, place)));
        }
    }
    Ok(None)
}
