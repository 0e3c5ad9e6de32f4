//! The program: the real input, outputs, arguments and folder behind the top call.
//!
//! `real_outside` has the objects that it is called on. `help_texts` has what is printed where the words ask for that, and
//! takes out those that name the folder to work in, or the file that a filter writes. Here is decided which commands share
//! the folder's lock, which files of killed runs are removed, which lines tell of the cause of a fault, or of a project of
//! the other tool, and that `run` and `load` show their tests on a terminal.
#![tactic(auto)]

use edge_io::write_whole;
use either::Either;
use filter_to_file::filters_to_file;
use help_texts::{Parted, help_of_testr, take_folder_words, take_output_words};
use real_outside::{
    Cause, Errors, FolderShelf, Outlet, Programs, RealNewFiles, RealSite, RealSpawner, Sharing,
    StreamSink, StreamSource, enter_folder, hold_closed,
};
use std::alloc::Global;
use std::env::Env;
use std::io::{ErrorKind, IsTerminal, Stderr};
use std::process::ExitCode;
use std::sync::Wait;
use std::thread::Threads;
use std::{env, fs};
use testr_cli::program;

// The exit status of a named refusal, as where the folder to work in is not there.
const REFUSED: u8 = 3;

// The exit status of a fault of the outside.
const FAULT: u8 = 4;

// The exit status for want of memory.
const NO_MEMORY: u8 = 5;

// What the name of a worker's file of ids begins with. The worker's number follows.
const ID_FILE: &str = ".testr-ids.";

// The file that makes the folder a repository, and that of the other tool's folder.
const FORMAT: &str = ".testrepository/format";

const OTHER_FORMAT: &str = ".stestr/format";

// A run has fewer workers than these, or as many.
const MOST_WORKERS: u32 = 64;

fn main(rt: HostRuntime) -> ExitCode {
    let held = hold_closed(&rt);
    let mut out = StreamSink::new(Either::Left(rt.stdout()), "standard output");
    let mut err = StreamSink::new(rt.stderr(), "standard error");
    let status = match (&held, words(&rt)) {
        (Err(error), _) => {
            // No folder can be opened then.
            let _ = write_whole(&mut err, b"testr: fault of the repository folder\n");
            tell(
                rt.alloc(),
                "testr",
                Some(&Cause::new("open", "/", *error)),
                &mut err,
            );
            FAULT
        }
        (Ok(held), Ok(words)) => run(&rt, &rt, held.errors(), &words, &mut out, &mut err),
        // Words that are not text are no command, as no words are.
        (Ok(held), Err(NoWords::NotText)) => run(&rt, &rt, held.errors(), &[], &mut out, &mut err),
        (Ok(_), Err(NoWords::NoMemory)) => out_of_memory(&mut err),
    };
    drop(held);
    ExitCode::from(status)
}

fn out_of_memory(err: &mut StreamSink<Stderr>) -> u8 {
    let _ = write_whole(err, b"testr: out of memory\n");
    NO_MEMORY
}

// Takes out the words that name the folder to work in, and does what the others say. `errors` says where the programs that
// are started write theirs.
fn run<R: Threads + Wait + Sync>(
    threads: &R,
    rt: &HostRuntime,
    errors: Errors,
    words: &[String],
    out: &mut StreamSink<Outlet>,
    err: &mut StreamSink<Stderr>,
) -> u8 {
    match take_folder_words(rt.alloc(), words) {
        Ok(parted) => run_parted(threads, rt, errors, parted, out, err),
        Err(_) => out_of_memory(err),
    }
}

// Tells of the program, where the words ask for that, which needs no folder. Else works in the folder that was named, where
// one was.
fn run_parted<R: Threads + Wait + Sync>(
    threads: &R,
    rt: &HostRuntime,
    errors: Errors,
    parted: Parted,
    out: &mut StreamSink<Outlet>,
    err: &mut StreamSink<Stderr>,
) -> u8 {
    let alloc = rt.alloc();
    if let Some(text) = help_of_testr(&parted.words) {
        return print_help(alloc, face_of(&parted.words), text, out, err);
    }
    let Parted { mut words, folder } = parted;
    if rt.stderr().is_terminal()
        && is_loud_run(&words)
        && ask_for_lines(alloc, &mut words).is_err()
    {
        return out_of_memory(err);
    }
    let Some(folder) = &folder else {
        return run_aimed(threads, rt, errors, &words, out, err);
    };
    match enter_folder(alloc, rt, folder.as_str()) {
        Ok(true) => run_aimed(threads, rt, errors, &words, out, err),
        Ok(false) => no_folder(alloc, folder.as_str(), err),
        Err(cause) => {
            let _ = write_whole(err, b"testr: fault of the folder to work in\n");
            tell(alloc, face_of(&words), Some(&cause), err);
            FAULT
        }
    }
}

// Whether the words run tests or load what others printed, and no option among them asks to be quiet.
fn is_loud_run(words: &[String]) -> bool {
    match words {
        [_, _, rest @ ..] => adds_run(words) && !is_quiet(rest),
        _ => false,
    }
}

// Whether one of the words up to `--` asks to be quiet.
fn is_quiet(words: &[String]) -> bool {
    for word in words {
        match word.as_str() {
            "--" => return false,
            "-q" | "--quiet" => return true,
            _ => {}
        }
    }
    false
}

// Asks for a line of each test of the run, in front of all its options, so that one among these that asks for other lines, or for
// none, stands.
fn ask_for_lines(alloc: Global, words: &mut Vec<String>) -> Result<(), NoWords> {
    if words.len() < 2 {
        return Ok(());
    }
    let Ok(word) = format!(in alloc; "--live=tests") else {
        return Err(NoWords::NoMemory);
    };
    words.insert(2, word).map_err(|_| NoWords::NoMemory)
}

// The folder that was named is not there.
fn no_folder(alloc: Global, folder: &str, err: &mut StreamSink<Stderr>) -> u8 {
    match format!(in alloc; "testr: no folder {folder}\n") {
        Ok(line) => {
            let _ = write_whole(err, line.as_bytes());
            REFUSED
        }
        Err(_) => out_of_memory(err),
    }
}

// The name that stands before each line of the program that was called.
fn face_of(words: &[String]) -> &str {
    match words.get(0) {
        Some(word) => word.as_str(),
        None => "testr",
    }
}

fn print_help(
    alloc: Global,
    face: &str,
    text: &str,
    out: &mut StreamSink<Outlet>,
    err: &mut StreamSink<Stderr>,
) -> u8 {
    match write_whole(out, text.as_bytes()) {
        Ok(()) => 0,
        Err(_) => {
            if let Ok(line) = format!(in alloc; "{face}: fault writing output\n") {
                let _ = write_whole(err, line.as_bytes());
            }
            tell(alloc, face, out.cause(), err);
            FAULT
        }
    }
}

// Writes into a file, where the words of a filter name one. Else calls the program.
fn run_aimed<R: Threads + Wait + Sync>(
    threads: &R,
    rt: &HostRuntime,
    errors: Errors,
    words: &[String],
    out: &mut StreamSink<Outlet>,
    err: &mut StreamSink<Stderr>,
) -> u8 {
    let Ok(aimed) = take_output_words(rt.alloc(), words) else {
        return out_of_memory(err);
    };
    match &aimed.file {
        Some(name) => run_to_file(rt, &aimed.words, name.as_str(), err),
        None => run_program(threads, rt, errors, &aimed.words, out, err),
    }
}

// Calls the filter with a new file in the place of standard output.
fn run_to_file(rt: &HostRuntime, words: &[String], name: &str, err: &mut StreamSink<Stderr>) -> u8 {
    let alloc = rt.alloc();
    let mut files = RealNewFiles::new(alloc, rt);
    let mut input = StreamSource::new(rt.stdin(), "standard input");
    let mut site = RealSite::new(alloc, rt, working_folder(alloc, rt));
    let status = filters_to_file(alloc, words, name, &mut site, &mut input, &mut files, err);
    if status == FAULT {
        let face = face_of(words);
        tell(alloc, face, site.cause(), err);
        tell(alloc, face, input.cause(), err);
        tell(alloc, face, files.cause(), err);
    }
    status
}

// Calls the program on the real objects. The workers of a run stand beside each other, so that each is stopped where the folder
// fails or another wants memory, also one that is silent. After a fault the line that says which object failed has one more
// behind it, that says why.
fn run_program<R: Threads + Wait + Sync>(
    threads: &R,
    rt: &HostRuntime,
    errors: Errors,
    words: &[String],
    out: &mut StreamSink<Outlet>,
    err: &mut StreamSink<Stderr>,
) -> u8 {
    let alloc = rt.alloc();
    let Ok(programs) = Programs::new(alloc, MOST_WORKERS) else {
        return out_of_memory(err);
    };
    let mut shelf = shelf_of(alloc, rt, words).stopping(&programs);
    let mut input = StreamSource::new(rt.stdin(), "standard input");
    let mut spawner = spawner_of(alloc, rt, errors, words).among(&programs);
    let mut site = RealSite::new(alloc, rt, working_folder(alloc, rt));
    let may_begin = adds_run(words) && !is_file(rt, FORMAT);
    let status = program(
        threads,
        alloc,
        words,
        &mut shelf,
        &mut spawner,
        &mut site,
        &mut input,
        out,
        err,
    );
    shelf.give_up();
    if status == REFUSED {
        tell_way_out(alloc, rt, words, err);
    }
    // Where standard error failed, the line of the fault may not stand there, and nothing more is written.
    if status == FAULT && err.cause().is_none() {
        let face = face_of(words);
        tell(alloc, face, shelf.cause(), err);
        tell(alloc, face, spawner.cause(), err);
        tell(alloc, face, site.cause(), err);
        tell(alloc, face, input.cause(), err);
        tell(alloc, face, out.cause(), err);
    }
    if may_begin && is_file(rt, FORMAT) {
        tell_runs_left(alloc, rt, words, err);
    }
    status
}

// Tells where the runs are, in a project of the other tool that has no repository here. A command that opens it was refused for
// that, or, as a run without a configuration, before it was looked for.
fn tell_way_out(alloc: Global, rt: &HostRuntime, words: &[String], err: &mut StreamSink<Stderr>) {
    if !opens_repository(words) || is_file(rt, FORMAT) || !is_file(rt, OTHER_FORMAT) {
        return;
    }
    let face = face_of(words);
    if let Ok(line) = format!(in alloc;
        "{face}: {face} upgrade --from=.stestr takes over the runs of .stestr\n"
    ) {
        let _ = write_whole(err, line.as_bytes());
    }
}

// Tells what is not in the repository that this command made, in a project of the other tool: that has runs of its own, and they
// are taken over only where no repository is.
fn tell_runs_left(alloc: Global, rt: &HostRuntime, words: &[String], err: &mut StreamSink<Stderr>) {
    if !is_file(rt, OTHER_FORMAT) {
        return;
    }
    let face = face_of(words);
    if let Ok(line) = format!(in alloc;
        "{face}: the runs of .stestr are not in .testrepository; without that, {face} upgrade --from=.stestr takes them over\n"
    ) {
        let _ = write_whole(err, line.as_bytes());
    }
}

// Whether the words are those of a command that adds a run, and may make the repository first.
fn adds_run(words: &[String]) -> bool {
    match words {
        [face, verb, ..] => {
            let face = face.as_str();
            let verb = verb.as_str();
            (face == "testr" || face == "stestr") && (verb == "run" || verb == "load")
        }
        _ => false,
    }
}

// Whether the words are those of a command that is refused where no repository is here. An upgrade from another folder makes one.
fn opens_repository(words: &[String]) -> bool {
    let [face, verb, behind @ ..] = words else {
        return false;
    };
    if face.as_str() != "testr" && face.as_str() != "stestr" {
        return false;
    }
    match verb.as_str() {
        "load" | "run" | "last" | "failing" | "slowest" | "stats" => true,
        "upgrade" => behind.is_empty(),
        _ => false,
    }
}

fn is_file(rt: &HostRuntime, path: &str) -> bool {
    match fs::metadata(rt, path) {
        Ok(found) => found.is_file(),
        Err(_) => false,
    }
}

// The absolute path of the folder that the program works in; nothing where the system does not tell it, or not as text.
fn working_folder(alloc: Global, rt: &HostRuntime) -> String {
    match env::current_dir(rt) {
        Ok(path) => path.into_string(),
        Err(_) => String::new(alloc),
    }
}

// A run starts its programs when it has the folder's lock, so no other run has files of ids in use then.
fn spawner_of<'r>(
    alloc: Global,
    rt: &'r HostRuntime,
    errors: Errors,
    words: &[String],
) -> RealSpawner<'r, HostRuntime> {
    let spawner = RealSpawner::new(alloc, rt, errors);
    match words.get(1) {
        Some(word) if word.as_str() == "run" => spawner.clearing(ID_FILE, MOST_WORKERS),
        _ => spawner,
    }
}

// Writes the cause of a fault, where there is one.
fn tell(alloc: Global, face: &str, cause: Option<&Cause>, err: &mut StreamSink<Stderr>) {
    if let Some(cause) = cause
        && let Ok(line) = format!(in alloc; "{face}: cause: {cause}\n")
    {
        let _ = write_whole(err, line.as_bytes());
    }
}

// Only an upgrade may put converted runs and the format in place of older ones.
fn shelf_of<'r>(
    alloc: Global,
    rt: &'r HostRuntime,
    words: &[String],
) -> FolderShelf<'r, HostRuntime> {
    let shelf = FolderShelf::new(alloc, rt, sharing(words));
    match words.get(1) {
        Some(word) if word.as_str() == "upgrade" => shelf.taking_over(),
        _ => shelf,
    }
}

// Commands that only ask do not keep each other out, nor do those that add runs keep them out. The folder refuses to write for
// those that ask.
fn sharing(words: &[String]) -> Sharing {
    match words.get(1) {
        Some(word) => match word.as_str() {
            "last" | "failing" | "slowest" | "stats" => Sharing::Together,
            "load" | "run" => Sharing::Adding,
            _ => Sharing::Alone,
        },
        None => Sharing::Alone,
    }
}

// Why the arguments cannot be had.
#[derive(Clone, Copy)]
enum NoWords {
    NotText,
    NoMemory,
}

// The arguments behind the program's own path.
fn words<R: Env + AllocGlobal>(rt: &R) -> Result<Vec<String>, NoWords> {
    match env::args(rt) {
        Ok(args) => args
            .skip(1)
            .collect(rt.alloc())
            .map_err(|_| NoWords::NoMemory),
        Err(error) if error.kind() == ErrorKind::OutOfMemory => Err(NoWords::NoMemory),
        Err(_) => Err(NoWords::NotText),
    }
}
