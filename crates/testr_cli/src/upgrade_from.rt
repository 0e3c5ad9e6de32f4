//! `testr upgrade --from=DIR`: the old files of another folder are copied, and the folder is upgraded then.

ghost use Rattle.std.specs.Prelude.{◌≡◌, ◌∷◌, ◌++◌, [], Some, OnOk, option_map, codes};
ghost use Rattle.std.specs.Io.KnownBytes.{Appends};
ghost use Rattle.edge_io.specs.Bytes.{AppendsPrefix};
ghost use Rattle.edge_io.specs.Causes.{HasCause};
ghost use Rattle.command_steps.specs.Outside.{outside};
ghost use Rattle.command_steps.specs.Telling.{line_text};
ghost use Rattle.command_words.specs.Items.{texts};
ghost use Rattle.testr_cli.specs.From as spec;

use command_steps::{Line, Part, tell_line};
use edge_io::{Failed, Shelf, Sink, Site, Source, Spawner};
use old_copies::{OldCopyFault, copy_old};
use std::alloc::Global;
use std::sync::Wait;
use std::thread::Threads;
use testr_commands::{Face, testr_as};

/// The folder that the words tell to upgrade from, which stand behind the name of a face; none where they tell none.
pub(crate) fn from_in(words: &[String]) -> Option<&str>
    ensures { option_map (λ from. from.now) result ≡ spec.from_in (texts words.now) }
{
    match words {
        [verb, word] => of_one_word(verb.as_str(), word.as_str()),
        [verb, option, word] => of_two_words(verb.as_str(), option.as_str(), word.as_str()),
        _ => None,
    }
}

/// Copies the old files of the folder of this path, and does then what `upgrade` says, which must be the only word.
pub(crate) fn upgrade_from<
    R: Threads + Wait + Sync,
    H: Shelf,
    S: Spawner,
    F: Site,
    I: Source,
    O: Sink,
    E: Sink,
>(
    rt: &R,
    alloc: Global,
    face: Face,
    from: &str,
    words: &[String],
    shelf: &mut H,
    spawner: &mut S,
    site: &mut F,
    input: &mut I,
    out: &mut O,
    err: &mut E,
) -> u8
    requires word { texts words.now ≡ spec.upgrade_word ∷ [] }
    ensures { spec.UpgradesFrom face from.now
        (outside (H.seen shelf.old) (F.seen site.old) (S.seen spawner.old) (I.seen input.old) (O.seen out.old) (E.seen err.old))
        (outside (H.seen shelf.new) (F.seen site.new) (S.seen spawner.new) (I.seen input.new) (O.seen out.new) (E.seen err.new))
        result }
{
    match copy_old(alloc, site, from, shelf) {
        Ok(()) => testr_as(
            rt, alloc, face, words, shelf, spawner, site, input, out, err,
        ),
        Err(fault) => {
            // The status says it, whether the line was written or not.
            let _ = tell_fault(err, from, fault);
            code_of(fault)
        }
    }
}

// Writes the line that tells why the files were not copied.
fn tell_fault<E: Sink>(err: &mut E, from: &str, fault: OldCopyFault) -> Result<(), Failed>
    ensures whole { OnOk result (Appends (E.seen err.old).told (E.seen err.new).told (spec.copy_text from.now fault)) }
    ensures prefix { AppendsPrefix (E.seen err.old).told (E.seen err.new).told (spec.copy_text from.now fault) }
    ensures cause { HasCause (E.seen err.old).faults (E.seen err.new).faults result }
{
    tell_line(err, line_of(from, fault))
}

// The folder that the option tells with its value in one word.
fn of_one_word<'a>(verb: &str, word: &'a str) -> Option<&'a str>
    ensures { option_map (λ from. from.now) result ≡ spec.of_one_word verb.now word.now }
{
    if verb != "upgrade" {
        return None;
    }
    match behind_from(word) {
        Some(path) => path_of(path),
        None => None,
    }
}

// The folder that it tells with its value in a word of its own.
fn of_two_words<'a>(verb: &str, option: &str, word: &'a str) -> Option<&'a str>
    ensures { option_map (λ from. from.now) result ≡ spec.of_two_words verb.now option.now word.now }
{
    if verb == "upgrade" && option == "--from" {
        path_of(word)
    } else {
        None
    }
}

// What stands behind `--from=` in a word that begins so.
fn behind_from(word: &str) -> Option<&str>
    ensures { option_map (λ from. from.now) result ≡ spec.behind_from word.now }
{
    word.strip_prefix("--from=")
}

// The path of a folder, which is not empty.
fn path_of(path: &str) -> Option<&str>
    ensures { option_map (λ path. path.now) result ≡ spec.path_of (Some path.now) }
{
    if path.is_empty() { None } else { Some(path) }
}

// The exit status where the files were not copied.
fn code_of(fault: OldCopyFault) -> u8
    ensures { result ≡ spec.copy_exit_status fault }
{
    match fault {
        OldCopyFault::Here
        | OldCopyFault::OldHere
        | OldCopyFault::StrangeHere
        | OldCopyFault::NoStore
        | OldCopyFault::NotOld
        | OldCopyFault::UnknownFormat
        | OldCopyFault::BadCount
        | OldCopyFault::OtherFiles => 3,
        OldCopyFault::Site | OldCopyFault::Shelf(_) => 4,
        OldCopyFault::NoMemory => 5,
    }
}

// The line then.
fn line_of(from: &str, fault: OldCopyFault) -> Line<'_>
    ensures { line_text result ≡ spec.copy_text from.now fault }
{
    match fault {
        OldCopyFault::Here => Line::of("testr: a repository is already here\n"),
        OldCopyFault::OldHere => {
            Line::of("testr: an old folder is already here; testr upgrade takes it over\n")
        }
        OldCopyFault::StrangeHere => Line::of("testr: unknown repository format\n"),
        OldCopyFault::NoStore => named("testr: no repository in ", from),
        OldCopyFault::NotOld => named("testr: nothing to upgrade in ", from),
        OldCopyFault::UnknownFormat => named("testr: unknown repository format in ", from),
        OldCopyFault::BadCount => named("testr: next-stream is no number in ", from),
        OldCopyFault::OtherFiles => Line::of("testr: other files are in .testrepository\n"),
        OldCopyFault::Site => Line::of("testr: fault reading a file\n"),
        OldCopyFault::Shelf(_) => Line::of("testr: fault of the repository folder\n"),
        OldCopyFault::NoMemory => Line::of("testr: out of memory\n"),
    }
}

// A line that ends with the other folder.
fn named<'a>(front: &'static str, from: &'a str) -> Line<'a>
    ensures { line_text result ≡ front.now ++ (from.now ++ codes "\n") }
{
    Line {
        front,
        part: Part::Name(from),
        rest: "\n",
    }
}
