//! The filter into a draft, and what becomes of that.

ghost use Rattle.std.specs.Prelude.{◌≡◌, ◌<◌, ◌++◌, OnOk};
ghost use Rattle.std.specs.Io.KnownBytes.{Appends};
ghost use Rattle.command_words.specs.Items.{texts};
ghost use Rattle.edge_io.specs.Bytes.{AppendsPrefix};
ghost use Rattle.edge_io.specs.Causes.{HasCause};
ghost use Rattle.filter_cli.specs.Refusals.{filter_name_in};
ghost use Rattle.filter_to_file.specs.Filed.{file_outside, FilesOutput, Finishes, HoldsSame, TellsFault, output_fault_text};

use edge_io::{Failed, Sink, Site, Source, write_whole};
use filter_cli::filters;
use new_files::NewFiles;
use std::alloc::Global;

/// Does what the words say, as `filters` does, and writes into a draft, which takes this name where the answer is 0 or 1:
/// then the name holds the whole output. At every other answer it holds what it did before.
///
/// The answer is that of `filters`, or 4 where no draft could be begun, or where it could not take its name. These two are
/// told as a fault of the output. Nothing is read before a draft is begun.
pub fn filters_to_file<S: Site, I: Source, N: NewFiles, E: Sink>(
    alloc: Global,
    words: &[String],
    name: &str,
    site: &mut S,
    input: &mut I,
    files: &mut N,
    err: &mut E,
) -> u8
    ensures filed { FilesOutput (texts words.now) name.now
        (file_outside (S.seen site.old) (I.seen input.old) (N.seen files.old) (E.seen err.old))
        (file_outside (S.seen site.new) (I.seen input.new) (N.seen files.new) (E.seen err.new))
        result }
    ensures kept { 1 < result → HoldsSame (N.seen files.old) (N.seen files.new) }
{
    let Ok(mut draft) = files.begin(name) else {
        return tell_fault(words, err);
    };
    let status = filters(alloc, words, site, input, &mut draft, err);
    finish(words, name, status, draft, files, err)
}

// The draft takes its name where the filter was done, and else is given up.
fn finish<N: NewFiles, E: Sink>(
    words: &[String],
    name: &str,
    status: u8,
    draft: N::Draft,
    files: &mut N,
    err: &mut E,
) -> u8
    ensures finished { Finishes (texts words.now) name.now status (N.Draft.seen draft) (N.seen files.old) (N.seen files.new) (E.seen err.old) (E.seen err.new) result }
    ensures kept { 1 < result → HoldsSame (N.seen files.old) (N.seen files.new) }
{
    if status > 1 {
        files.give_up(draft);
        return status;
    }
    match files.take_name(name, draft) {
        Ok(()) => status,
        Err(_) => tell_fault(words, err),
    }
}

// Tells that the output failed.
fn tell_fault<E: Sink>(words: &[String], err: &mut E) -> u8
    ensures { TellsFault (texts words.now) (E.seen err.old) (E.seen err.new) result }
{
    let _ = tell_line(name_of(words), err);
    4
}

// The name of the filter and what failed.
fn tell_line<E: Sink>(name: &str, err: &mut E) -> Result<(), Failed>
    ensures whole { OnOk result (Appends (E.seen err.old).told (E.seen err.new).told (name.now ++ output_fault_text)) }
    ensures prefix { AppendsPrefix (E.seen err.old).told (E.seen err.new).told (name.now ++ output_fault_text) }
    ensures cause { HasCause (E.seen err.old).faults (E.seen err.new).faults result }
{
    write_whole(err, name.as_bytes())?;
    write_whole(err, b": fault writing output\n")
}

// The first word, or nothing.
fn name_of(words: &[String]) -> &str
    ensures { result.now ≡ filter_name_in (texts words.now) }
{
    match words {
        [name, ..] => name.as_str(),
        [] => "",
    }
}
