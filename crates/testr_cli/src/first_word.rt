//! The first word, and what it leads to.

ghost use Rattle.std.specs.Prelude.{◌≡◌, ◌∷◌, ℕ, List, false};
ghost use Rattle.command_steps.specs.Outside.{outside};
ghost use Rattle.command_words.specs.Items.{texts};
ghost use Rattle.testr_commands.specs.Sparing.{SparesReads};
ghost use Rattle.testr_commands.specs.SparingRun.{SparesRun};
ghost use Rattle.testr_words.specs.Words.{face_word, asked_by, forced_by, streamed_by};
ghost use Rattle.testr_words.specs.declared.command.Face.{Face as AFace};
ghost use Rattle.testr_cli.specs.Faces.{ProgramPromises};
ghost use Rattle.testr_cli.specs.From.{from_in as folder_in, PromisesFrom};

use crate::upgrade_from::{from_in, upgrade_from};
use edge_io::{Shelf, Sink, Site, Source, Spawner};
use filter_cli::filters;
use std::alloc::Global;
use std::sync::Wait;
use std::thread::Threads;
use testr_commands::{Face, testr_as};
use testr_words::face_named;

/// Does what the words say, and answers the exit status.
///
/// Where the first word is `testr` or `stestr`, it is that of `testr_as` for this face and the words behind it. Where these are
/// `upgrade` and `--from` with a folder, the old files of that folder are copied first, and it is that of `upgrade` then. For
/// all other words it is that of `filters`; where the first one is no filter's name either, the usage line of the whole
/// program is written to `err`, and the status is 2.
///
/// The workers of `run` and `selftest` are read on threads of `rt`. `run` and `list-tests` may wait for the programs that
/// they start, and `selftest` for its threads.
pub fn program<
    R: Threads + Wait + Sync,
    H: Shelf,
    S: Spawner,
    F: Site,
    I: Source,
    O: Sink,
    E: Sink,
>(
    rt: &R,
    alloc: Global,
    words: &[String],
    shelf: &mut H,
    spawner: &mut S,
    site: &mut F,
    input: &mut I,
    out: &mut O,
    err: &mut E,
) -> u8
    ensures promises { ProgramPromises (F.folder site.old) (texts words.now)
        (outside (H.seen shelf.old) (F.seen site.old) (S.seen spawner.old) (I.seen input.old) (O.seen out.old) (E.seen err.old))
        (outside (H.seen shelf.new) (F.seen site.new) (S.seen spawner.new) (I.seen input.new) (O.seen out.new) (E.seen err.new))
        result }
    ensures spares { (face : AFace) (behind : List (List ℕ)) → texts words.now ≡ face_word face ∷ behind → SparesReads (asked_by (F.folder site.old) face behind) (H.seen shelf.old).told (H.clock shelf.old) (H.clock shelf.new) }
    ensures spares_run { (face : AFace) (behind : List (List ℕ)) → texts words.now ≡ face_word face ∷ behind → forced_by (F.folder site.old) face behind ≡ false → streamed_by (F.folder site.old) face behind ≡ false → SparesRun (asked_by (F.folder site.old) face behind) (H.seen shelf.old).told (H.seen shelf.new).told result (H.clock shelf.old) (H.clock shelf.new) }
{
    match face_named(words) {
        Some(face) => by_face(
            rt,
            alloc,
            face,
            &words[1..],
            shelf,
            spawner,
            site,
            input,
            out,
            err,
        ),
        None => filters(alloc, words, site, input, out, err),
    }
}

// Does what the words behind the name of this face say. They may tell a folder to upgrade from.
fn by_face<R: Threads + Wait + Sync, H: Shelf, S: Spawner, F: Site, I: Source, O: Sink, E: Sink>(
    rt: &R,
    alloc: Global,
    face: Face,
    words: &[String],
    shelf: &mut H,
    spawner: &mut S,
    site: &mut F,
    input: &mut I,
    out: &mut O,
    err: &mut E,
) -> u8
    ensures promises { PromisesFrom (folder_in (texts words.now)) (F.folder site.old) face (texts words.now)
        (outside (H.seen shelf.old) (F.seen site.old) (S.seen spawner.old) (I.seen input.old) (O.seen out.old) (E.seen err.old))
        (outside (H.seen shelf.new) (F.seen site.new) (S.seen spawner.new) (I.seen input.new) (O.seen out.new) (E.seen err.new))
        result }
    ensures spares { SparesReads (asked_by (F.folder site.old) face (texts words.now)) (H.seen shelf.old).told (H.clock shelf.old) (H.clock shelf.new) }
    ensures spares_run { forced_by (F.folder site.old) face (texts words.now) ≡ false → streamed_by (F.folder site.old) face (texts words.now) ≡ false → SparesRun (asked_by (F.folder site.old) face (texts words.now)) (H.seen shelf.old).told (H.seen shelf.new).told result (H.clock shelf.old) (H.clock shelf.new) }
{
    match from_in(words) {
        Some(from) => upgrade_from(
            rt,
            alloc,
            face,
            from,
            &words[..1],
            shelf,
            spawner,
            site,
            input,
            out,
            err,
        ),
        None => testr_as(
            rt, alloc, face, words, shelf, spawner, site, input, out, err,
        ),
    }
}
