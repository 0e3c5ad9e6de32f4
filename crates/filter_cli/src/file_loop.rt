//! Files that filters read by their names.

ghost use Rattle.std.specs.Prelude.{◌≡◌, ℕ, List, [], IfOk, IfErr};
ghost use Rattle.std.specs.Io.{ReadsAtMost};
ghost use Rattle.edge_io.specs.Seen.{Seen};
ghost use Rattle.filter_cli.specs.FileReads.{ReadsFileOn, HasReadCause, FeedsFile};
ghost use Rattle.filter_cli.specs.Outside.{reach};
ghost use Rattle.filter_cli.specs.declared.file_loop.FileFault.TheVariants.{NoMemory};

use crate::filter::{Filter, StreamEnd};
use edge_io::{Found, MOST_BYTES, PIECE, Sink, Site, write_whole};
use std::alloc::Global;

/// Why a file was not filtered to its end.
#[derive(Clone, Copy, Debug, PartialEq, Eq)]
pub enum FileFault {
    /// A read failed.
    Read,
    /// There is no file of this name.
    NoFile,
    /// It has more than `MOST_BYTES`.
    TooLong,
    /// A write failed.
    Output,
    /// There is not enough memory.
    NoMemory,
}

impl From<sub_number::NoMemory> for FileFault {
    ghost from_gives = { λ _ fault. fault ≡ NoMemory };

    fn from(_: sub_number::NoMemory) -> Self {
        FileFault::NoMemory
    }
}

// Reads the next bytes of the file, from this place on.
fn read_on<S: Site>(
    name: &str,
    place: u64,
    site: &mut S,
    buf: &mut [u8],
) -> Result<usize, FileFault>
    ensures bound { ReadsAtMost result buf.new }
    ensures read { IfOk result (λ count. ReadsFileOn name.now place (S.seen site.old).told (S.seen site.new).told buf.new count) }
    ensures count { IfOk result (λ count. (S.seen site.new).faults ≡ (S.seen site.old).faults) }
    ensures files { (S.seen site.new).told ≡ (S.seen site.old).told }
    ensures refused { IfErr result (HasReadCause name.now (S.seen site.old) (S.seen site.new)) }
{
    let Ok(found) = site.read_at(name, place, buf) else {
        return Err(FileFault::Read);
    };
    match found {
        Found::Read(count) => Ok(count),
        Found::Absent => Err(FileFault::NoFile),
    }
}

/// Filters the file of this name to its end. What each piece decides is written before the next one is read.
pub fn pump_file<F: Filter, S: Site, O: Sink>(
    alloc: Global,
    mut filter: F,
    name: &str,
    site: &mut S,
    out: &mut O,
) -> Result<StreamEnd, FileFault>
    requires ready { F.ready filter }
    requires has { F.has filter [] [] }
    ensures { (input : Seen (List ℕ)) → FeedsFile name.now F.inside (F.seen filter) (F.whole filter) (reach (S.seen site.old) input (O.seen out.old)) (reach (S.seen site.new) input (O.seen out.new)) result }
{
    let mut text = Vec::new(alloc);
    let mut piece = [0u8; PIECE];
    let mut total = 0;
    loop {
        let count = match read_on(name, total as u64, site, &mut piece) {
            Ok(count) => count,
            Err(fault) => {
                filter.let_go();
                return Err(fault);
            }
        };
        if count == 0 {
            break;
        }
        total += count;
        if total > MOST_BYTES {
            filter.let_go();
            return Err(FileFault::TooLong);
        }
        let Ok(()) = filter.feed(&piece[..count], &mut text) else {
            filter.let_go();
            return Err(FileFault::NoMemory);
        };
        let Ok(()) = write_whole(out, &text) else {
            filter.let_go();
            return Err(FileFault::Output);
        };
        text.clear();
    }
    let end = filter.close(&mut text)?;
    let Ok(()) = write_whole(out, &text) else {
        return Err(FileFault::Output);
    };
    Ok(end)
}
