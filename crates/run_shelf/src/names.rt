//! The names of the files of runs, which runs a list of names has, and a look which runs a folder has.

ghost use Rattle.std.specs.Prelude.{◌≡◌, ◌+◌, ◌<◌, ◌≤◌, IfSome, IfNone, IfOk, IfErr, OnOk, length, Some};
ghost use Rattle.edge_io.specs.Causes.{RisesExactlyIf};
ghost use Rattle.edge_io.specs.Steps.{Goes, Stays};
ghost use Rattle.run_shelf.specs.Faults.{open_failed};
ghost use Rattle.run_shelf.specs.Holds.{kinds_of, HasRoom};
ghost use Rattle.run_shelf.specs.Images.{PassesOld};
ghost use Rattle.run_shelf.specs.Looking.{ShowsKinds, LookFails, FormatFails, CountsOld, BaseFails, HasThisFormat, bytes_of_format, base_calls};
ghost use Rattle.run_shelf.specs.Marks.{NamesTellKinds, NamesFail, AreMarksOf, MarksRun, joined_kind, missing_run};
ghost use Rattle.run_shelf.specs.Names.{SpellsRun, SpellsNoRun, SpellsRunNumber, SpellsNoRunNumber, CountsRun, CountsNoRun};
ghost use Rattle.run_shelf.specs.Outcomes.{Surveys, OpenFails, TicksUpTo};
ghost use Rattle.run_shelf.specs.Repository.{most_runs, IsRepository, format_bytes};
ghost use Rattle.run_shelf.specs.Repository.{run_name as name_of};
ghost use Rattle.run_shelf.specs.Sides.{OfLentFolder, cache_file_failed};

use crate::base_set::read_base_set;
use crate::file::{BASED_FORMAT_BYTES, FORMAT_BYTES, FORMAT_NAME};
use crate::{CacheFileFault, Found, MOST_RUNS, OpenFault, ShelfCall, StoreFault};
use arrayvec::ArrayString;
use edge_io::{NamesFault, Shelf};
use itoa::Buffer;
use std::alloc::{AllocError, Global};
use std::str;
use sub_number::Text;

/// The name of the run of this number. It takes no memory.
pub fn run_name(number: u32, partial: bool) -> ArrayString<16>
    requires { number < most_runs }
    ensures { result.bytes ≡ name_of number partial }
{
    let mut digits = Buffer::new();
    let mut name = ArrayString::new();
    name.push_str(digits.format(number));
    if partial {
        name.push_str(".part");
    }
    name
}

// The number of the run that has this name, and whether it is partial. `None` comes exactly where it is no name of a run.
fn read_name(name: &[u8]) -> Option<(u32, bool)>
    ensures some { IfSome result (λ r. SpellsRun name.now r.0 r.1) }
    ensures none { IfNone result (SpellsNoRun name.now) }
{
    match name.strip_suffix(b".part") {
        Some(digits) => Some((read_number(digits)?, true)),
        None => Some((read_number(name)?, false)),
    }
}

// The number below 1,000,000 that these digits spell, without leading zeros.
fn read_number(digits: &[u8]) -> Option<u32>
    ensures some { IfSome result (SpellsRunNumber digits.now) }
    ensures none { IfNone result (SpellsNoRunNumber digits.now) }
{
    let Ok(text) = str::from_utf8(digits) else {
        return None;
    };
    let Ok(number) = text.parse::<u32>() else {
        return None;
    };
    let mut buffer = Buffer::new();
    if number < MOST_RUNS && buffer.format(number).as_bytes() == digits {
        Some(number)
    } else {
        None
    }
}

// The same, of a name that counts: of the first runs, so many, the partial ones alone do.
fn read_counted(name: &[u8], old: u32) -> Option<(u32, bool)>
    ensures some { IfSome result (λ r. CountsRun old name.now r.0 r.1) }
    ensures none { IfNone result (CountsNoRun old name.now) }
{
    let (number, partial) = read_name(name)?;
    if number < old {
        if partial { Some((number, true)) } else { None }
    } else {
        Some((number, partial))
    }
}

// The runs of these names, with room for one more. Each name is read once.
fn runs_of(alloc: Global, names: &[Text], old: u32) -> Result<Found, OpenFault>
    requires { old ≤ most_runs }
    ensures found { IfOk result (λ found. NamesTellKinds names.now old (kinds_of found)) }
    ensures room { IfOk result HasRoom }
    ensures refused { IfErr result (NamesFail names.now old) }
{
    let marks = marks_of(alloc, names, old)?;
    kinds_in(alloc, &marks, names, old)
}

// Marks each number that has a run with its kind.
fn marks_of(alloc: Global, names: &[Text], old: u32) -> Result<Vec<Option<bool>>, AllocError>
    ensures { IfOk result (λ marks. AreMarksOf names.now old marks.items) }
{
    let mut marks = Vec::new(alloc);
    for name in names {
        if let Some((number, partial)) = read_counted(name.bytes(), old) {
            mark(&mut marks, number as usize, partial)?;
        }
    }
    Ok(marks)
}

// Marks one number.
fn mark(marks: &mut Vec<Option<bool>>, number: usize, partial: bool) -> Result<(), AllocError>
    requires { number < most_runs }
    ensures { OnOk result (MarksRun number partial marks.old.items marks.new.items) }
{
    if marks.len() <= number {
        marks.resize(number + 1, None)?;
    }
    let kind = join(marks[number], partial);
    marks[number] = Some(kind);
    Ok(())
}

// The full run counts.
fn join(earlier: Option<bool>, partial: bool) -> bool
    ensures { result ≡ joined_kind earlier partial }
{
    match earlier {
        None | Some(true) => partial,
        Some(false) => false,
    }
}

// The kinds that are marked, up to the end; a number without a mark before it is a gap, or an old run that is missing.
fn kinds_in(
    alloc: Global,
    marks: &[Option<bool>],
    names: &[Text],
    old: u32,
) -> Result<Found, OpenFault>
    requires marks { AreMarksOf names.now old marks.now }
    requires few { old ≤ most_runs }
    ensures found { IfOk result (λ found. NamesTellKinds names.now old (kinds_of found)) }
    ensures room { IfOk result HasRoom }
    ensures refused { IfErr result (NamesFail names.now old) }
{
    let mut kinds = Vec::new(alloc);
    for mark in marks {
        let Some(partial) = *mark else {
            return Err(missing(kinds.len() as u32, old));
        };
        kinds.push(partial)?;
    }
    if kinds.len() < old as usize {
        return Err(OpenFault::BadBase);
    }
    Ok(Found::of(kinds)?)
}

// What it is called that this run is missing, where there is a greater one.
fn missing(number: u32, old: u32) -> OpenFault
    ensures { result ≡ missing_run number old }
{
    if number < old {
        OpenFault::BadBase
    } else {
        OpenFault::Gap(number)
    }
}

// How many bytes the file `format` has.
const FORMAT_SIZE: usize = 16;

// How a repository is laid out: without a base, or with one.
#[derive(Clone, Copy)]
pub(crate) enum Format {
    First,
    Second,
}

/// Looks which runs the folder has: brings what is pending to the disk, reads `format`, under the second format the base, and
/// lists the names. It makes at most four calls of the folder, and two more under the second format. Each name is read once.
/// What it found has room for one run more.
///
/// `NoStore` comes exactly where the file `format` is not there, and `UnknownFormat` exactly where it has other bytes than
/// those of the two formats. `BadBase` comes exactly where it is the second one, and `base.set` is not there, or holds no
/// base, or a run that it counts is not there. `Gap(k)` comes exactly where format and base are right, k is the least number
/// without a run, and a greater number has one. `Shelf` comes only where a call of the folder failed. The files are as
/// before at each exit, and but for a failed `SyncFolder` nothing is pending.
pub fn survey<H: Shelf>(alloc: Global, shelf: &mut H) -> Result<Found, OpenFault>
    ensures found { IfOk result (λ found. Goes (H.seen shelf.old).told (H.seen shelf.new).told (Surveys (kinds_of found))) }
    ensures room { IfOk result HasRoom }
    ensures refused { IfErr result (λ fault. Goes (H.seen shelf.old).told (H.seen shelf.new).told (OpenFails fault)) }
    ensures any_moment { Goes (H.seen shelf.old).told (H.seen shelf.new).told PassesOld }
    ensures time { TicksUpTo (4 + base_calls (H.seen shelf.old).told) (H.clock shelf.old) (H.clock shelf.new) }
    ensures cause { RisesExactlyIf (H.seen shelf.old).faults (H.seen shelf.new).faults (open_failed result) }
{
    let Ok(()) = shelf.sync_folder() else {
        return Err(OpenFault::Shelf(ShelfCall::SyncFolder));
    };
    look(alloc, shelf)
}

// Looks which runs the folder has.
fn look<H: Shelf>(alloc: Global, shelf: &mut H) -> Result<Found, OpenFault>
    ensures found { IfOk result (λ found. IfSome (H.seen shelf.old).told (ShowsKinds (kinds_of found))) }
    ensures room { IfOk result HasRoom }
    ensures refused { IfErr result (λ fault. Goes (H.seen shelf.old).told (H.seen shelf.new).told (LookFails fault)) }
    ensures same { Goes (H.seen shelf.old).told (H.seen shelf.new).told Stays }
    ensures time { TicksUpTo (3 + base_calls (H.seen shelf.old).told) (H.clock shelf.old) (H.clock shelf.new) }
    ensures cause { RisesExactlyIf (H.seen shelf.old).faults (H.seen shelf.new).faults (open_failed result) }
{
    let format = match read_format(shelf) {
        Ok(format) => format,
        Err(fault) => return Err(fault),
    };
    let old = match old_runs(alloc, shelf, format) {
        Ok(old) => old,
        Err(fault) => return Err(fault),
    };
    let names = match shelf.names(alloc) {
        Ok(names) => names,
        Err(NamesFault::Failed) => return Err(OpenFault::Shelf(ShelfCall::Names)),
        Err(NamesFault::NoMemory) => return Err(OpenFault::NoMemory),
    };
    runs_of(alloc, &names, old)
}

// How many runs the base of a folder of this format counts.
fn old_runs<H: Shelf>(alloc: Global, shelf: &mut H, format: Format) -> Result<u32, OpenFault>
    requires { IfSome (H.seen shelf.old).told (HasThisFormat format) }
    ensures count { IfOk result (λ count. IfSome (H.seen shelf.old).told (CountsOld count)) }
    ensures few { IfOk result (λ count. count ≤ most_runs) }
    ensures refused { IfErr result (λ fault. Goes (H.seen shelf.old).told (H.seen shelf.new).told (BaseFails fault)) }
    ensures same { Goes (H.seen shelf.old).told (H.seen shelf.new).told Stays }
    ensures time { TicksUpTo (base_calls (H.seen shelf.old).told) (H.clock shelf.old) (H.clock shelf.new) }
    ensures cause { RisesExactlyIf (H.seen shelf.old).faults (H.seen shelf.new).faults (open_failed result) }
{
    match format {
        Format::First => Ok(0),
        Format::Second => {
            let base = read_base_set(alloc, shelf)?;
            Ok(base.count)
        }
    }
}

// Which of the two formats the file `format` tells.
pub(crate) fn read_format<H: Shelf>(shelf: &mut H) -> Result<Format, OpenFault>
    ensures right { IfOk result (λ format. IfSome (H.seen shelf.old).told (HasThisFormat format)) }
    ensures refused { IfErr result (λ fault. Goes (H.seen shelf.old).told (H.seen shelf.new).told (FormatFails fault)) }
    ensures same { Goes (H.seen shelf.old).told (H.seen shelf.new).told Stays }
    ensures time { TicksUpTo 2 (H.clock shelf.old) (H.clock shelf.new) }
    ensures cause { RisesExactlyIf (H.seen shelf.old).faults (H.seen shelf.new).faults (open_failed result) }
{
    let Ok(found) = shelf.length(FORMAT_NAME) else {
        return Err(OpenFault::Shelf(ShelfCall::Length));
    };
    let Some(size) = found else {
        return Err(OpenFault::NoStore);
    };
    let mut buf = [0u8; FORMAT_SIZE];
    let Ok(count) = shelf.read_at(FORMAT_NAME, 0, &mut buf) else {
        return Err(OpenFault::Shelf(ShelfCall::ReadAt));
    };
    match format_of(size, &buf[..count]) {
        Some(format) => Ok(format),
        None => Err(OpenFault::UnknownFormat),
    }
}

/// The format of a repository, by one call of the folder. `NoMemory` comes only where a folder that tells nothing has other
/// bytes than those of a repository.
pub(crate) fn format_again<H: Shelf>(shelf: &mut H) -> Result<Format, CacheFileFault>
    requires { IfSome (H.seen shelf.old).told (λ s. IsRepository s.disk.published) }
    ensures right { IfOk result (λ format. IfSome (H.seen shelf.old).told (HasThisFormat format)) }
    ensures failed { IfErr result OfLentFolder }
    ensures same { Goes (H.seen shelf.old).told (H.seen shelf.new).told Stays }
    ensures time { TicksUpTo 1 (H.clock shelf.old) (H.clock shelf.new) }
    ensures cause { RisesExactlyIf (H.seen shelf.old).faults (H.seen shelf.new).faults (cache_file_failed result) }
{
    let mut buf = [0u8; FORMAT_SIZE];
    let Ok(count) = shelf.read_at(FORMAT_NAME, 0, &mut buf) else {
        return Err(CacheFileFault::Store(StoreFault::Shelf(ShelfCall::ReadAt)));
    };
    match format_of(FORMAT_SIZE as u64, &buf[..count]) {
        Some(format) => Ok(format),
        None => Err(CacheFileFault::NoMemory),
    }
}

// The format of a file of this size, which begins with these bytes.
fn format_of(size: u64, front: &[u8]) -> Option<Format>
    ensures some { IfSome result (λ format. (size ≡ length format_bytes) × (front.now ≡ bytes_of_format format)) }
    ensures none { IfNone result ((format : Format) → size ≡ length format_bytes → front.now ≡ bytes_of_format format → ⊥) }
{
    if size != FORMAT_SIZE as u64 {
        None
    } else if front == FORMAT_BYTES {
        Some(Format::First)
    } else if front == BASED_FORMAT_BYTES {
        Some(Format::Second)
    } else {
        None
    }
}
