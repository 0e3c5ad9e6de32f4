//! The bytes of a base.

ghost use Rattle.std.specs.Prelude.{◌≡◌, ◌≤◌, ◌++◌, All, IfOk, OnOk};
ghost use Rattle.std.specs.Cmp.Lexicographic.{slice_cmp};
ghost use Rattle.std.specs.List.{flat_map};
ghost use Rattle.std.specs.List.Sorted.{IsStrictlySortedBy};
ghost use Rattle.std.specs.Ordering.{nat_cmp};
ghost use Rattle.sub_number.specs.Texts.{IsShortText};
ghost use Rattle.run_shelf.specs.Bases.{base_in, base_title, HoldsBase};
ghost use Rattle.run_shelf.specs.IdFiles.{with_zero, id_file};
ghost use Rattle.run_shelf.specs.Repository.{most_runs};

use itoa::Buffer;
use std::alloc::Global;
use sub_number::{Bytes, IdList, NoMemory, Text};

// The first line.
const TITLE: &[u8] = b"subunit-base 1\n";

/// The bytes of the base of so many runs and these ids, which are in the order of their bytes, each once.
pub fn base_bytes(alloc: Global, count: u32, ids: &IdList) -> Result<Bytes, NoMemory>
    requires few { count ≤ most_runs }
    requires ordered { IsStrictlySortedBy (slice_cmp nat_cmp) ids.now }
    ensures holds { IfOk result HoldsBase }
    ensures is { IfOk result (λ bytes. base_in bytes ≡ record { count = count; ids = ids.now }) }
{
    written(alloc, count, ids)
}

// The first line, the number, and each id.
fn written(alloc: Global, count: u32, ids: &IdList) -> Result<Bytes, NoMemory>
    ensures bytes { IfOk result (λ bytes. bytes ≡ id_file base_title count ids.now) }
    ensures texts { OnOk result (All IsShortText ids.now) }
{
    let mut bytes = Vec::new(alloc);
    bytes.extend_from_slice(TITLE)?;
    bytes.extend_from_slice(Buffer::new().format(count).as_bytes())?;
    bytes.push(b'\n')?;
    write_entries(ids.list(), &mut bytes)?;
    Ok(Bytes::from_vec(bytes))
}

// Each id, and a zero byte behind it.
fn write_entries(ids: &[Text], bytes: &mut Vec<u8>) -> Result<(), NoMemory>
    ensures bytes { OnOk result (bytes.new.items ≡ bytes.old.items ++ flat_map with_zero ids.now) }
    ensures texts { OnOk result (All IsShortText ids.now) }
{
    for id in ids {
        bytes.extend_from_slice(id.bytes())?;
        bytes.push(0)?;
    }
    Ok(())
}
