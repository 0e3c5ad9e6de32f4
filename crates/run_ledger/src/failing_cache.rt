//! The cache of the failing set, written and read.

ghost use Rattle.std.specs.Prelude.{◌≡◌, ◌++◌, ◌∷◌, [], ℕ, List, All, true, false, IsTrue, ◌↔◌, IfSome, IfNone, IfOk, OnOk};
ghost use Rattle.std.specs.List.{flat_map};
ghost use Rattle.std.specs.List.Sorted.{IsStrictlySortedBy};
ghost use Rattle.sub_number.specs.Texts.{IsShortText};
ghost use Rattle.outcome_fold.specs.Order.{text_cmp};
ghost use Rattle.run_shelf.specs.IdFiles.{with_zero, AreIds, AreEntries};
ghost use Rattle.run_ledger.specs.Caches.{failing_cache, IsFailingCache};

use crate::cache_parts::{read_heading, split_at_mark};
use itoa::Buffer;
use std::alloc::Global;
use sub_number::{Bytes, IdList, NoMemory, Text, TextFault};

// The first line.
const TITLE: &[u8] = b"subunit-failing 1\n";

/// What a cache of the failing set holds: of how many runs, from the first on, and the ids in the order of their bytes.
#[derive(Drop)]
pub struct FailingCache {
    pub covers: u64,
    pub ids: IdList,
}

/// The bytes of the cache of these ids, of so many runs. Where the ids are in order, they are read again as that.
pub fn write_failing_cache(alloc: Global, covers: u64, ids: &IdList) -> Result<Bytes, NoMemory>
    ensures bytes { IfOk result (λ bytes. bytes ≡ failing_cache covers ids.now) }
    ensures form { IfOk result (λ bytes. IsStrictlySortedBy text_cmp ids.now → IsFailingCache bytes covers ids.now) }
{
    let mut bytes = Vec::new(alloc);
    bytes.extend_from_slice(TITLE)?;
    bytes.extend_from_slice(Buffer::new().format(covers).as_bytes())?;
    bytes.push(b'\n')?;
    write_entries(ids.list(), &mut bytes)?;
    Ok(Bytes::from_vec(bytes))
}

// Each id, and a zero byte behind it.
fn write_entries(ids: &[Text], bytes: &mut Vec<u8>) -> Result<(), NoMemory>
    ensures bytes { OnOk result (bytes.new.items ≡ bytes.old.items ++ flat_map with_zero ids.now) }
    ensures texts { OnOk result (All IsShortText ids.now) }
{
    for id in ids {
        bytes.extend_from_slice(id.bytes())?;
        bytes.push(0)?;
    }
    Ok(())
}

/// What the bytes hold, where they are a cache of the failing set. `None` comes exactly where they are none. Each byte
/// is looked at a few times.
pub fn read_failing_cache(alloc: Global, bytes: &[u8]) -> Result<Option<FailingCache>, NoMemory>
    ensures some { IfOk result (λ found. IfSome found (λ cache. IsFailingCache bytes.now cache.covers cache.ids)) }
    ensures none { IfOk result (λ found. IfNone found ((covers : ℕ) (ids : List (List ℕ)) → IsFailingCache bytes.now covers ids → ⊥)) }
{
    let Some((covers, rest)) = read_heading(TITLE, bytes) else {
        return Ok(None);
    };
    let Some(ids) = read_entries(alloc, rest)? else {
        return Ok(None);
    };
    Ok(Some(FailingCache { covers, ids }))
}

// The ids, where the bytes are ids in order with a zero byte behind each.
fn read_entries(alloc: Global, bytes: &[u8]) -> Result<Option<IdList>, NoMemory>
    ensures some { IfOk result (λ found. IfSome found (AreEntries bytes.now)) }
    ensures none { IfOk result (λ found. IfNone found ((ids : List (List ℕ)) → AreEntries bytes.now ids → ⊥)) }
{
    let mut ids = IdList::new(alloc);
    let mut rest = bytes;
    while let Some((id, behind)) = split_at_mark(0, rest) {
        if !push_id(alloc, &mut ids, id)? {
            return Ok(None);
        }
        rest = behind;
    }
    if rest.is_empty() {
        Ok(Some(ids))
    } else {
        Ok(None)
    }
}

// Adds the id, where it is a text and comes behind the others. Answers whether it was added.
fn push_id(alloc: Global, ids: &mut IdList, bytes: &[u8]) -> Result<bool, NoMemory>
    requires { AreIds ids.old }
    ensures added { result ≡ Ok true → (ids.new ≡ ids.old ++ bytes.now ∷ []) × AreIds ids.new }
    ensures not_added { result ≡ Ok false → AreIds (ids.old ++ bytes.now ∷ []) → ⊥ }
{
    if !comes_behind(ids.list(), bytes) {
        return Ok(false);
    }
    match Text::new(alloc, bytes) {
        Ok(id) => {
            ids.push(id)?;
            Ok(true)
        }
        Err(TextFault::NotText) => Ok(false),
        Err(TextFault::NoMemory) => Err(NoMemory),
    }
}

// Whether the id comes behind each of these, which are in order.
pub(crate) fn comes_behind(ids: &[Text], id: &[u8]) -> bool
    requires { IsStrictlySortedBy text_cmp ids.now }
    ensures { IsTrue result ↔ IsStrictlySortedBy text_cmp (ids.now ++ id.now ∷ []) }
{
    match ids.last() {
        Some(last) => last.bytes().cmp(id).is_lt(),
        None => true,
    }
}
