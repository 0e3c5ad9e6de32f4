//! Files of ids: a title, a number, and ids in the order of their bytes.

ghost use Rattle.std.specs.Prelude.{◌≡◌, ◌++◌, ◌∷◌, [], ◌↔◌, ℕ, List, true, false, IsTrue, IfSome, IfNone, IfOk, Ok};
ghost use Rattle.std.specs.Cmp.Lexicographic.{slice_cmp};
ghost use Rattle.std.specs.List.Sorted.{IsStrictlySortedBy};
ghost use Rattle.std.specs.Ordering.{nat_cmp};
ghost use Rattle.sub_number.specs.Lines.{with_newline};
ghost use Rattle.run_shelf.specs.IdFiles.{IsIdFile, AreIds, AreEntries, Lacks, IsCutAtMark, SpellsDecimal, BeginsWithHeading};

use itoa::Buffer;
use memchr::memchr;
use std::alloc::Global;
use std::str;
use sub_number::{IdList, NoMemory, Text, TextFault};

/// What a file of ids holds.
#[derive(Drop)]
pub struct IdFile {
    pub number: u64,
    pub ids: IdList,
}

/// What the bytes hold, where they are a file of ids of this title, which is given with its newline. `None` comes exactly
/// where they are none. Each byte is looked at a few times.
pub fn read_id_file(alloc: Global, title: &[u8], bytes: &[u8]) -> Result<Option<IdFile>, NoMemory>
    ensures some { (name : List ℕ) → title.now ≡ with_newline name → IfOk result (λ found. IfSome found (λ file. IsIdFile name bytes.now file.number file.ids)) }
    ensures none { (name : List ℕ) → title.now ≡ with_newline name → IfOk result (λ found. IfNone found ((number : ℕ) (ids : List (List ℕ)) → IsIdFile name bytes.now number ids → ⊥)) }
{
    let Some((number, rest)) = read_heading(title, bytes) else {
        return Ok(None);
    };
    let Some(ids) = read_entries(alloc, rest)? else {
        return Ok(None);
    };
    Ok(Some(IdFile { number, ids }))
}

// The bytes before the first of this mark, and those behind it. `None` comes exactly where there is no such mark.
fn split_at_mark(mark: u8, bytes: &[u8]) -> Option<(&[u8], &[u8])>
    ensures some { IfSome result (λ parts. IsCutAtMark mark bytes.now parts.0.now parts.1.now) }
    ensures none { IfNone result (Lacks mark bytes.now) }
{
    let place = memchr(mark, bytes)?;
    Some((&bytes[..place], &bytes[place + 1..]))
}

// The number below 2^64 that these digits spell, without leading zeros. `None` comes exactly where they spell none.
fn read_decimal(digits: &[u8]) -> Option<u64>
    ensures some { IfSome result (SpellsDecimal digits.now) }
    ensures none { IfNone result ((number : ℕ) → SpellsDecimal digits.now number → ⊥) }
{
    let Ok(text) = str::from_utf8(digits) else {
        return None;
    };
    let Ok(number) = text.parse::<u64>() else {
        return None;
    };
    let mut buffer = Buffer::new();
    if buffer.format(number).as_bytes() == digits {
        Some(number)
    } else {
        None
    }
}

// The number in the line behind this title, and what is behind that line. `None` comes exactly where the bytes do not
// begin so.
fn read_heading<'b>(title: &[u8], bytes: &'b [u8]) -> Option<(u64, &'b [u8])>
    ensures some { IfSome result (λ head. BeginsWithHeading title.now bytes.now head.0 head.1.now) }
    ensures none { IfNone result ((number : ℕ) (rest : List ℕ) → BeginsWithHeading title.now bytes.now number rest → ⊥) }
{
    let rest = bytes.strip_prefix(title)?;
    let (digits, behind) = split_at_mark(b'\n', rest)?;
    Some((read_decimal(digits)?, behind))
}

// The ids, where the bytes are ids in order with a zero byte behind each.
fn read_entries(alloc: Global, bytes: &[u8]) -> Result<Option<IdList>, NoMemory>
    ensures some { IfOk result (λ found. IfSome found (AreEntries bytes.now)) }
    ensures none { IfOk result (λ found. IfNone found ((ids : List (List ℕ)) → AreEntries bytes.now ids → ⊥)) }
{
    let mut ids = IdList::new(alloc);
    let mut rest = bytes;
    while let Some((id, behind)) = split_at_mark(0, rest) {
        if !push_id(alloc, &mut ids, id)? {
            return Ok(None);
        }
        rest = behind;
    }
    if rest.is_empty() {
        Ok(Some(ids))
    } else {
        Ok(None)
    }
}

// Adds the id, where it is a text and comes behind the others. Answers whether it was added.
fn push_id(alloc: Global, ids: &mut IdList, bytes: &[u8]) -> Result<bool, NoMemory>
    requires { AreIds ids.old }
    ensures added { result ≡ Ok true → (ids.new ≡ ids.old ++ bytes.now ∷ []) × AreIds ids.new }
    ensures not_added { result ≡ Ok false → AreIds (ids.old ++ bytes.now ∷ []) → ⊥ }
{
    if !comes_behind(ids.list(), bytes) {
        return Ok(false);
    }
    match Text::new(alloc, bytes) {
        Ok(id) => {
            ids.push(id)?;
            Ok(true)
        }
        Err(TextFault::NotText) => Ok(false),
        Err(TextFault::NoMemory) => Err(NoMemory),
    }
}

// Whether the id comes behind each of these, which are in order.
fn comes_behind(ids: &[Text], id: &[u8]) -> bool
    requires { IsStrictlySortedBy (slice_cmp nat_cmp) ids.now }
    ensures { IsTrue result ↔ IsStrictlySortedBy (slice_cmp nat_cmp) (ids.now ++ id.now ∷ []) }
{
    match ids.last() {
        Some(last) => last.bytes().cmp(id).is_lt(),
        None => true,
    }
}
