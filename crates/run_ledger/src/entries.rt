//! Times as the bytes that hold them in their cache.

ghost use Rattle.std.specs.Prelude.{◌≡◌, ◌↔◌, ℕ, List, IsTrue, IfSome, IfNone, IfOk, OnOk, Ok, true, false};
ghost use Rattle.std.specs.Option.{option_copied};
ghost use Rattle.std.specs.FinMap as fin;
ghost use Rattle.std.specs.FinMap.{FinMap};
ghost use Rattle.std.specs.Bool.{MatchBool};
ghost use Rattle.std.specs.declared.cmp.Ordering.TheVariants.{Less};
ghost use Rattle.sub_number.specs.Texts.{IsShortText};
ghost use Rattle.outcome_fold.specs.Order.{text_cmp};
ghost use Rattle.run_ledger.specs.Cuts.{BeginsWithTime, AreTimeEntries};

use crate::cache_parts::{read_decimal, split_at_mark};
use std::alloc::Global;
use std::marker::Model;
use sub_number::{NoMemory, Text, TextFault, TimeMap, is_text};

/// The times of some ids, in nanoseconds, as the bytes of a cache's entries: the ids in the order of their bytes, each once
/// and with its time, and a zero byte behind each. Contracts see them as a finite map from the ids' bytes.
#[derive(Drop)]
pub(crate) struct Entries {
    bytes: Vec<u8>,
}

impl Model for Entries {
    ghost use Rattle.std.specs.Prelude.{ℕ};
    ghost use Rattle.std.specs.FinMap as map;
    ghost use Rattle.std.specs.Ordering.{nat_cmp};
    ghost use Rattle.std.specs.Cmp.Lexicographic.{slice_cmp};
    ghost use Rattle.std.specs.Coded.{coded_ℕ, coded_list};
    ghost use Rattle.run_ledger.specs.Cuts.{AreTimeEntries as AreEntriesOf};
    ghost use Rattle.run_ledger.specs.Merging.{times_in};

    ghost Value = { map.FinMap (slice_cmp nat_cmp) ℕ };

    ghost coded = { map.code (coded_list coded_ℕ) coded_ℕ };

    ghost view = { λ e. times_in e.bytes.items };

    ghost invariant = { λ e. AreEntriesOf e.bytes.items (times_in e.bytes.items) };
}

impl Entries {
    /// No id has a time. It takes no memory yet.
    pub(crate) fn new(alloc: Global) -> Self
        ensures { result ≡ fin.empty }
    {
        Entries {
            bytes: Vec::new(alloc),
        }
    }

    /// The times that these bytes hold.
    pub(crate) fn from_vec(bytes: Vec<u8>) -> Self
        requires { (times : FinMap text_cmp ℕ) × AreTimeEntries bytes.items times }
        ensures { AreTimeEntries bytes.items result }
    {
        Entries { bytes }
    }

    /// The bytes.
    pub(crate) fn bytes(&self) -> &[u8]
        ensures { AreTimeEntries result.now self.now }
    {
        &self.bytes
    }

    /// The bytes, moved out.
    pub(crate) fn into_vec(self) -> Vec<u8>
        ensures { AreTimeEntries result.items self }
    {
        self.bytes
    }
}

/// Whether the bytes are ids in order, each with its time, and a zero byte behind each.
pub(crate) fn are_entries(bytes: &[u8]) -> bool
    ensures { MatchBool result ((times : FinMap text_cmp ℕ) × AreTimeEntries bytes.now times) ((times : FinMap text_cmp ℕ) → AreTimeEntries bytes.now times → ⊥) }
{
    let mut last: Option<&[u8]> = None;
    let mut rest = bytes;
    while let Some((id, _, behind)) = next_time(rest) {
        if !comes_after(last, id) || !is_short_text(id) {
            return false;
        }
        last = Some(id);
        rest = behind;
    }
    rest.is_empty()
}

// The id and the time with which the bytes begin, and what is behind them.
fn next_time(bytes: &[u8]) -> Option<(&[u8], u64, &[u8])>
    ensures some { IfSome result (λ timed. BeginsWithTime bytes.now timed.0.now timed.1 timed.2.now) }
    ensures none { IfNone result ((id : List ℕ) (nanos : ℕ) (rest : List ℕ) → BeginsWithTime bytes.now id nanos rest → ⊥) }
{
    let (id, rest) = split_at_mark(0, bytes)?;
    let (digits, behind) = split_at_mark(0, rest)?;
    Some((id, read_decimal(digits)?, behind))
}

// Whether the id comes behind the last one, where there is one.
fn comes_after(last: Option<&[u8]>, id: &[u8]) -> bool
    ensures { IsTrue result ↔ IfSome (option_copied last.entry) (λ earlier. text_cmp earlier id.now ≡ Less) }
{
    match last {
        Some(earlier) => earlier.cmp(id).is_lt(),
        None => true,
    }
}

// Whether the bytes are a text that is short enough.
fn is_short_text(bytes: &[u8]) -> bool
    ensures { IsTrue result ↔ IsShortText bytes.now }
{
    bytes.len() < 1 << 30 && is_text(bytes)
}

/// The times that these entries hold, in a map. Each id is copied once.
pub(crate) fn map_of(alloc: Global, bytes: &[u8]) -> Result<TimeMap, NoMemory>
    ensures { (times : FinMap text_cmp ℕ) → AreTimeEntries bytes.now times → IfOk result (λ found. found ≡ times) }
{
    let mut times = TimeMap::new(alloc);
    let mut rest = bytes;
    while let Some((id, nanos, behind)) = next_time(rest) {
        put_time(alloc, &mut times, id, nanos)?;
        rest = behind;
    }
    Ok(times)
}

// Gives the id this time, where it is a text.
fn put_time(alloc: Global, times: &mut TimeMap, bytes: &[u8], nanos: u64) -> Result<(), NoMemory>
    ensures { IsShortText bytes.now → OnOk result (times.new ≡ fin.insert times.old bytes.now nanos) }
{
    match Text::new(alloc, bytes) {
        Ok(id) => times.put(&id, nanos),
        Err(TextFault::NotText) => Ok(()),
        Err(TextFault::NoMemory) => Err(NoMemory),
    }
}
