//! The tests that were asked for and did not run, and their lines.

ghost use Rattle.std.specs.Prelude.{◌≡◌, ◌++◌, ℕ, List, length, not, IfOk, OnOk};
ghost use Rattle.std.specs.List.{flat_map};
ghost use Rattle.outcome_fold.specs.Order.{in_byte_order};
ghost use Rattle.outcome_fold.specs.Summed.{Sums};
ghost use Rattle.outcome_fold.specs.declared.row.Row.{Row as ARow};
ghost use Rattle.missing_tests.specs.Missing as spec;

use itoa::Buffer;
use outcome_fold::{Summary, TextSet};
use std::alloc::Global;
use sub_number::{IdList, NoMemory, Text};

// How many of the tests are named.
const MOST_NAMED: usize = 10;

/// The ids of these lists, in the order of their bytes, each once.
pub fn asked_once(alloc: Global, lists: &[IdList]) -> Result<IdList, NoMemory>
    ensures { IfOk result (λ ids. ids ≡ in_byte_order (flat_map (λ list. list) lists.now)) }
{
    let mut ids = TextSet::new(alloc);
    for some in lists {
        ids.insert_all(some.list())?;
    }
    ids.into_ids(alloc)
}

/// These ids, in the order of their bytes, each once.
pub fn each_once(alloc: Global, ids: &[Text]) -> Result<IdList, NoMemory>
    ensures { IfOk result (λ list. list ≡ in_byte_order ids.now) }
{
    let mut set = TextSet::new(alloc);
    set.insert_all(ids)?;
    set.into_ids(alloc)
}

/// Appends what is told of the ids that were asked for and of which no row of a test that ran tells, and answers whether there
/// are some. Those that were asked for stand in the order of their bytes, each once; this is kept of the rows.
///
/// It takes time by their number, and not by its square. After `NoMemory` nothing is known of the text.
pub fn missing_text(
    alloc: Global,
    asked: IdList,
    summary: &Summary,
    text: &mut Vec<u8>,
) -> Result<bool, NoMemory>
    ensures { (filter_tags ids : List (List ℕ)) (rows : List ARow) → asked ≡ in_byte_order ids → Sums filter_tags rows summary.now → IfOk result (λ some. (text.new.items ≡ text.old.items ++ spec.missing_text ids rows) × (some ≡ spec.some_missing ids rows)) }
{
    let all = asked.list().len();
    let missing = missing_ids(alloc, asked, summary)?;
    put_lines(missing.list(), all, text)?;
    Ok(!missing.list().is_empty())
}

// The ids that were asked for, without those of tests that ran.
fn missing_ids(alloc: Global, asked: IdList, summary: &Summary) -> Result<IdList, NoMemory>
    ensures { (filter_tags ids : List (List ℕ)) (rows : List ARow) → asked ≡ in_byte_order ids → Sums filter_tags rows summary.now → IfOk result (λ missing. missing ≡ spec.missing_ids ids rows) }
{
    let mut left = TextSet::new(alloc);
    left.put_all(asked)?;
    // This takes those out that ran and did not fail, and puts all in that failed.
    summary.change_failing(alloc, &mut left)?;
    let failing = summary.failing_ids(alloc)?;
    left.remove_all(failing.list());
    left.into_ids(alloc)
}

// Appends the lines of these ids, of so many that were asked for.
fn put_lines(missing: &[Text], all: usize, text: &mut Vec<u8>) -> Result<(), NoMemory>
    ensures { OnOk result (text.new.items ≡ text.old.items ++ spec.missing_lines missing.now all) }
{
    if missing.is_empty() {
        return Ok(());
    }
    put_count(missing.len(), all, text)?;
    put_named(missing, text)
}

// Appends the line that tells how many there are.
fn put_count(missing: usize, all: usize, text: &mut Vec<u8>) -> Result<(), NoMemory>
    ensures { OnOk result (text.new.items ≡ text.old.items ++ spec.missing_count_line missing all) }
{
    let mut digits = Buffer::new();
    text.extend_from_slice(b"testr: ")?;
    text.extend_from_slice(digits.format(missing).as_bytes())?;
    text.extend_from_slice(b" of ")?;
    text.extend_from_slice(digits.format(all).as_bytes())?;
    text.extend_from_slice(b" tests that were asked for did not run\n")?;
    Ok(())
}

// Appends a line for each of the ids, or for the first of them and for how many more there are.
fn put_named(missing: &[Text], text: &mut Vec<u8>) -> Result<(), NoMemory>
    ensures { OnOk result (text.new.items ≡ text.old.items ++ spec.named_lines missing.now) }
{
    if missing.len() <= MOST_NAMED {
        return put_ids(missing, text);
    }
    put_ids(&missing[..MOST_NAMED], text)?;
    put_more(missing.len() - MOST_NAMED, text)
}

// Appends a line for each of the ids.
fn put_ids(ids: &[Text], text: &mut Vec<u8>) -> Result<(), NoMemory>
    ensures { OnOk result (text.new.items ≡ text.old.items ++ flat_map spec.missing_id_line ids.now) }
{
    for id in ids {
        put_id(id, text)?;
    }
    Ok(())
}

fn put_id(id: &Text, text: &mut Vec<u8>) -> Result<(), NoMemory>
    ensures { OnOk result (text.new.items ≡ text.old.items ++ spec.missing_id_line id.now) }
{
    text.extend_from_slice(b"  ")?;
    text.extend_from_slice(id.bytes())?;
    text.push(b'\n')?;
    Ok(())
}

// Appends the line that tells how many more there are.
fn put_more(more: usize, text: &mut Vec<u8>) -> Result<(), NoMemory>
    ensures { OnOk result (text.new.items ≡ text.old.items ++ spec.more_line more) }
{
    let mut digits = Buffer::new();
    text.extend_from_slice(b"  and ")?;
    text.extend_from_slice(digits.format(more).as_bytes())?;
    text.extend_from_slice(b" more\n")?;
    Ok(())
}
