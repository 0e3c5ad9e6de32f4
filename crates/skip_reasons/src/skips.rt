//! The lines of the reasons.

ghost use Rattle.std.specs.Prelude.{◌≡◌, ◌++◌, ℕ, List, map, take, length, IfOk, OnOk, OnErr};
ghost use Rattle.std.specs.List.{flat_map};
ghost use Rattle.std.specs.List.Sorted.{IsPermutation, IsSorted};
ghost use Rattle.outcome_fold.specs.Order.{text_cmp};
ghost use Rattle.skip_reasons.specs.Skips as spec;

use itoa::Buffer;
use outcome_fold::{Ended, Row, Rows};
use std::alloc::Global;
use std::cmp::Ordering;
use sub_number::NoMemory;

// A reason, and how many tests were skipped for it.
#[derive(Clone, Copy)]
struct Tally<'a> {
    reason: &'a [u8],
    tests: u64,
}

// The reasons of the rows that were skipped.
fn reasons(alloc: Global, rows: &[Row]) -> Result<Vec<&[u8]>, NoMemory>
    ensures { IfOk result (λ reasons. map (λ reason. reason.now) reasons.items ≡ spec.reasons_of rows.now) }
{
    let mut reasons = Vec::new(alloc);
    for row in rows {
        if row.ended == Ended::Skip {
            reasons.push(row.reason.bytes())?;
        }
    }
    Ok(reasons)
}

// They stand in the order of their bytes then.
fn sort_reasons(reasons: &mut Vec<&[u8]>) -> Result<(), NoMemory>
    ensures same { OnOk result (IsPermutation (map (λ reason. reason.now) reasons.old.items) (map (λ reason. reason.now) reasons.new.items)) }
    ensures order { OnOk result (IsSorted text_cmp (map (λ reason. reason.now) reasons.new.items)) }
{
    reasons.sort_by(|one, other| one.cmp(other))?;
    Ok(())
}

// The last tally again, or one more behind it.
fn add_to<'a>(
    tallies: &mut Vec<Tally<'a>>,
    last: Tally<'a>,
    reason: &'a [u8],
) -> Result<(), NoMemory>
    ensures { OnOk result (map (λ t. spec.tally t.reason.now t.tests) tallies.new.items ≡ map (λ t. spec.tally t.reason.now t.tests) tallies.old.items ++ spec.more_of (spec.tally last.entry.reason.now last.entry.tests) reason.now) }
{
    if last.reason == reason {
        let Some(tests) = last.tests.checked_add(1) else {
            return Err(NoMemory);
        };
        tallies.push(Tally {
            reason: last.reason,
            tests,
        })?;
        return Ok(());
    }
    tallies.push(last)?;
    tallies.push(Tally { reason, tests: 1 })?;
    Ok(())
}

// One test more of this reason, which is that of the last tally, or of none.
fn add<'a>(tallies: &mut Vec<Tally<'a>>, reason: &'a [u8]) -> Result<(), NoMemory>
    ensures { OnOk result (map (λ t. spec.tally t.reason.now t.tests) tallies.new.items ≡ spec.tallies_with (map (λ t. spec.tally t.reason.now t.tests) tallies.old.items) reason.now) }
{
    match tallies.pop() {
        Some(last) => add_to(tallies, last, reason),
        None => {
            tallies.push(Tally { reason, tests: 1 })?;
            Ok(())
        }
    }
}

// How many there are of each of these reasons, of which equal ones stand side by side.
fn tallied<'a>(alloc: Global, reasons: &[&'a [u8]]) -> Result<Vec<Tally<'a>>, NoMemory>
    ensures { IfOk result (λ tallies. map (λ t. spec.tally t.reason.now t.tests) tallies.items ≡ spec.tallies_of (map (λ reason. reason.now) reasons.now)) }
{
    let mut tallies = Vec::new(alloc);
    for reason in reasons {
        add(&mut tallies, reason)?;
    }
    Ok(tallies)
}

// The most frequent first, of equal ones by the reasons' bytes.
fn compare(one: &Tally<'_>, other: &Tally<'_>) -> Ordering
    ensures { result ≡ spec.frequency_cmp (spec.tally one.now.reason.now one.now.tests) (spec.tally other.now.reason.now other.now.tests) }
{
    other
        .tests
        .cmp(&one.tests)
        .then(one.reason.cmp(other.reason))
}

// They stand in this order then.
fn sort_tallies(tallies: &mut Vec<Tally<'_>>) -> Result<(), NoMemory>
    ensures same { OnOk result (IsPermutation (map (λ t. spec.tally t.reason.now t.tests) tallies.old.items) (map (λ t. spec.tally t.reason.now t.tests) tallies.new.items)) }
    ensures order { OnOk result (IsSorted spec.frequency_cmp (map (λ t. spec.tally t.reason.now t.tests) tallies.new.items)) }
{
    tallies.sort_by(|one, other| compare(one, other))?;
    Ok(())
}

fn write_line(tally: Tally<'_>, text: &mut Vec<u8>) -> Result<(), NoMemory>
    ensures ok { OnOk result (text.new.items ≡ text.old.items ++ spec.skip_line (spec.tally tally.entry.reason.now tally.entry.tests)) }
    ensures kept { take (length text.old.items) text.new.items ≡ text.old.items }
{
    text.extend_from_slice(b"SKIP ")?;
    text.extend_from_slice(Buffer::new().format(tally.tests).as_bytes())?;
    text.extend_from_slice(b": ")?;
    text.extend_from_slice(tally.reason)?;
    text.push(b'\n')?;
    Ok(())
}

// What stands in the text stays, also where there is not enough memory. So of the function above.
fn write_lines(tallies: &[Tally<'_>], text: &mut Vec<u8>) -> Result<(), NoMemory>
    ensures ok { OnOk result (text.new.items ≡ text.old.items ++ flat_map spec.skip_line (map (λ t. spec.tally t.reason.now t.tests) tallies.now)) }
    ensures kept { take (length text.old.items) text.new.items ≡ text.old.items }
{
    for tally in tallies {
        write_line(*tally, text)?;
    }
    Ok(())
}

/// Appends a line for each reason for which tests were skipped, with how many were: the most frequent first, of equal ones
/// by the reasons' bytes. A reason is `Row::reason`, which is empty where a test told none.
///
/// `NoMemory` comes for want of memory; the text is as before then.
pub fn skips_text(alloc: Global, rows: &Rows, out: &mut Vec<u8>) -> Result<(), NoMemory>
    ensures ok { OnOk result ((text : List ℕ) × spec.TellsSkips rows.now text × (out.new.items ≡ out.old.items ++ text)) }
    ensures err { OnErr result (out.new.items ≡ out.old.items) }
{
    let mut reasons = reasons(alloc, rows.list())?;
    sort_reasons(&mut reasons)?;
    let mut tallies = tallied(alloc, &reasons)?;
    sort_tallies(&mut tallies)?;
    let before = out.len();
    let done = write_lines(&tallies, out);
    if done.is_err() {
        out.truncate(before);
    }
    done
}
