//! The slowest tests.

ghost use Rattle.std.specs.Prelude.{◌≡◌, ◌++◌, map, take, length, OnOk, OnErr, IfOk};
ghost use Rattle.std.specs.List.{flat_map};
ghost use Rattle.outcome_fold.specs.Answers.{timed_rows};
ghost use Rattle.sub_number.specs.Seconds.{printed_seconds};
ghost use Rattle.sub_text.specs.Texts.{timed_test, slow_cmp, slowest_first, first_ones, slow_line, in_ten_places, slowest_of};

use crate::seconds::seconds_text;
use outcome_fold::{Ended, Row, Rows};
use std::alloc::Global;
use std::cmp::Ordering;
use sub_number::NoMemory;

/// How many tests are printed where not all are wanted.
const SHOWN: usize = 10;

/// Blanks for seconds of fewer than ten signs.
const BLANKS: &[u8] = b"          ";

// The order in which the rows are printed: the longest time first, of equal times by id, then by route.
fn compare(one: &Row, other: &Row) -> Ordering
    ensures { result ≡ slow_cmp (timed_test one.now) (timed_test other.now) }
{
    let (first, second) = (one.nanos.unwrap_or(0), other.nanos.unwrap_or(0));
    second
        .cmp(&first)
        .then(one.id.cmp(&other.id))
        .then(one.route.cmp(&other.route))
}

// The rows of tests that ran and have a time.
fn timed(alloc: Global, rows: &[Row]) -> Result<Vec<&Row>, NoMemory>
    ensures { IfOk result (λ timed. map (λ row. row.now) timed.items ≡ timed_rows rows.now) }
{
    let mut timed = Vec::new(alloc);
    for row in rows {
        if row.ended != Ended::Exists && row.nanos.is_some() {
            timed.push(row)?;
        }
    }
    Ok(timed)
}

// Those rows in the order in which they are printed.
fn in_order(alloc: Global, rows: &[Row]) -> Result<Vec<&Row>, NoMemory>
    ensures { IfOk result (λ order. map (λ row. timed_test row.now) order.items ≡ slowest_first (map timed_test (timed_rows rows.now))) }
{
    let mut order = timed(alloc, rows)?;
    order.sort_by(|one, other| compare(one, other))?;
    Ok(order)
}

// All of the rows, or the first ten.
fn first_ones<'a>(all: bool, rows: &'a [&'a Row]) -> &'a [&'a Row]
    ensures { map (λ row. timed_test row.now) result.now ≡ first_ones all (map (λ row. timed_test row.now) rows.now) }
{
    if all {
        rows
    } else {
        &rows[..SHOWN.min(rows.len())]
    }
}

// The seconds right in ten places.
fn write_seconds(nanos: u64, text: &mut Vec<u8>) -> Result<(), NoMemory>
    ensures ok { OnOk result (text.new.items ≡ text.old.items ++ in_ten_places (printed_seconds nanos)) }
    ensures kept { take (length text.old.items) text.new.items ≡ text.old.items }
{
    let mut seconds = Vec::new(*text.allocator());
    seconds_text(u128::from(nanos), &mut seconds)?;
    let blanks = BLANKS.len().saturating_sub(seconds.len());
    text.extend_from_slice(&BLANKS[..blanks])?;
    text.extend_from_slice(&seconds)?;
    Ok(())
}

fn write_line(row: &Row, text: &mut Vec<u8>) -> Result<(), NoMemory>
    ensures ok { OnOk result (text.new.items ≡ text.old.items ++ slow_line (timed_test row.now)) }
    ensures kept { take (length text.old.items) text.new.items ≡ text.old.items }
{
    write_seconds(row.nanos.unwrap_or(0), text)?;
    text.extend_from_slice(b"  ")?;
    text.extend_from_slice(row.id.bytes())?;
    text.push(b'\n')?;
    Ok(())
}

// What stands in the text stays, also where there is not enough memory. So of the functions above that append.
fn write_lines(rows: &[&Row], text: &mut Vec<u8>) -> Result<(), NoMemory>
    ensures ok { OnOk result (text.new.items ≡ text.old.items ++ flat_map slow_line (map (λ row. timed_test row.now) rows.now)) }
    ensures kept { take (length text.old.items) text.new.items ≡ text.old.items }
{
    for row in rows {
        write_line(row, text)?;
    }
    Ok(())
}

/// Appends the tests that ran and have a time, each with its seconds on a line: the longest first, of equal times by
/// id, then by route. There are ten, or all.
pub fn slowest_text(
    alloc: Global,
    rows: &Rows,
    all: bool,
    out: &mut Vec<u8>,
) -> Result<(), NoMemory>
    ensures ok { OnOk result (out.new.items ≡ out.old.items ++ slowest_of rows.now all) }
    ensures err { OnErr result (out.new.items ≡ out.old.items) }
{
    let order = in_order(alloc, rows.list())?;
    let before = out.len();
    let done = write_lines(first_ones(all, &order), out);
    if done.is_err() {
        out.truncate(before);
    }
    done
}
