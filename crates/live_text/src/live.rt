//! The lines of the rows of a run while it goes on.

ghost use Rattle.std.specs.Prelude.{◌≡◌, ◌++◌, ◌∷◌, [], ℕ, ◌+◌, ◌%◌, List, Option, Some, None, take, length, OnOk, OnErr};
ghost use Rattle.std.specs.List.{flat_map};
ghost use Rattle.packet_codec.specs.Lanes.{lane_name};
ghost use Rattle.packet_codec.specs.declared.event.Event.{Event as AnEvent};
ghost use Rattle.std.specs.Option.{option_to_list};
ghost use Rattle.outcome_fold.specs.Rows.{completed_row, completed_behind};
ghost use Rattle.sub_text.specs.Texts.{failure_of};
ghost use Rattle.live_text.specs.declared.live.Live.{Live};
ghost use Rattle.live_text.specs.Live.{lane_shown, time_in_brackets, reason_shown, word_of, indented, lines_below_test, name_shown, test_line_front, ending_shown, line_rest, test_line, mark_of, mark_in_line, marks_a_line, failure_block, live_line};

use bstr::ByteSlice;
use outcome_fold::{Ended, Row, line_end};
use sub_number::NoMemory;
use sub_text::{failure_parts, seconds_text};

/// What is printed of each row.
#[derive(Clone, Copy, Debug, PartialEq, Eq)]
pub enum Live {
    /// Nothing.
    Nothing,
    /// A line of each test.
    Tests,
    /// The report of each test that fails.
    Failures,
    /// A mark of each test.
    Dots,
}

// The route up to its first slash.
pub(crate) fn lane_name(route: &[u8]) -> &[u8]
    ensures { result.now ≡ lane_name route.now }
{
    match route.find_byte(b'/') {
        Some(end) => &route[..end],
        None => route,
    }
}

fn word_of<'a>(ended: Ended) -> &'a [u8]
    ensures { result.now ≡ word_of ended }
{
    match ended {
        Ended::Exists => b"",
        Ended::Success | Ended::XFail => b"ok",
        Ended::UxSuccess | Ended::Fail => b"FAILED",
        Ended::Skip => b"SKIPPED",
        Ended::Open => b"UNFINISHED",
    }
}

fn mark_of<'a>(ended: Ended) -> &'a [u8]
    ensures { result.now ≡ mark_of ended }
{
    match ended {
        Ended::Exists => b"",
        Ended::Success | Ended::XFail => b".",
        Ended::UxSuccess | Ended::Fail | Ended::Open => b"F",
        Ended::Skip => b"S",
    }
}

fn write_lane(row: &Row, text: &mut Vec<u8>) -> Result<(), NoMemory>
    ensures ok { OnOk result (text.new.items ≡ text.old.items ++ lane_shown row.now.route) }
    ensures kept { take (length text.old.items) text.new.items ≡ text.old.items }
{
    match &row.route {
        Some(route) => text.extend_from_slice(lane_name(route.bytes()))?,
        None => text.push(b'0')?,
    }
    Ok(())
}

fn write_time(nanos: Option<u64>, text: &mut Vec<u8>) -> Result<(), NoMemory>
    ensures ok { OnOk result (text.new.items ≡ text.old.items ++ time_in_brackets nanos) }
    ensures kept { take (length text.old.items) text.new.items ≡ text.old.items }
{
    let Some(nanos) = nanos else {
        return Ok(());
    };
    text.extend_from_slice(b" [")?;
    seconds_text(u128::from(nanos), text)?;
    text.extend_from_slice(b"s]")?;
    Ok(())
}

fn write_reason(reason: &[u8], text: &mut Vec<u8>) -> Result<(), NoMemory>
    ensures ok { OnOk result (text.new.items ≡ text.old.items ++ reason_shown reason.now) }
    ensures kept { take (length text.old.items) text.new.items ≡ text.old.items }
{
    if !reason.is_empty() {
        text.extend_from_slice(b": ")?;
        text.extend_from_slice(reason)?;
    }
    Ok(())
}

// Each line behind four blanks.
fn write_indented(lines: &[u8], text: &mut Vec<u8>) -> Result<(), NoMemory>
    ensures ok { OnOk result (text.new.items ≡ text.old.items ++ indented lines.now) }
    ensures kept { take (length text.old.items) text.new.items ≡ text.old.items }
{
    let mut left = lines.lines_with_terminator();
    while let Some(line) = left.next() {
        text.extend_from_slice(b"    ")?;
        text.extend_from_slice(line)?;
    }
    text.extend_from_slice(line_end(lines))?;
    Ok(())
}

fn write_below(row: &Row, text: &mut Vec<u8>) -> Result<(), NoMemory>
    ensures ok { OnOk result (text.new.items ≡ text.old.items ++ lines_below_test row.now.ended row.now.text) }
    ensures kept { take (length text.old.items) text.new.items ≡ text.old.items }
{
    match row.ended {
        Ended::UxSuccess | Ended::Fail => write_indented(row.text.bytes(), text),
        Ended::Exists | Ended::Success | Ended::Skip | Ended::XFail | Ended::Open => Ok(()),
    }
}

fn write_name(row: &Row, text: &mut Vec<u8>) -> Result<(), NoMemory>
    ensures ok { OnOk result (text.new.items ≡ text.old.items ++ name_shown row.now) }
    ensures kept { take (length text.old.items) text.new.items ≡ text.old.items }
{
    text.push(b'{')?;
    write_lane(row, text)?;
    text.extend_from_slice(b"} ")?;
    text.extend_from_slice(row.id.bytes())?;
    Ok(())
}

fn write_front(row: &Row, text: &mut Vec<u8>) -> Result<(), NoMemory>
    ensures ok { OnOk result (text.new.items ≡ text.old.items ++ test_line_front row.now) }
    ensures kept { take (length text.old.items) text.new.items ≡ text.old.items }
{
    write_name(row, text)?;
    write_time(row.nanos, text)
}

fn write_ending(reason: &[u8], ended: Ended, text: &mut Vec<u8>) -> Result<(), NoMemory>
    ensures ok { OnOk result (text.new.items ≡ text.old.items ++ ending_shown reason.now ended) }
    ensures kept { take (length text.old.items) text.new.items ≡ text.old.items }
{
    text.extend_from_slice(b" ... ")?;
    text.extend_from_slice(word_of(ended))?;
    write_reason(reason, text)?;
    text.push(b'\n')?;
    Ok(())
}

fn write_rest(reason: &[u8], row: &Row, text: &mut Vec<u8>) -> Result<(), NoMemory>
    ensures ok { OnOk result (text.new.items ≡ text.old.items ++ line_rest reason.now row.now) }
    ensures kept { take (length text.old.items) text.new.items ≡ text.old.items }
{
    write_ending(reason, row.ended, text)?;
    write_below(row, text)
}

fn write_test(row: &Row, text: &mut Vec<u8>) -> Result<(), NoMemory>
    ensures ok { OnOk result (text.new.items ≡ text.old.items ++ test_line row.now.reason row.now) }
    ensures kept { take (length text.old.items) text.new.items ≡ text.old.items }
{
    write_front(row, text)?;
    write_rest(row.reason.bytes(), row, text)
}

// What a report says of a test that fails.
fn write_failure(row: &Row, text: &mut Vec<u8>) -> Result<(), NoMemory>
    ensures ok { OnOk result (text.new.items ≡ text.old.items ++ failure_of row.now) }
    ensures kept { take (length text.old.items) text.new.items ≡ text.old.items }
{
    for part in failure_parts(row) {
        text.extend_from_slice(part)?;
    }
    Ok(())
}

fn write_block(row: &Row, text: &mut Vec<u8>) -> Result<(), NoMemory>
    ensures ok { OnOk result (text.new.items ≡ text.old.items ++ failure_block row.now) }
    ensures kept { take (length text.old.items) text.new.items ≡ text.old.items }
{
    if row.ended.fails() {
        write_failure(row, text)
    } else {
        Ok(())
    }
}

fn write_mark(column: u32, row: &Row, text: &mut Vec<u8>) -> Result<(), NoMemory>
    ensures ok { OnOk result (text.new.items ≡ text.old.items ++ mark_in_line column row.now) }
    ensures kept { take (length text.old.items) text.new.items ≡ text.old.items }
{
    text.extend_from_slice(mark_of(row.ended))?;
    if column == 69 {
        text.push(b'\n')?;
    }
    Ok(())
}

fn write_live(kind: Live, column: u32, row: &Row, text: &mut Vec<u8>) -> Result<(), NoMemory>
    ensures ok { OnOk result (text.new.items ≡ text.old.items ++ live_line kind column row.now) }
    ensures kept { take (length text.old.items) text.new.items ≡ text.old.items }
{
    match kind {
        Live::Nothing => Ok(()),
        Live::Tests => write_test(row, text),
        Live::Failures => write_block(row, text),
        Live::Dots => write_mark(column, row, text),
    }
}

/// Appends what is printed of the row, of this kind, where so many marks stand in the line.
pub fn live_line(kind: Live, column: u32, row: &Row, out: &mut Vec<u8>) -> Result<(), NoMemory>
    ensures ok { OnOk result (out.new.items ≡ out.old.items ++ live_line kind column row.now) }
    ensures err { OnErr result (out.new.items ≡ out.old.items) }
{
    let before = out.len();
    let done = write_live(kind, column, row, out);
    if done.is_err() {
        out.truncate(before);
    }
    done
}

/// How many marks stand in the line behind one more.
pub(crate) fn next_column(column: u32) -> u32
    ensures { (before : ℕ) → column ≡ before % marks_a_line → result ≡ (before + 1) % marks_a_line }
{
    if column < 69 { column + 1 } else { 0 }
}
