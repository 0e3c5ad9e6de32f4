//! The report of a run.

ghost use Rattle.std.specs.Prelude.{◌≡◌, ◌++◌, take, length, OnOk, OnErr};
ghost use Rattle.std.specs.List.{filter, flat_map};
ghost use Rattle.outcome_fold.specs.Answers.{row_fails};
ghost use Rattle.sub_text.specs.Texts.{ruler, label, part_bytes, failure_of, report_of};

use crate::summary::summary_text;
use outcome_fold::{Ended, Row, Rows, line_end};
use packet_codec::Tags;
use sub_number::NoMemory;

// The line above the label.
#[tactic(auto, unfolding(crate::specs::Texts::ruler))]
fn double_ruler<'a>() -> &'a [u8]
    ensures { result.now ≡ ruler 61 }
{
    b"======================================================================\n"
}

// The line below the label.
#[tactic(auto, unfolding(crate::specs::Texts::ruler))]
fn single_ruler<'a>() -> &'a [u8]
    ensures { result.now ≡ ruler 45 }
{
    b"----------------------------------------------------------------------\n"
}

// What stands before the id of a test that failed.
fn label<'a>(ended: Ended) -> &'a [u8]
    ensures { result.now ≡ label ended }
{
    match ended {
        Ended::UxSuccess => b"UNEXPECTED SUCCESS",
        Ended::Fail => b"FAIL",
        Ended::Open => b"UNFINISHED",
        Ended::Exists | Ended::Success | Ended::Skip | Ended::XFail => b"",
    }
}

/// What is printed of a row that fails, in parts that stand behind one another. They are its label and its id between
/// two rulers, and its text, with a newline where that is not empty and ends within a line. Each part stands where it
/// stood, so this takes no memory.
pub fn failure_parts(row: &Row) -> [&[u8]; 8]
    ensures { flat_map part_bytes result ≡ failure_of row.now }
{
    [
        double_ruler(),
        label(row.ended),
        b": ",
        row.id.bytes(),
        b"\n",
        single_ruler(),
        row.text.bytes(),
        line_end(row.text.bytes()),
    ]
}

fn write_failure(row: &Row, text: &mut Vec<u8>) -> Result<(), NoMemory>
    ensures ok { OnOk result (text.new.items ≡ text.old.items ++ failure_of row.now) }
    ensures kept { take (length text.old.items) text.new.items ≡ text.old.items }
{
    for part in failure_parts(row) {
        text.extend_from_slice(part)?;
    }
    Ok(())
}

fn write_failures(rows: &[Row], text: &mut Vec<u8>) -> Result<(), NoMemory>
    ensures ok { OnOk result (text.new.items ≡ text.old.items ++ flat_map failure_of (filter row_fails rows.now)) }
    ensures kept { take (length text.old.items) text.new.items ≡ text.old.items }
{
    for row in rows {
        if row.ended.fails() {
            write_failure(row, text)?;
        }
    }
    Ok(())
}

/// Appends the report of the run of this number: each row that fails with its text, in the order of the rows, and then
/// the summary.
pub fn report_text(
    rows: &Rows,
    run: u32,
    filter_tags: &Tags,
    out: &mut Vec<u8>,
) -> Result<(), NoMemory>
    ensures ok { OnOk result (out.new.items ≡ out.old.items ++ report_of rows.now run filter_tags.now) }
    ensures err { OnErr result (out.new.items ≡ out.old.items) }
{
    let before = out.len();
    let done = write_report(rows, run, filter_tags, out);
    if done.is_err() {
        out.truncate(before);
    }
    done
}

// The same. What stands in the text stays, also where there is not enough memory. So of each function that is called here.
fn write_report(
    rows: &Rows,
    run: u32,
    filter_tags: &Tags,
    text: &mut Vec<u8>,
) -> Result<(), NoMemory>
    ensures ok { OnOk result (text.new.items ≡ text.old.items ++ report_of rows.now run filter_tags.now) }
    ensures kept { take (length text.old.items) text.new.items ≡ text.old.items }
{
    write_failures(rows.list(), text)?;
    summary_text(rows, run, filter_tags, text)
}
