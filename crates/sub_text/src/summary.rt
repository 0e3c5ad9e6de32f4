//! The summary of a run.

ghost use Rattle.std.specs.Prelude.{◌≡◌, ◌++◌, take, length, OnOk, OnErr};
ghost use Rattle.sub_text.specs.Texts.{took, verdict_word, named_count, tests_and_time_line, second_line, summary_lines, summary_text};

use crate::seconds::seconds_text;
use itoa::Buffer;
use outcome_fold::{Counts, Rows};
use packet_codec::Tags;
use sub_number::NoMemory;

// The end of the first line: how long the tests took, where that is known.
fn write_took(nanos: Option<u128>, text: &mut Vec<u8>) -> Result<(), NoMemory>
    ensures ok { OnOk result (text.new.items ≡ text.old.items ++ took nanos) }
    ensures kept { take (length text.old.items) text.new.items ≡ text.old.items }
{
    let Some(nanos) = nanos else {
        return Ok(());
    };
    text.extend_from_slice(b" in ")?;
    seconds_text(nanos, text)?;
    text.push(b's')?;
    Ok(())
}

fn verdict(failed: u64) -> &'static [u8]
    ensures { result.now ≡ verdict_word failed }
{
    if failed == 0 { b"PASSED" } else { b"FAILED" }
}

// How many of this name there are, where there are any.
fn write_counted(name: &[u8], count: u64, text: &mut Vec<u8>) -> Result<(), NoMemory>
    ensures ok { OnOk result (text.new.items ≡ text.old.items ++ named_count name.now count) }
    ensures kept { take (length text.old.items) text.new.items ≡ text.old.items }
{
    if count != 0 {
        text.extend_from_slice(name)?;
        text.extend_from_slice(Buffer::new().format(count).as_bytes())?;
    }
    Ok(())
}

fn write_first_line(counts: Counts, text: &mut Vec<u8>) -> Result<(), NoMemory>
    ensures ok { OnOk result (text.new.items ≡ text.old.items ++ tests_and_time_line counts) }
    ensures kept { take (length text.old.items) text.new.items ≡ text.old.items }
{
    text.extend_from_slice(b"Ran ")?;
    text.extend_from_slice(Buffer::new().format(counts.total).as_bytes())?;
    text.extend_from_slice(b" tests")?;
    write_took(counts.nanos, text)?;
    text.push(b'\n')?;
    Ok(())
}

fn write_second_line(counts: Counts, run: u32, text: &mut Vec<u8>) -> Result<(), NoMemory>
    ensures ok { OnOk result (text.new.items ≡ text.old.items ++ second_line counts run) }
    ensures kept { take (length text.old.items) text.new.items ≡ text.old.items }
{
    text.extend_from_slice(verdict(counts.failed))?;
    text.extend_from_slice(b" (id=")?;
    text.extend_from_slice(Buffer::new().format(run).as_bytes())?;
    write_counted(b", failures=", counts.failed, text)?;
    write_counted(b", skips=", counts.skipped, text)?;
    text.extend_from_slice(b")\n")?;
    Ok(())
}

/// Appends the summary of the run of this number: how many tests ran and how long they took, and whether they passed.
/// A row that has one of the tags and does not fail is left out.
pub fn summary_text(
    rows: &Rows,
    run: u32,
    filter_tags: &Tags,
    out: &mut Vec<u8>,
) -> Result<(), NoMemory>
    ensures ok { OnOk result (out.new.items ≡ out.old.items ++ summary_text rows.now run filter_tags.now) }
    ensures err { OnErr result (out.new.items ≡ out.old.items) }
{
    summary_from(rows.counts(filter_tags), run, out)
}

/// The same, by how many rows there are.
pub fn summary_from(counts: Counts, run: u32, out: &mut Vec<u8>) -> Result<(), NoMemory>
    ensures ok { OnOk result (out.new.items ≡ out.old.items ++ summary_lines counts run) }
    ensures err { OnErr result (out.new.items ≡ out.old.items) }
{
    let before = out.len();
    let done = write_summary(counts, run, out);
    if done.is_err() {
        out.truncate(before);
    }
    done
}

// Both lines. What stands in the text stays, also where there is not enough memory. So of each function that is called here.
fn write_summary(counts: Counts, run: u32, text: &mut Vec<u8>) -> Result<(), NoMemory>
    ensures ok { OnOk result (text.new.items ≡ text.old.items ++ summary_lines counts run) }
    ensures kept { take (length text.old.items) text.new.items ≡ text.old.items }
{
    write_first_line(counts, text)?;
    write_second_line(counts, run, text)
}
