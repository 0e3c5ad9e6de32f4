//! The counts of a stream.

ghost use Rattle.std.specs.Prelude.{◌≡◌, ◌++◌, take, length, OnOk, OnErr};
ghost use Rattle.std.specs.List.{flat_map};
ghost use Rattle.sub_text.specs.Listed.{in_five_places, count_line, tag_behind, tags_joined, tags_line, counts_lines, stats_lines, stats_of};

use itoa::Buffer;
use outcome_fold::{Counts, Rows};
use packet_codec::Tags;
use sub_number::{NoMemory, Text};

// A number right in five places.
fn write_number(number: u64, text: &mut Vec<u8>) -> Result<(), NoMemory>
    ensures ok { OnOk result (text.new.items ≡ text.old.items ++ in_five_places number) }
    ensures kept { take (length text.old.items) text.new.items ≡ text.old.items }
{
    let mut buffer = Buffer::new();
    let digits = buffer.format(number).as_bytes();
    let blanks = 5usize.saturating_sub(digits.len());
    text.extend_from_slice(&b"     "[..blanks])?;
    text.extend_from_slice(digits)?;
    Ok(())
}

// What is counted, its number right in five places, and a newline.
fn write_count(label: &[u8], number: u64, text: &mut Vec<u8>) -> Result<(), NoMemory>
    ensures ok { OnOk result (text.new.items ≡ text.old.items ++ count_line label.now number) }
    ensures kept { take (length text.old.items) text.new.items ≡ text.old.items }
{
    text.extend_from_slice(label)?;
    write_number(number, text)?;
    text.push(b'\n')?;
    Ok(())
}

#[tactic(auto, unfolding(crate::specs::Listed::counts_lines))]
fn write_counts(counts: Counts, text: &mut Vec<u8>) -> Result<(), NoMemory>
    ensures ok { OnOk result (text.new.items ≡ text.old.items ++ counts_lines counts) }
    ensures kept { take (length text.old.items) text.new.items ≡ text.old.items }
{
    write_count(b"Total tests:   ", counts.total, text)?;
    write_count(b"Passed tests:  ", counts.passed, text)?;
    write_count(b"Failed tests:  ", counts.failed, text)?;
    write_count(b"Skipped tests: ", counts.skipped, text)?;
    Ok(())
}

// The tags behind the first one, each behind a comma and a space.
fn write_behind(tags: &[Text], text: &mut Vec<u8>) -> Result<(), NoMemory>
    ensures ok { OnOk result (text.new.items ≡ text.old.items ++ flat_map tag_behind tags.now) }
    ensures kept { take (length text.old.items) text.new.items ≡ text.old.items }
{
    for tag in tags {
        text.extend_from_slice(b", ")?;
        text.extend_from_slice(tag.bytes())?;
    }
    Ok(())
}

// The tags with a comma and a space between them.
fn write_joined(tags: &[Text], text: &mut Vec<u8>) -> Result<(), NoMemory>
    ensures ok { OnOk result (text.new.items ≡ text.old.items ++ tags_joined tags.now) }
    ensures kept { take (length text.old.items) text.new.items ≡ text.old.items }
{
    if let Some((first, others)) = tags.split_first() {
        text.extend_from_slice(first.bytes())?;
        write_behind(others, text)?;
    }
    Ok(())
}

#[tactic(auto, unfolding(crate::specs::Listed::tags_line))]
fn write_tags(tags: &[Text], text: &mut Vec<u8>) -> Result<(), NoMemory>
    ensures ok { OnOk result (text.new.items ≡ text.old.items ++ tags_line tags.now) }
    ensures kept { take (length text.old.items) text.new.items ≡ text.old.items }
{
    text.extend_from_slice(b"Seen tags: ")?;
    write_joined(tags, text)?;
    text.push(b'\n')?;
    Ok(())
}

// The counts, and the tags behind them. What stands in the text stays, also where there is not enough memory. So of each
// function that is called here.
fn write_stats(counts: Counts, tags: &[Text], text: &mut Vec<u8>) -> Result<(), NoMemory>
    ensures ok { OnOk result (text.new.items ≡ text.old.items ++ stats_lines counts tags.now) }
    ensures kept { take (length text.old.items) text.new.items ≡ text.old.items }
{
    write_counts(counts, text)?;
    write_tags(tags, text)
}

/// Appends these counts and these tags as `stats_text` does.
pub fn counts_text(counts: Counts, tags: &Tags, out: &mut Vec<u8>) -> Result<(), NoMemory>
    ensures ok { OnOk result (out.new.items ≡ out.old.items ++ stats_lines counts tags.now) }
    ensures err { OnErr result (out.new.items ≡ out.old.items) }
{
    let before = out.len();
    let done = write_stats(counts, tags.list(), out);
    if done.is_err() {
        out.truncate(before);
    }
    done
}

/// Appends how many tests there are, how many of them passed, failed and were skipped, and the tags that were seen, in
/// the order of their bytes. Tests that are only known to exist are left out.
pub fn stats_text(rows: &Rows, out: &mut Vec<u8>) -> Result<(), NoMemory>
    ensures ok { OnOk result (out.new.items ≡ out.old.items ++ stats_of rows.now) }
    ensures err { OnErr result (out.new.items ≡ out.old.items) }
{
    let alloc = *out.allocator();
    let counts = rows.counts(&Tags::new(alloc));
    let tags = rows.seen_tags(alloc)?;
    counts_text(counts, &tags, out)
}
