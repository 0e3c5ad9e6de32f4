//! What is printed of last failures.

ghost use Rattle.std.specs.Prelude.{◌≡◌, ◌++◌, take, length, IfOk, OnOk, OnErr};
ghost use Rattle.std.specs.FinMap as map;
ghost use Rattle.std.specs.List.{flat_map};
ghost use Rattle.sub_text.specs.Texts.{failure_of};
ghost use Rattle.last_failures.specs.Last.{failures_in};
ghost use Rattle.last_failures.specs.Texts as spec;

use crate::failures::LastFailures;
use itoa::Buffer;
use outcome_fold::{Ended, Row};
use packet_codec::Tags;
use std::alloc::Global;
use sub_number::{Bytes, IdList, NoMemory, Text};
use sub_text::failure_parts;

/// Appends the block of each id's last failure, in the order of the ids, and how many ids there are. An id that has none has
/// the block of a test that failed without a text.
pub fn last_failures_text(
    alloc: Global,
    ids: &IdList,
    failures: &LastFailures,
    out: &mut Vec<u8>,
) -> Result<(), NoMemory>
    ensures ok { OnOk result (out.new.items ≡ out.old.items ++ spec.failures_text ids.now (failures_in failures.now)) }
    ensures err { OnErr result (out.new.items ≡ out.old.items) }
{
    let before = out.len();
    let done = put_text(alloc, ids.list(), failures, out);
    if done.is_err() {
        out.truncate(before);
    }
    done
}

/// Appends the packets of each id's last failure, in the order of the ids. An id that has none has no packet.
pub fn last_packets_text(
    ids: &IdList,
    failures: &LastFailures,
    out: &mut Vec<u8>,
) -> Result<(), NoMemory>
    ensures { OnOk result (out.new.items ≡ out.old.items ++ spec.packets_text ids.now (failures_in failures.now)) }
{
    for id in ids.list() {
        put_packets(id, failures, out)?;
    }
    Ok(())
}

// The packets of the id's last failure, where it has one.
fn put_packets(id: &Text, failures: &LastFailures, out: &mut Vec<u8>) -> Result<(), NoMemory>
    ensures { OnOk result (out.new.items ≡ out.old.items ++ spec.packets_or_none (map.get (failures_in failures.now) id.now)) }
{
    match failures.get(id) {
        Some(failure) => {
            out.extend_from_slice(failure.packets.bytes())?;
            Ok(())
        }
        None => Ok(()),
    }
}

// Of each function behind this one: what stands in the text stays, also where there is not enough memory.

// The blocks, and how many they are.
fn put_text(
    alloc: Global,
    ids: &[Text],
    failures: &LastFailures,
    text: &mut Vec<u8>,
) -> Result<(), NoMemory>
    ensures ok { OnOk result (text.new.items ≡ text.old.items ++ spec.failures_text ids.now (failures_in failures.now)) }
    ensures kept { take (length text.old.items) text.new.items ≡ text.old.items }
{
    put_blocks(alloc, ids, failures, text)?;
    text.extend_from_slice(b"failures=")?;
    text.extend_from_slice(Buffer::new().format(ids.len()).as_bytes())?;
    text.push(b'\n')?;
    Ok(())
}

// The block of each id.
fn put_blocks(
    alloc: Global,
    ids: &[Text],
    failures: &LastFailures,
    text: &mut Vec<u8>,
) -> Result<(), NoMemory>
    ensures ok { OnOk result (text.new.items ≡ text.old.items ++ flat_map (spec.block_of (failures_in failures.now)) ids.now) }
    ensures kept { take (length text.old.items) text.new.items ≡ text.old.items }
{
    for id in ids {
        put_block(alloc, id, failures, text)?;
    }
    Ok(())
}

// The block of the id.
fn put_block(
    alloc: Global,
    id: &Text,
    failures: &LastFailures,
    text: &mut Vec<u8>,
) -> Result<(), NoMemory>
    ensures ok { OnOk result (text.new.items ≡ text.old.items ++ spec.block_of (failures_in failures.now) id.now) }
    ensures kept { take (length text.old.items) text.new.items ≡ text.old.items }
{
    match failures.get(id) {
        Some(failure) => put_row(&failure.row, text),
        None => put_row(&bare_row(alloc, id)?, text),
    }
}

// The block of the row.
fn put_row(row: &Row, text: &mut Vec<u8>) -> Result<(), NoMemory>
    ensures ok { OnOk result (text.new.items ≡ text.old.items ++ failure_of row.now) }
    ensures kept { take (length text.old.items) text.new.items ≡ text.old.items }
{
    for part in failure_parts(row) {
        text.extend_from_slice(part)?;
    }
    Ok(())
}

// A row of the id that failed without a text.
fn bare_row(alloc: Global, id: &Text) -> Result<Row, NoMemory>
    ensures { IfOk result (λ row. row ≡ spec.bare_row id.now) }
{
    Ok(Row {
        id: id.copy()?,
        route: None,
        ended: Ended::Fail,
        tags: Tags::new(alloc),
        nanos: None,
        text: Bytes::from_vec(Vec::new(alloc)),
        reason: Bytes::from_vec(Vec::new(alloc)),
    })
}
