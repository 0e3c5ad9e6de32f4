//! Checksums of parts of 10,000 bytes of noise.

ghost use Rattle.std.specs.Prelude.{◌≡◌, ◌≤◌, ◌*◌, length, drop, IfOk, IfSome};
ghost use Rattle.crc_parts.specs.Prefixes.{HasPrefixes};

use crate::fields::number_in;
use crate::told::{put_line, put_number};
use crc_parts::{Prefixes, part_crc};
use std::alloc::Global;
use sub_number::{NoMemory, crc_of, register_after};

fn noise(alloc: Global) -> Option<Vec<u8>>
    ensures { IfSome result (λ bytes. length bytes.items ≡ 10000) }
{
    let mut bytes = vec![in alloc; 0u8; 10_000].ok()?;
    let mut state = 12_345u32;
    for byte in bytes.iter_mut() {
        state = state.wrapping_mul(1_664_525).wrapping_add(1_013_904_223);
        *byte = (state >> 24) as u8;
    }
    Some(bytes)
}

/// Answers the row, if its table is one of checksums.
pub fn answer(alloc: Global, table: &str, words: &str, said: &mut Vec<u8>) -> Option<()> {
    let bytes = noise(alloc)?;
    match table {
        "part_crc" => answer_part(words, &bytes, said),
        "prefixes" => answer_prefixes(alloc, words, &bytes, said),
        _ => None,
    }
}

// The checksum of the part, by the registers in front of it and behind it.
fn answer_part(words: &str, bytes: &[u8], said: &mut Vec<u8>) -> Option<()> {
    let from = number_in(words, "from=")?;
    let to = number_in(words, "to=")?;
    let size = to.checked_sub(from)?;
    if size >= 1 << 24 {
        return None;
    }
    let front = register_after(u32::MAX, bytes.split_at_checked(from as usize)?.0);
    let whole = register_after(u32::MAX, bytes.split_at_checked(to as usize)?.0);
    put_line(&part_crc(front, whole, size as usize).to_be_bytes(), said)
}

// The registers along the bytes, of which those of so many blocks of 64 are let go.
fn prefixes_of(alloc: Global, bytes: &[u8], blocks: usize) -> Result<Prefixes, NoMemory>
    requires { length bytes.now ≤ 5373952 }
    ensures { IfOk result (λ prefixes. HasPrefixes prefixes (drop (64 * blocks) bytes.now)) }
{
    let mut prefixes = Prefixes::new(alloc)?;
    prefixes.feed(bytes);
    prefixes.let_go(blocks);
    Ok(prefixes)
}

fn agrees(prefixes: &Prefixes, bytes: &[u8], from: usize, size: usize) -> bool
    requires { HasPrefixes prefixes.now bytes.now }
{
    let to = from.saturating_add(size);
    to <= bytes.len() && prefixes.crc_between(bytes, from, to) == crc_of(&bytes[from..to])
}

// How many of so many parts of this size have the checksum of their bytes. Each begins a place behind the one before.
fn count_agreeing(prefixes: &Prefixes, bytes: &[u8], from: usize, size: usize, parts: usize) -> u32
    requires { HasPrefixes prefixes.now bytes.now }
{
    let mut count: u32 = 0;
    for place in from..from.saturating_add(parts) {
        if agrees(prefixes, bytes, place, size) {
            count = count.saturating_add(1);
        }
    }
    count
}

fn answer_prefixes(alloc: Global, words: &str, bytes: &[u8], said: &mut Vec<u8>) -> Option<()>
    requires { length bytes.now ≤ 5373952 }
{
    let blocks = number_in(words, "let_go=")? as usize;
    let from = number_in(words, "from=")? as usize;
    let size = number_in(words, "size=")? as usize;
    let parts = number_in(words, "parts=")? as usize;
    if 64 * blocks > bytes.len() {
        return None;
    }
    let (_, left) = bytes.split_at(64 * blocks);
    let prefixes = prefixes_of(alloc, bytes, blocks).ok()?;
    let count = count_agreeing(&prefixes, left, from, size, parts);
    put_number(
        prefixes.count() as u128,
        b" bytes, parts that agree: ",
        said,
    )?;
    put_number(u128::from(count), b"\n", said)
}
