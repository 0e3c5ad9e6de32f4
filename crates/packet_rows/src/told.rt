//! Values as lines of an answer.

use itoa::Buffer;
use row_book::put_all;
use std::alloc::Global;
use std::fmt::Debug;

/// Appends a line.
pub fn put_line(line: &[u8], said: &mut Vec<u8>) -> Option<()> {
    put_all(&[line, b"\n"], said)
}

// A run of one byte.
fn put_run(run: &[u8], said: &mut Vec<u8>) -> Option<()> {
    if run.len() < 1000 {
        return put_all(&[run], said);
    }
    put_all(&[&run[..1], b"*"], said)?;
    put_number(run.len() as u128, b"", said)
}

/// Appends the bytes. A byte that stands there 1,000 times or more, one behind another, is told once, with a star and the
/// number of times behind it.
pub fn put_short(bytes: &[u8], said: &mut Vec<u8>) -> Option<()> {
    for run in bytes.chunk_by(|byte, next| byte == next) {
        put_run(run, said)?;
    }
    Some(())
}

/// Appends a number, and what stands behind it.
pub fn put_number(number: u128, behind: &[u8], said: &mut Vec<u8>) -> Option<()> {
    let mut digits = Buffer::new();
    put_all(&[digits.format(number).as_bytes(), behind], said)
}

/// Appends a line of the value as Rust writes it, for example `Packet(12)`.
pub fn put_value<D: Debug>(alloc: Global, value: &D, said: &mut Vec<u8>) -> Option<()> {
    let text = format!(in alloc; "{value:?}\n").ok()?;
    said.extend_from_slice(text.as_bytes()).ok()
}
