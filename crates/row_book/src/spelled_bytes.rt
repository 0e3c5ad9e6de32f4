//! The bytes that a text of a book spells.
//!
//! Most stand for themselves. `\n` and `\r` are a newline and a return, `\x` and two digits are the byte of that number,
//! `\\` and `\*` are these marks themselves, and `\e` is no byte. `*` and a number repeat the byte before, so that it stands
//! there so many times.

ghost use Rattle.std.specs.Prelude.{◌<◌, IfSome};

use std::alloc::Global;
use std::str;

fn digit(letter: u8) -> Option<u8>
    ensures { IfSome result (λ value. value < 16) }
{
    match letter {
        b'0'..=b'9' => Some(letter - b'0'),
        b'a'..=b'f' => Some(letter - b'a' + 10),
        _ => None,
    }
}

fn put_number(high: u8, low: u8, out: &mut Vec<u8>) -> Option<()> {
    let number = digit(high)? * 16 + digit(low)?;
    out.push(number).ok()
}

fn put_letter(letter: u8, out: &mut Vec<u8>) -> Option<()> {
    match letter {
        b'n' => out.push(b'\n').ok(),
        b'r' => out.push(b'\r').ok(),
        b'e' => Some(()),
        b'\\' | b'*' => out.push(letter).ok(),
        _ => None,
    }
}

// What stands behind a backslash. This and the next two answer what stands behind that.
fn put_escaped<'t>(rest: &'t [u8], out: &mut Vec<u8>) -> Option<&'t [u8]> {
    match rest {
        [b'x', high, low, behind @ ..] => {
            put_number(*high, *low, out)?;
            Some(behind)
        }
        [letter, behind @ ..] => {
            put_letter(*letter, out)?;
            Some(behind)
        }
        [] => None,
    }
}

fn push_more(byte: u8, more: u32, out: &mut Vec<u8>) -> Option<()> {
    for _ in 0..more {
        out.push(byte).ok()?;
    }
    Some(())
}

// The digits that stand first, and what stands behind them.
fn digits_first(rest: &[u8]) -> Option<(&[u8], &[u8])> {
    let end = rest.iter().position(|byte| !matches!(*byte, b'0'..=b'9'));
    rest.split_at_checked(end.unwrap_or(rest.len()))
}

// The number that stands behind a star.
fn put_again<'t>(rest: &'t [u8], out: &mut Vec<u8>) -> Option<&'t [u8]> {
    let (digits, behind) = digits_first(rest)?;
    let times: u32 = str::from_utf8(digits).ok()?.parse().ok()?;
    let last = *out.last()?;
    push_more(last, times.checked_sub(1)?, out)?;
    Some(behind)
}

fn put_next<'t>(rest: &'t [u8], out: &mut Vec<u8>) -> Option<&'t [u8]> {
    match rest {
        [b'\\', behind @ ..] => put_escaped(behind, out),
        [b'*', behind @ ..] => put_again(behind, out),
        [byte, behind @ ..] => {
            out.push(*byte).ok()?;
            Some(behind)
        }
        [] => Some(rest),
    }
}

/// Appends the bytes that the text spells. None where it spells none, or for want of memory.
pub fn put_spelled(text: &str, out: &mut Vec<u8>) -> Option<()> {
    let mut rest = text.as_bytes();
    for _ in 0..text.len() {
        rest = put_next(rest, out)?;
    }
    Some(())
}

/// The bytes that the text spells. None where it spells none, or for want of memory.
pub fn bytes_of(alloc: Global, text: &str) -> Option<Vec<u8>> {
    let mut bytes = Vec::new(alloc);
    put_spelled(text, &mut bytes)?;
    Some(bytes)
}
