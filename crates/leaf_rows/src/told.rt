//! Values as lines, and calls one behind another.

use crate::fields::first_word;
use row_book::{bytes_of, put_all};
use std::alloc::Global;
use std::fmt::Debug;
use sub_number::Text;

/// Appends a line.
pub fn put_line(line: &[u8], said: &mut Vec<u8>) -> Option<()> {
    put_all(&[line, b"\n"], said)
}

/// Appends a line of the value as Rust writes it, for example `Some(1)`.
pub fn put_value<D: Debug>(alloc: Global, value: &D, said: &mut Vec<u8>) -> Option<()> {
    let text = format!(in alloc; "{value:?}\n").ok()?;
    said.extend_from_slice(text.as_bytes()).ok()
}

/// Appends a line of the texts, with a space between.
pub fn put_texts(texts: &[Text], said: &mut Vec<u8>) -> Option<()> {
    for (place, text) in texts.iter().enumerate() {
        if place > 0 {
            said.push(b' ').ok()?;
        }
        said.extend_from_slice(text.bytes()).ok()?;
    }
    said.push(b'\n').ok()
}

/// What calls are made on.
pub trait Calls {
    /// Makes the call of this name with these words, and appends the lines that it gives. None where there is no such call,
    /// or it cannot be made.
    fn call(&mut self, alloc: Global, name: &str, words: &str, said: &mut Vec<u8>) -> Option<()>;
}

fn make<C: Calls>(alloc: Global, calls: &mut C, line: &str, said: &mut Vec<u8>) -> Option<()> {
    put_all(&[&bytes_of(alloc, line)?, b" -> "], said)?;
    let (name, words) = first_word(line);
    calls.call(alloc, name, words, said)
}

/// Makes the call of each line. Answers each call and what it gives, as in `length a -> Ok(None)`.
pub fn make_all<C: Calls>(
    alloc: Global,
    calls: &mut C,
    lines: &[&str],
    said: &mut Vec<u8>,
) -> Option<()> {
    for line in lines {
        make(alloc, calls, line, said)?;
    }
    Some(())
}
