//! Words of a command line, and instants.

use crate::told::{put_line, put_value};
use command_words::{Item, Kind, OptionTable, read_items};
use instants::{instant_of, put_instant};
use row_book::{bytes_of, put_all};
use std::alloc::Global;

// A command with one option of each kind.
struct TwoOptions;

impl OptionTable for TwoOptions {
    ghost use Rattle.std.specs.Prelude.{◌≡◌, Some, None, codes, if◌then◌else◌};
    ghost use Rattle.std.specs.Str.{bytes_eq};
    ghost use Rattle.command_words.specs.declared.table.Kind.TheVariants.{Flag as AFlag, Valued as AValued};

    ghost kinds = { λ table name. if bytes_eq name (codes "--times") then Some AFlag else (if bytes_eq name (codes "--with-tag") then Some AValued else None) };

    fn kind(&self, name: &str) -> Option<Kind> {
        if name == "--times" {
            return Some(Kind::Flag);
        }
        if name == "--with-tag" {
            return Some(Kind::Valued);
        }
        None
    }
}

fn push_words(alloc: Global, lines: &[&str], words: &mut Vec<String>) -> Option<()> {
    for line in lines {
        words.push(line.to_string(alloc).ok()?).ok()?;
    }
    Some(())
}

fn put_items(alloc: Global, items: &[Item<'_>], said: &mut Vec<u8>) -> Option<()> {
    for item in items {
        put_value(alloc, item, said)?;
    }
    Some(())
}

/// Answers what each word is, or that they are refused.
pub fn answer_words(alloc: Global, lines: &[&str], said: &mut Vec<u8>) -> Option<()> {
    let mut words = Vec::new(alloc);
    push_words(alloc, lines, &mut words)?;
    match read_items(alloc, &TwoOptions, &words).ok()? {
        Some(items) => put_items(alloc, &items, said),
        None => put_line(b"refused", said),
    }
}

/// Answers the instant that the text tells.
pub fn answer_instant(alloc: Global, text: &str, said: &mut Vec<u8>) -> Option<()> {
    let text = bytes_of(alloc, text)?;
    put_value(alloc, &instant_of(&text), said)
}

/// Answers the text of so many nanoseconds, behind what was there.
pub fn answer_printed(nanos: &str, said: &mut Vec<u8>) -> Option<()> {
    put_all(&[b"at "], said)?;
    put_instant(nanos.parse().ok()?, said).ok()?;
    put_line(b"", said)
}
