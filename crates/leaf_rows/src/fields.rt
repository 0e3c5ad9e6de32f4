//! The words of a row, and lists among them. A field is a word that begins with its name, as `fails=` begins one.

use row_book::bytes_of;
use std::alloc::Global;
use sub_number::{Bytes, IdList, Text};

/// The first word, and what stands behind it.
pub fn first_word(line: &str) -> (&str, &str) {
    match line.split_once(' ') {
        Some(parts) => parts,
        None => (line, ""),
    }
}

/// What the field of this name says, where there is one.
pub fn field<'l>(words: &'l str, name: &str) -> Option<&'l str> {
    for word in words.split(' ') {
        if let Some(said) = word.strip_prefix(name) {
            return Some(said);
        }
    }
    None
}

fn push_numbers(list: &str, numbers: &mut Vec<u64>) -> Option<()> {
    for number in list.split(',') {
        numbers.push(number.parse().ok()?).ok()?;
    }
    Some(())
}

/// The numbers of the calls that are to fail, as `fails=1,2` says. None fails where there is no such field.
pub fn fails_of(alloc: Global, words: &str, name: &str) -> Option<Vec<u64>> {
    let mut numbers = Vec::new(alloc);
    if let Some(list) = field(words, name) {
        push_numbers(list, &mut numbers)?;
    }
    Some(numbers)
}

/// The text that the word spells.
pub fn text_of(alloc: Global, word: &str) -> Option<Text> {
    let bytes = bytes_of(alloc, word)?;
    Text::new(alloc, &bytes).ok()
}

/// The bytes that the word spells, as the crates below own them.
pub fn owned_bytes(alloc: Global, word: &str) -> Option<Bytes> {
    Some(Bytes::from_vec(bytes_of(alloc, word)?))
}

/// The text of the field of this name. None inside where there is no such field.
pub fn text_in(alloc: Global, words: &str, name: &str) -> Option<Option<Text>> {
    match field(words, name) {
        Some(word) => Some(Some(text_of(alloc, word)?)),
        None => Some(None),
    }
}

fn push_ids(alloc: Global, list: &str, mark: char, ids: &mut IdList) -> Option<()> {
    for id in list.split(mark) {
        ids.push(text_of(alloc, id)?).ok()?;
    }
    Some(())
}

/// The ids of a list with these marks between. The empty list has none.
pub fn ids_of(alloc: Global, list: &str, mark: char) -> Option<IdList> {
    let mut ids = IdList::new(alloc);
    if !list.is_empty() {
        push_ids(alloc, list, mark, &mut ids)?;
    }
    Some(ids)
}
