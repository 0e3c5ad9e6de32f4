//! The words of a row, and fields among them. A field is a word that begins with its name, as `pieces=` begins one.

ghost use Rattle.std.specs.Prelude.{◌<◌, IfSome};

use row_book::bytes_of;
use std::alloc::Global;
use sub_number::Text;

/// The first word, and what stands behind it.
pub fn first_word(line: &str) -> (&str, &str) {
    match line.split_once(' ') {
        Some(parts) => parts,
        None => (line, ""),
    }
}

/// What the field of this name says, where there is one.
pub fn field<'l>(words: &'l str, name: &str) -> Option<&'l str> {
    for word in words.split(' ') {
        if let Some(said) = word.strip_prefix(name) {
            return Some(said);
        }
    }
    None
}

/// The number that the field of this name says, where there is one.
pub fn number_in(words: &str, name: &str) -> Option<u32> {
    field(words, name)?.parse().ok()
}

/// The number of a lane.
pub fn lane_of(word: &str) -> Option<u32>
    ensures { IfSome result (λ lane. lane < 64) }
{
    let lane: u32 = word.parse().ok()?;
    if lane < 64 { Some(lane) } else { None }
}

/// The text that the word spells.
pub fn text_of(alloc: Global, word: &str) -> Option<Text> {
    let bytes = bytes_of(alloc, word)?;
    Text::new(alloc, &bytes).ok()
}
