//! Words as texts.

ghost use Rattle.std.specs.Prelude.{◌≡◌, Some, None, IfOk, if◌then◌else◌};
ghost use Rattle.command_words.specs.Items.{is_text};

use std::alloc::Global;
use sub_number::{NoMemory, Text, TextFault};

// Whether a word, which is UTF-8, has no NUL and is short enough for a text.
pub(crate) fn is_word(word: &str) -> bool
    ensures { result ≡ is_text word.now }
{
    !word.as_bytes().contains(&0) && word.len() < 1 << 30
}

/// The word as a text. None comes exactly where it has a NUL or 2^30 bytes and more; `read_items` gives no such word.
pub fn text_of(alloc: Global, word: &str) -> Result<Option<Text>, NoMemory>
    ensures { IfOk result (λ text. text ≡ (if is_text word.now then Some word.now else None)) }
{
    if !is_word(word) {
        return Ok(None);
    }
    match Text::new(alloc, word.as_bytes()) {
        Ok(text) => Ok(Some(text)),
        Err(TextFault::NoMemory) => Err(NoMemory),
        Err(TextFault::NotText) => unreachable!(),
    }
}
