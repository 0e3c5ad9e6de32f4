//! Options of one letter, as the long ones that they stand for.

ghost use Rattle.std.specs.Prelude.{◌≡◌, IfOk};
ghost use Rattle.command_words.specs.Items.{texts};
ghost use Rattle.testr_words.specs.Letters as letters;

use command_words::{Kind, OptionTable};
use std::alloc::Global;
use sub_number::NoMemory;

/// The words with long options in place of those of one letter. Values stay as they are.
pub(crate) fn spelled_out_words<T: OptionTable>(
    alloc: Global,
    table: &T,
    words: &[String],
) -> Result<Vec<String>, NoMemory>
    ensures { IfOk result (λ longer. texts longer.items ≡ letters.long_words (T.kinds table.now) (texts words.now)) }
{
    let mut longer = Vec::new(alloc);
    let mut value = false;
    for word in words {
        let word = word.as_str();
        longer.push(String::from_str(alloc, next_word(value, word))?)?;
        value = !value && has_value(table.kind(word));
    }
    Ok(longer)
}

// The word that stands for this one, which may be a value.
fn next_word(value: bool, word: &str) -> &str
    ensures { result.now ≡ letters.next_word value word.now }
{
    if !value && word == "-q" {
        "--quiet"
    } else {
        word
    }
}

// Whether an option of this kind has a value.
fn has_value(kind: Option<Kind>) -> bool
    ensures { result ≡ letters.has_value kind }
{
    match kind {
        Some(Kind::Valued) => true,
        Some(Kind::Flag) | None => false,
    }
}
