//! Options of one letter, as the long ones that they stand for.

ghost use Rattle.std.specs.Prelude.{◌≡◌, IfOk};
ghost use Rattle.command_words.specs.Items.{texts};
ghost use Rattle.filter_cli.specs.Letters as letters;

use crate::tool::is_value_option;
use std::alloc::Global;
use sub_number::NoMemory;

/// The words with long options in place of those of one letter. Values stay as they are.
pub(crate) fn spelled_out_words(alloc: Global, words: &[String]) -> Result<Vec<String>, NoMemory>
    ensures { IfOk result (λ longer. texts longer.items ≡ letters.all_spelled_out (texts words.now)) }
{
    let mut longer = Vec::new(alloc);
    let mut value = false;
    for word in words {
        let next = next_word(alloc, value, word.as_str())?;
        value = !value && is_value_option(next.as_str());
        longer.push(next)?;
    }
    Ok(longer)
}

// The word that stands for this one, which may be a value.
fn next_word(alloc: Global, value: bool, word: &str) -> Result<String, NoMemory>
    ensures { IfOk result (λ next. next.bytes.items ≡ letters.spelled_out_next value word.now) }
{
    if value {
        return Ok(String::from_str(alloc, word)?);
    }
    long_word(alloc, word)
}

// The word that stands for this one, which is no value.
fn long_word(alloc: Global, word: &str) -> Result<String, NoMemory>
    ensures { IfOk result (λ long. long.bytes.items ≡ letters.spelled_out word.now) }
{
    if word == "-s" {
        return Ok(String::from_str(alloc, "--success")?);
    }
    if word == "-f" {
        return Ok(String::from_str(alloc, "--no-failure")?);
    }
    if word == "-e" {
        return Ok(String::from_str(alloc, "--no-error")?);
    }
    if word == "-F" {
        return Ok(String::from_str(alloc, "--only-genuine-failures")?);
    }
    if word == "-m" {
        return Ok(String::from_str(alloc, "--with-id")?);
    }
    match word.strip_prefix("-m") {
        Some(pattern) => joined(alloc, pattern),
        None => Ok(String::from_str(alloc, word)?),
    }
}

// The option with its value behind an equals sign.
fn joined(alloc: Global, pattern: &str) -> Result<String, NoMemory>
    ensures { IfOk result (λ long. long.bytes.items ≡ letters.with_pattern pattern.now) }
{
    let mut long = String::from_str(alloc, "--with-id=")?;
    long.push_str(pattern)?;
    Ok(long)
}
