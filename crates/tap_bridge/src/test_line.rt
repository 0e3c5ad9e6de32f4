//! Test lines.

ghost use Rattle.std.specs.Prelude.{◌≡◌, ◌≤◌, length, IfSome};
ghost use Rattle.std.specs.Option.{option_map};
ghost use Rattle.tap_bridge.specs.Grammar as grammar;
ghost use Rattle.tap_bridge.specs.Read.{test_meant};

use crate::blanks::{begins_blank, bytes_behind, split_word, trim, trim_start};
use crate::directive::{Directive, directive_at, directive_place, reason_behind};
use crate::number::{is_digits, number_of};

/// What a test line says.
#[derive(Clone, Copy)]
pub(crate) struct TestLine<'a> {
    /// It begins with `ok`, and not with `not ok`.
    pub(crate) passed: bool,
    /// The test's own number, from 1 to 1,000,000.
    pub(crate) number: Option<u32>,
    /// What it says of the test, which may be empty.
    pub(crate) description: &'a [u8],
    /// Its directive.
    pub(crate) directive: Option<Directive>,
    /// The reason behind its directive, which may be empty.
    pub(crate) reason: &'a [u8],
}

// The test line that says this first, with this behind it.
fn test_with(passed: bool, number: Option<u32>, rest: &[u8]) -> TestLine<'_>
    ensures meant { test_meant result ≡ grammar.test_with passed number rest.now }
    ensures within { length result.description.now ≤ length rest.now }
{
    let (description, from) = rest.split_at(directive_place(rest));
    let directive = directive_at(from);
    TestLine {
        passed,
        number,
        description: trim(description),
        directive,
        reason: reason_behind(directive, from),
    }
}

// The test line with this behind its first words.
fn test_behind(passed: bool, rest: &[u8]) -> Option<TestLine<'_>>
    ensures meant { option_map test_meant result ≡ grammar.test_behind passed rest.now }
    ensures within { IfSome result (λ test. length test.description.now ≤ length rest.now) }
{
    let (word, behind_number) = split_word(trim_start(rest));
    if word.is_empty() || !is_digits(word) {
        return Some(test_with(passed, None, rest));
    }
    let number = number_of(word)?;
    if number >= 1 {
        Some(test_with(passed, Some(number), behind_number))
    } else {
        None
    }
}

// Whether the line begins with the word, which ends there or goes on with a blank.
fn begins_with_word(line: &[u8], word: &[u8]) -> bool
    ensures { result ≡ grammar.begins_with_word word.now line.now }
{
    line.starts_with(word)
        && (begins_blank(bytes_behind(line, word.len())) || line.len() == word.len())
}

/// The test line that the line is. `None` comes exactly where it is none.
pub(crate) fn test_of(line: &[u8]) -> Option<TestLine<'_>>
    ensures meant { option_map test_meant result ≡ grammar.test_line_of line.now }
    ensures within { IfSome result (λ test. length test.description.now ≤ length line.now) }
{
    if begins_with_word(line, b"ok") {
        test_behind(true, bytes_behind(line, 2))
    } else if begins_with_word(line, b"not ok") {
        test_behind(false, bytes_behind(line, 6))
    } else {
        None
    }
}
