//! Directives of test lines.

ghost use Rattle.std.specs.Prelude.{◌≡◌, ◌≤◌, length};
ghost use Rattle.tap_bridge.specs.Grammar as grammar;

use crate::blanks::{begins_blank, bytes_behind, trim, trim_start};
use memchr::memchr;

/// What a test line says of its test behind a `#`.
#[derive(Clone, Copy, Debug, PartialEq, Eq)]
pub(crate) enum Directive {
    /// The test did not run.
    Skip,
    /// The test is expected to fail.
    Todo,
}

/// Whether the bytes begin with the word, in letters of any case.
pub(crate) fn begins_in_any_case(bytes: &[u8], word: &[u8]) -> bool
    ensures { result ≡ grammar.begins_in_any_case word.now bytes.now }
{
    bytes.len() >= word.len() && bytes[..word.len()].eq_ignore_ascii_case(word)
}

fn directive_word(bytes: &[u8]) -> Option<Directive>
    ensures { result ≡ grammar.directive_word bytes.now }
{
    if begins_in_any_case(bytes, b"skip") {
        Some(Directive::Skip)
    } else if begins_in_any_case(bytes, b"todo") {
        Some(Directive::Todo)
    } else {
        None
    }
}

/// The directive that the bytes begin with, where they do.
pub(crate) fn directive_at(bytes: &[u8]) -> Option<Directive>
    ensures { result ≡ grammar.directive_at bytes.now }
{
    if bytes.starts_with(b" #") && begins_blank(bytes_behind(bytes, 2)) {
        directive_word(trim_start(bytes_behind(bytes, 2)))
    } else {
        None
    }
}

/// How many bytes stand in front of the first directive, or all of them where there is none.
pub(crate) fn directive_place(bytes: &[u8]) -> usize
    ensures place { result ≡ grammar.directive_place bytes.now }
    ensures within { result ≤ length bytes.now }
{
    let mut from = 0;
    while let Some(ahead) = memchr(b'#', &bytes[from..]) {
        let place = from + ahead;
        if place > 0 && directive_at(&bytes[place - 1..]).is_some() {
            return place - 1;
        }
        from = place + 1;
    }
    bytes.len()
}

/// The reason behind the directive that the bytes begin with, where they begin with one.
pub(crate) fn reason_behind(directive: Option<Directive>, bytes: &[u8]) -> &[u8]
    ensures { result.now ≡ grammar.reason_behind directive bytes.now }
{
    match directive {
        Some(_) => trim(bytes_behind(trim_start(bytes_behind(bytes, 2)), 4)),
        None => b"",
    }
}
