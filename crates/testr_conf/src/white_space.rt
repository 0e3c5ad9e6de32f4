//! White space, which is spaces, tabs, carriage returns, vertical tabs and form feeds, and the words between it.

ghost use Rattle.std.specs.Prelude.{◌≡◌, ◌≤◌, ◌<◌, [], ◌∷◌, ◌++◌, length, IfOk, OnOk, MatchOption};
ghost use Rattle.std.specs.List.{position_or_len, filter};
ghost use Rattle.sub_number.specs.Texts.{IsShortText};
ghost use Rattle.sub_number.specs.Lines.{has_bytes};
ghost use Rattle.testr_conf.specs.White.{is_gap, front_trimmed, end_trimmed, trimmed, words_of};

use bstr::ByteSlice;
use packet_codec::Tags;
use std::alloc::Global;
use sub_number::{NoMemory, Text, TextFault};

fn is_gap(byte: u8) -> bool
    ensures { result ≡ is_gap byte }
{
    matches!(byte, b' ' | b'\t' | b'\r' | 0x0b | 0x0c | b'\n')
}

pub(crate) fn trim_front(bytes: &[u8]) -> &[u8]
    ensures { result.now ≡ front_trimmed bytes.now }
{
    let mut rest = bytes;
    while let [first, after @ ..] = rest {
        if !is_gap(*first) {
            return rest;
        }
        rest = after;
    }
    rest
}

fn trim_end(bytes: &[u8]) -> &[u8]
    ensures { result.now ≡ end_trimmed bytes.now }
{
    let mut rest = bytes;
    while let [before @ .., last] = rest {
        if !is_gap(*last) {
            return rest;
        }
        rest = before;
    }
    rest
}

/// The bytes without the white space and the newlines at both ends. White space is spaces, tabs, carriage returns, vertical
/// tabs and form feeds.
pub fn trim(bytes: &[u8]) -> &[u8]
    ensures value { result.now ≡ trimmed bytes.now }
    ensures short { length result.now ≤ length bytes.now }
{
    trim_end(trim_front(bytes))
}

fn find_gap(text: &[u8]) -> Option<usize>
    ensures { MatchOption result (position_or_len is_gap text.now ≡ length text.now) (λ at. (at ≡ position_or_len is_gap text.now) × (at < length text.now)) }
{
    text.find_byteset(b" \t\r\x0b\x0c\n")
}

// Adds the word, if it is one.
fn push_word(alloc: Global, word: &[u8], words: &mut Tags) -> Result<(), NoMemory>
    requires { IsShortText word.now }
    ensures { OnOk result (words.new ≡ words.old ++ filter has_bytes (word.now ∷ [])) }
{
    if word.is_empty() {
        return Ok(());
    }
    let word = match Text::new(alloc, word) {
        Ok(word) => word,
        Err(TextFault::NotText) => unreachable!(),
        Err(TextFault::NoMemory) => return Err(NoMemory),
    };
    match words.push(word) {
        Ok(()) => Ok(()),
        Err(_) => Err(NoMemory),
    }
}

/// The words of a text between white space and newlines, in order.
pub fn read_words(alloc: Global, text: &[u8]) -> Result<Tags, NoMemory>
    requires { IsShortText text.now }
    ensures { IfOk result (λ words. words ≡ words_of text.now) }
{
    let mut words = Tags::new(alloc);
    let mut rest = text;
    while let Some(at) = find_gap(rest) {
        push_word(alloc, &rest[..at], &mut words)?;
        rest = &rest[at + 1..];
    }
    push_word(alloc, rest, &mut words)?;
    Ok(words)
}
