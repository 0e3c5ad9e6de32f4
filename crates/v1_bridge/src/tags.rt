//! Lines that change tags.

ghost use Rattle.std.specs.Prelude.{◌≡◌, ◌∷◌, [], ◌<◌, ◌≤◌, ◌^◌, length, nat_le, IfOk, OnOk, Some, None, if◌then◌else◌};
ghost use Rattle.std.specs.List.{position_or_len, filter, sum_by};
ghost use Rattle.outcome_fold.specs.Order.{in_byte_order};
ghost use Rattle.sub_number.specs.Lines.{has_bytes};
ghost use Rattle.v1_bridge.specs.TagWords as spec;

use crate::line::bytes_behind;
use crate::name::name_of;
use outcome_fold::TextSet;
use packet_codec::Tags;
use std::alloc::Global;
use sub_number::{NoMemory, Text};

/// The most bytes of the tags of a set.
const MOST_TAG_BYTES: usize = 65_536;

fn is_gap(byte: u8) -> bool
    ensures { result ≡ spec.is_space_or_tab byte }
{
    byte == b' ' || byte == b'\t'
}

// How many bytes stand in front of the first gap.
fn word_size(bytes: &[u8]) -> usize
    ensures count { result ≡ position_or_len spec.is_space_or_tab bytes.now }
    ensures within { result ≤ length bytes.now }
{
    let mut count = 0;
    while count < bytes.len() && !is_gap(bytes[count]) {
        count += 1;
    }
    count
}

// Whether a word takes a tag away.
fn takes_away(word: &[u8]) -> bool
    ensures { result ≡ spec.takes_away word.now }
{
    word.starts_with(b"-") && word.len() > 1
}

// The tag of a word.
fn tag_in(word: &[u8]) -> &[u8]
    ensures tag { result.now ≡ spec.tag_in word.now }
    ensures within { length result.now ≤ length word.now }
{
    if takes_away(word) {
        bytes_behind(word, 1)
    } else {
        word
    }
}

// The set takes a word whose tag is this one.
fn take_tag(set: &mut TextSet, word: &[u8], tag: Text) -> Result<(), NoMemory>
    requires { tag ≡ spec.tag_in word.now }
    ensures { OnOk result (set.new ≡ spec.tags_after_word set.old word.now) }
{
    if takes_away(word) {
        set.remove(&tag);
        return Ok(());
    }
    set.put(tag)?;
    Ok(())
}

// The set takes a word, where its tag is a text that is not empty, and answers whether it is. Nothing is no word.
fn take_word(alloc: Global, set: &mut TextSet, word: &[u8]) -> Result<bool, NoMemory>
    requires { length word.now < 2 ^ 30 }
    ensures { IfOk result (λ told. (if told then Some set.new else None) ≡ spec.tags_after_words set.old (filter has_bytes (word.now ∷ []))) }
{
    if word.len() == 0 {
        return Ok(true);
    }
    match name_of(alloc, tag_in(word))? {
        Some(tag) => {
            take_tag(set, word, tag)?;
            Ok(true)
        }
        None => Ok(false),
    }
}

// The set takes the words in turn, where each tells a text that is not empty, and answers whether they do.
fn take_words(alloc: Global, set: &mut TextSet, words: &[u8]) -> Result<bool, NoMemory>
    requires { length words.now < 2 ^ 30 }
    ensures { IfOk result (λ told. (if told then Some set.new else None) ≡ spec.tags_after_words set.old (spec.spaced_words words.now)) }
{
    let mut rest = words;
    while word_size(rest) < rest.len() {
        let at = word_size(rest);
        if !take_word(alloc, set, &rest[..at])? {
            return Ok(false);
        }
        rest = bytes_behind(rest, at + 1);
    }
    take_word(alloc, set, rest)
}

// Whether the tags have no more bytes than a set may have.
fn is_within_limit(tags: &[Text]) -> bool
    ensures { result ≡ nat_le (sum_by length tags.now) spec.most_tag_bytes }
{
    let mut total = 0;
    for tag in tags {
        let size = tag.bytes().len();
        if size > MOST_TAG_BYTES - total {
            return false;
        }
        total += size;
    }
    true
}

// The tags, where they have no more bytes than a set may have.
fn within_limit(tags: Tags) -> Option<Tags>
    ensures { result ≡ spec.within_limit (Some tags) }
{
    if is_within_limit(tags.list()) {
        Some(tags)
    } else {
        None
    }
}

/// The tags behind a line of these words, where it is one.
pub(crate) fn retagged(alloc: Global, before: &Tags, words: &[u8]) -> Result<Option<Tags>, NoMemory>
    requires { length words.now < 2 ^ 30 }
    ensures { IfOk result (λ after. after ≡ spec.retagged before.now words.now) }
{
    let mut set = TextSet::new(alloc);
    set.insert_all(before.list())?;
    if !take_words(alloc, &mut set, words)? {
        return Ok(None);
    }
    let tags = set.into_tags(alloc)?;
    Ok(within_limit(tags))
}
