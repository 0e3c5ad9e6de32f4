//! What `subunit-tags` is asked to change.

ghost use Rattle.std.specs.Prelude.{◌≡◌, option_map, string_bytes, IfOk};
ghost use Rattle.std.specs.List.{list_any};
ghost use Rattle.command_words.specs.Items.{texts};
ghost use Rattle.command_words.specs.Items as items;
ghost use Rattle.filter_cli.specs.Retagging as retagging;

use crate::selection::word_text;
use packet_codec::Tags;
use std::alloc::Global;
use sub_number::NoMemory;

/// The tags that events get, and those that they lose. A tag that is both is lost.
#[derive(Drop)]
pub struct TagChanges {
    /// The tags to add.
    pub add: Tags,
    /// The tags to remove.
    pub remove: Tags,
}

/// The change of tags that the words behind the name ask for. None comes exactly where a word is `-`, the empty one, or
/// no text.
pub fn read_retagging(alloc: Global, words: &[String]) -> Result<Option<TagChanges>, NoMemory>
    ensures { IfOk result (λ asked. asked ≡ retagging.retagging_of (texts words.now)) }
{
    if has_refused(words) {
        return Ok(None);
    }
    let add = added_by(alloc, words)?;
    let remove = removed_by(alloc, words)?;
    Ok(Some(TagChanges { add, remove }))
}

fn has_refused(words: &[String]) -> bool
    ensures { result ≡ list_any (λ word. retagging.is_refused (string_bytes word)) words.now }
{
    words.iter().any(|word| is_refused(word.as_str()))
}

// Whether the word neither adds nor removes a tag.
fn is_refused(word: &str) -> bool
    ensures { result ≡ retagging.is_refused word.now }
{
    word.is_empty() || word == "-" || !is_word(word)
}

// Whether a word, which is UTF-8, has no NUL and is short enough for a text.
fn is_word(word: &str) -> bool
    ensures { result ≡ items.is_text word.now }
{
    !word.as_bytes().contains(&0) && word.len() < 1 << 30
}

// The tag that the word removes, where it begins with a dash.
fn removed(word: &str) -> Option<&str>
    ensures { option_map (λ tag. tag.now) result ≡ retagging.tag_removed word.now }
{
    word.strip_prefix("-")
}

// The tag that the word adds, where it does not begin with a dash.
fn added(word: &str) -> Option<&str>
    ensures { option_map (λ tag. tag.now) result ≡ retagging.tag_added word.now }
{
    if word.starts_with("-") {
        None
    } else {
        Some(word)
    }
}

fn added_by(alloc: Global, words: &[String]) -> Result<Tags, NoMemory>
    ensures { IfOk result (λ tags. tags ≡ retagging.added_by (texts words.now)) }
{
    let mut tags = Tags::new(alloc);
    for word in words {
        if let Some(tag) = added(word.as_str()) {
            tags.push(word_text(alloc, tag)?)?;
        }
    }
    Ok(tags)
}

fn removed_by(alloc: Global, words: &[String]) -> Result<Tags, NoMemory>
    ensures { IfOk result (λ tags. tags ≡ retagging.removed_by (texts words.now)) }
{
    let mut tags = Tags::new(alloc);
    for word in words {
        if let Some(tag) = removed(word.as_str()) {
            tags.push(word_text(alloc, tag)?)?;
        }
    }
    Ok(tags)
}
