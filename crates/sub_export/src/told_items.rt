//! What the items of a command say.

ghost use Rattle.std.specs.Prelude.{◌≡◌, List, [], ◌∷◌, ◌++◌, map, option_map, codes, IfOk};
ghost use Rattle.std.specs.List.{list_any};
ghost use Rattle.command_words.specs.Code.{item_meant};
ghost use Rattle.command_words.specs.Items.{value_of, values_in};
ghost use Rattle.sub_export.specs.Output as spec;
ghost use Rattle.sub_export.specs.Output.{StatusOption};
ghost use Rattle.sub_export.specs.Said.{AreVerdicts, verdict_meant};

use crate::options::status_named;
use crate::time_stamp::stamp_of;
use command_words::{Item, text_of};
use packet_codec::{Status, Tags};
use std::alloc::Global;
use sub_number::{NoMemory, Text};

/// What an option says that gives a status.
#[derive(Clone, Copy)]
pub(crate) struct Said<'a> {
    pub(crate) status: Status,
    pub(crate) id: &'a str,
}

/// The statuses that are told, where they are at most one.
#[derive(Clone, Copy)]
pub(crate) enum Verdicts<'a> {
    /// None is told.
    Nothing,
    /// One is.
    Once(Said<'a>),
    /// There are more.
    Several,
}

// The status that the item gives a test.
fn verdict_in<'a>(item: &Item<'a>) -> Option<Said<'a>>
    ensures { option_map verdict_meant result ≡ spec.verdict_in (item_meant item.now) }
{
    match item {
        Item::Valued(option, id) => match status_named(option) {
            Some(status) => Some(Said { status, id }),
            None => None,
        },
        Item::Flag(_) | Item::Name(_) => None,
    }
}

// The statuses with one more behind them.
fn one_more<'a>(before: Verdicts<'a>, verdict: Said<'a>) -> Verdicts<'a>
    ensures { (told : List StatusOption) → AreVerdicts before.entry told → AreVerdicts result (told ++ verdict_meant verdict.entry ∷ []) }
{
    match before {
        Verdicts::Nothing => Verdicts::Once(verdict),
        Verdicts::Once(_) | Verdicts::Several => Verdicts::Several,
    }
}

/// The statuses that the items give.
pub(crate) fn verdicts_in<'a>(items: &[Item<'a>]) -> Verdicts<'a>
    ensures { AreVerdicts result (spec.verdicts_in (map item_meant items.now)) }
{
    let mut verdicts = Verdicts::Nothing;
    for item in items {
        if let Some(verdict) = verdict_in(item) {
            verdicts = one_more(verdicts, verdict);
        }
    }
    verdicts
}

// The value of the item, where it is the option of this name.
fn value_in<'a>(option: &str, item: &Item<'a>) -> Option<&'a str>
    ensures { option_map (λ value. value.now) result ≡ value_of option.now (item_meant item.now) }
{
    match item {
        Item::Valued(given, value) if *given == option => Some(value),
        _ => None,
    }
}

/// The last value of the option of this name.
pub(crate) fn value_of<'a>(option: &str, items: &[Item<'a>]) -> Option<&'a str>
    ensures { option_map (λ value. value.now) result ≡ spec.last_value_in option.now (map item_meant items.now) }
{
    let mut last = None;
    for item in items {
        let value = value_in(option, item);
        if value.is_some() {
            last = value;
        }
    }
    last
}

/// Whether a word is no option, or a time that is none.
pub(crate) fn has_refused(items: &[Item<'_>]) -> bool
    ensures { result ≡ list_any (λ item. spec.is_refused_item (item_meant item)) items.now }
{
    items.iter().any(|item| is_refused(item))
}

fn is_refused(item: &Item<'_>) -> bool
    ensures { result ≡ spec.is_refused_item (item_meant item.now) }
{
    match item {
        Item::Flag(_) => false,
        Item::Valued(option, value) => is_no_time(option, value),
        Item::Name(_) => true,
    }
}

fn is_no_time(option: &str, value: &str) -> bool
    ensures { result ≡ spec.is_no_time option.now value.now }
{
    option == "--timestamp" && stamp_of(value).is_none()
}

/// The word as a text. A word that is none was refused before, so there is no answer of its own for it.
pub(crate) fn word_text(alloc: Global, word: &str) -> Result<Text, NoMemory>
    ensures { IfOk result (λ text. text ≡ word.now) }
{
    match text_of(alloc, word)? {
        Some(text) => Ok(text),
        None => Err(NoMemory),
    }
}

/// The values of the option `--tag`.
pub(crate) fn tags_in(alloc: Global, items: &[Item<'_>]) -> Result<Tags, NoMemory>
    ensures { IfOk result (λ tags. tags ≡ values_in (codes "--tag") (map item_meant items.now)) }
{
    let mut tags = Tags::new(alloc);
    for item in items {
        if let Some(value) = value_in("--tag", item) {
            tags.push(word_text(alloc, value)?)?;
        }
    }
    Ok(tags)
}
