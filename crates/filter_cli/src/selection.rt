//! What `subunit-filter` is asked to let through, and `subunit2csv` to export.

ghost use Rattle.std.specs.Prelude.{◌≡◌, map, option_map, IfOk};
ghost use Rattle.command_words.specs.Code.{item_meant};
ghost use Rattle.filter_cli.specs.Selecting as selecting;

use crate::patterns::Patterns;
use command_words::{Item, text_of};
use packet_codec::Tags;
use std::alloc::Global;
use sub_number::{IdList, NoMemory, Text};

/// Which tests are let through, and whether output of no test is.
#[derive(Drop)]
pub struct Selection {
    /// Whether tests that passed are kept.
    pub success: bool,
    /// Whether failures, successes that were not expected and tests that were left open are kept.
    pub failure: bool,
    /// Whether tests that were skipped are kept.
    pub skip: bool,
    /// Whether failures that were expected are kept.
    pub xfail: bool,
    /// Whether output of no test is hidden.
    pub hidden: bool,
    /// The tags that a test must have.
    pub with_tags: Tags,
    /// The tags that a test must not have.
    pub without_tags: Tags,
    /// The patterns of which one must be found in the id, where there are any.
    pub with_ids: IdList,
    /// The patterns of which none may be found in the id.
    pub without_ids: IdList,
    /// All these patterns, in the order of the words.
    pub patterns: Patterns,
}

// What flags set.
#[derive(Clone, Copy)]
enum Switch {
    Success,
    Failure,
    Skip,
    XFail,
    Hidden,
}

// What options with a value are added to.
#[derive(Clone, Copy)]
enum Added {
    WithTag,
    WithoutTag,
    WithId,
    WithoutId,
    Pattern,
}

/// What the options of `subunit-filter` ask for. Of flags that set the same the last one stands; the values of the others
/// are added.
pub fn selection_of(alloc: Global, items: &[Item<'_>]) -> Result<Selection, NoMemory>
    ensures { IfOk result (λ selection. selection ≡ selecting.selection_of (map item_meant items.now)) }
{
    selection_from(alloc, false, false, items)
}

/// What the options of `subunit2csv` ask for, in the same way.
pub fn csv_selection_of(alloc: Global, items: &[Item<'_>]) -> Result<Selection, NoMemory>
    ensures { IfOk result (λ selection. selection ≡ selecting.csv_selection_of (map item_meant items.now)) }
{
    selection_from(alloc, true, true, items)
}

// What they ask for, where at first tests that passed are kept or not, and output of no test is hidden or not.
fn selection_from(
    alloc: Global,
    success: bool,
    hidden: bool,
    items: &[Item<'_>],
) -> Result<Selection, NoMemory>
    ensures { IfOk result (λ selection. selection ≡ selecting.selection_from success hidden (map item_meant items.now)) }
{
    Ok(Selection {
        success: stands(Switch::Success, success, items),
        failure: stands(Switch::Failure, true, items),
        skip: stands(Switch::Skip, true, items),
        xfail: stands(Switch::XFail, true, items),
        hidden: stands(Switch::Hidden, hidden, items),
        with_tags: tags_in(alloc, Added::WithTag, items)?,
        without_tags: tags_in(alloc, Added::WithoutTag, items)?,
        with_ids: ids_in(alloc, Added::WithId, items)?,
        without_ids: ids_in(alloc, Added::WithoutId, items)?,
        patterns: patterns_in(alloc, items)?,
    })
}

// How the switch stands behind the items: as the last of them says that speaks of it, or as at first.
fn stands(switch: Switch, first: bool, items: &[Item<'_>]) -> bool
    ensures { result ≡ selecting.stands switch first (map item_meant items.now) }
{
    let mut stands = first;
    for item in items {
        stands = said(switch, item).unwrap_or(stands);
    }
    stands
}

// How the item sets the switch. None where it speaks of another one, or of none.
fn said(switch: Switch, item: &Item<'_>) -> Option<bool>
    ensures { result ≡ selecting.said switch (item_meant item.now) }
{
    match item {
        Item::Flag(flag) => says(switch, flag),
        Item::Valued(_, _) | Item::Name(_) => None,
    }
}

fn says(switch: Switch, flag: &str) -> Option<bool>
    ensures { result ≡ selecting.says switch flag.now }
{
    match switch {
        Switch::Success => set_by(flag == "--success", is_or_genuine(flag, "--no-success")),
        Switch::Failure => set_by(flag == "--failure", flag == "--no-failure"),
        Switch::Skip => set_by(false, is_or_genuine(flag, "--no-skip")),
        Switch::XFail => set_by(flag == "--xfail", is_or_genuine(flag, "--no-xfail")),
        Switch::Hidden => set_by(is_or_genuine(flag, "--no-passthrough"), false),
    }
}

fn set_by(on: bool, off: bool) -> Option<bool>
    ensures { result ≡ selecting.set_by on off }
{
    if on {
        return Some(true);
    }
    if off {
        return Some(false);
    }
    None
}

// Whether the flag is this one, or that for genuine failures alone.
fn is_or_genuine(flag: &str, key: &str) -> bool
    ensures { result ≡ selecting.is_or_genuine flag.now key.now }
{
    flag == key || flag == "--only-genuine-failures"
}

// The value of the item, where it is an option that adds to this.
fn value_added<'a>(added: Added, item: &Item<'a>) -> Option<&'a str>
    ensures { option_map (λ value. value.now) result ≡ selecting.value_added added (item_meant item.now) }
{
    match item {
        Item::Valued(name, value) if adds_to(added, name) => Some(value),
        _ => None,
    }
}

fn adds_to(added: Added, name: &str) -> bool
    ensures { result ≡ selecting.adds_to added name.now }
{
    match added {
        Added::WithTag => name == "--with-tag",
        Added::WithoutTag => name == "--without-tag",
        Added::WithId => name == "--with-id",
        Added::WithoutId => name == "--without-id",
        Added::Pattern => name == "--with-id" || name == "--without-id",
    }
}

// The word as a text. A word that is none was refused before, so there is no answer of its own for it.
pub(crate) fn word_text(alloc: Global, word: &str) -> Result<Text, NoMemory>
    ensures { IfOk result (λ text. text ≡ word.now) }
{
    match text_of(alloc, word)? {
        Some(text) => Ok(text),
        None => Err(NoMemory),
    }
}

fn tags_in(alloc: Global, added: Added, items: &[Item<'_>]) -> Result<Tags, NoMemory>
    ensures { IfOk result (λ tags. tags ≡ selecting.values_added added (map item_meant items.now)) }
{
    let mut tags = Tags::new(alloc);
    for item in items {
        if let Some(value) = value_added(added, item) {
            tags.push(word_text(alloc, value)?)?;
        }
    }
    Ok(tags)
}

fn ids_in(alloc: Global, added: Added, items: &[Item<'_>]) -> Result<IdList, NoMemory>
    ensures { IfOk result (λ ids. ids ≡ selecting.values_added added (map item_meant items.now)) }
{
    let mut ids = IdList::new(alloc);
    for item in items {
        if let Some(value) = value_added(added, item) {
            ids.push(word_text(alloc, value)?)?;
        }
    }
    Ok(ids)
}

fn patterns_in(alloc: Global, items: &[Item<'_>]) -> Result<Patterns, NoMemory>
    ensures { IfOk result (λ patterns. patterns ≡ selecting.patterns_asked (map item_meant items.now)) }
{
    let mut patterns = Patterns::new(alloc);
    for item in items {
        if let Some(value) = value_added(Added::Pattern, item) {
            patterns.push(word_text(alloc, value)?)?;
        }
    }
    Ok(patterns)
}
