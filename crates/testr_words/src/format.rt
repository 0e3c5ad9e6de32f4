//! In which form words ask for what stands behind a report.

ghost use Rattle.std.specs.Prelude.{◌≡◌, map};
ghost use Rattle.command_words.specs.Code.{item_meant};
ghost use Rattle.testr_words.specs.Formats as formats;

use command_words::Item;

/// For whom a report is printed.
#[derive(Clone, Copy, Debug, PartialEq, Eq)]
pub enum FormatKind {
    /// A reader: nothing more stands behind it.
    Plain,
    /// A build server that reads notes in its log: those of the tests that fail stand behind it.
    Github,
}

/// The kind that the options ask for. None comes exactly where a value of `--format` names no kind.
pub(crate) fn format_in(items: &[Item<'_>]) -> Option<FormatKind>
    ensures { result ≡ formats.format_in (map item_meant items.now) }
{
    let mut kind = Some(FormatKind::Plain);
    for item in items {
        kind = format_behind(kind, item);
    }
    kind
}

// The kind behind one item more.
fn format_behind(kind: Option<FormatKind>, item: &Item<'_>) -> Option<FormatKind>
    ensures { result ≡ formats.format_behind kind (item_meant item.now) }
{
    let Some(kind) = kind else {
        return None;
    };
    match item {
        Item::Valued(option, value) => format_with(kind, option, value),
        Item::Flag(_) | Item::Name(_) => Some(kind),
    }
}

// The kind behind an option with this value.
fn format_with(kind: FormatKind, option: &str, value: &str) -> Option<FormatKind>
    ensures { result ≡ formats.format_with kind option.now value.now }
{
    if option == "--format" {
        return format_named(value);
    }
    Some(kind)
}

// The kind that a word names.
fn format_named(word: &str) -> Option<FormatKind>
    ensures { result ≡ formats.format_named word.now }
{
    if word == "text" {
        return Some(FormatKind::Plain);
    }
    if word == "github" {
        return Some(FormatKind::Github);
    }
    None
}
