//! Which lines words ask for of the tests of a run, while it goes on.

ghost use Rattle.std.specs.Prelude.{◌≡◌, map};
ghost use Rattle.command_words.specs.Code.{item_meant};
ghost use Rattle.testr_words.specs.Lives as lives;

use command_words::Item;

/// What is printed of each test of a run where it completes.
#[derive(Clone, Copy, Debug, PartialEq, Eq)]
pub enum LiveKind {
    /// Nothing.
    Nothing,
    /// A line of each test.
    Tests,
    /// The report of each test that fails.
    Failures,
    /// A mark of each test.
    Dots,
}

/// The kind that the options ask for. None comes exactly where a value of `--live` names no kind.
pub(crate) fn live_in(items: &[Item<'_>]) -> Option<LiveKind>
    ensures { result ≡ lives.live_in (map item_meant items.now) }
{
    let mut kind = Some(LiveKind::Nothing);
    for item in items {
        kind = live_behind(kind, item);
    }
    kind
}

// The kind behind one item more.
fn live_behind(kind: Option<LiveKind>, item: &Item<'_>) -> Option<LiveKind>
    ensures { result ≡ lives.live_kind_behind kind (item_meant item.now) }
{
    let Some(kind) = kind else {
        return None;
    };
    match item {
        Item::Valued(option, value) => live_with(kind, option, value),
        Item::Flag(_) | Item::Name(_) => Some(kind),
    }
}

// The kind behind an option with this value.
fn live_with(kind: LiveKind, option: &str, value: &str) -> Option<LiveKind>
    ensures { result ≡ lives.live_kind_with kind option.now value.now }
{
    if option == "--live" {
        return live_named(value);
    }
    Some(kind)
}

// The kind that a word names.
fn live_named(word: &str) -> Option<LiveKind>
    ensures { result ≡ lives.live_kind_named word.now }
{
    if word == "none" {
        return Some(LiveKind::Nothing);
    }
    if word == "tests" {
        return Some(LiveKind::Tests);
    }
    if word == "failures" {
        return Some(LiveKind::Failures);
    }
    if word == "dots" {
        return Some(LiveKind::Dots);
    }
    None
}
