//! Options without a value among items.

ghost use Rattle.std.specs.Prelude.{◌≡◌, map};
ghost use Rattle.std.specs.List.{list_any};
ghost use Rattle.command_words.specs.Code.{item_meant};
ghost use Rattle.command_words.specs.Items as spec;

use crate::item::Item;

/// Whether the option stands among the items without a value, however often. It takes no memory.
pub fn has_flag(items: &[Item<'_>], flag: &str) -> bool
    ensures { result ≡ spec.has_flag flag.now (map item_meant items.now) }
{
    any_is(items, flag)
}

fn any_is(items: &[Item<'_>], flag: &str) -> bool
    ensures { result ≡ list_any (λ item. spec.is_flag flag.now (item_meant item)) items.now }
{
    items.iter().any(|item| is_flag(item, flag))
}

fn is_flag(item: &Item<'_>, flag: &str) -> bool
    ensures { result ≡ spec.is_flag flag.now (item_meant item.now) }
{
    match item {
        Item::Flag(name) => *name == flag,
        Item::Valued(_, _) | Item::Name(_) => false,
    }
}
