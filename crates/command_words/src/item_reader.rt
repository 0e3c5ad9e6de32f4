//! Reads words.

ghost use Rattle.std.specs.Prelude.{◌≡◌, option_map, map, IfOk};
ghost use Rattle.command_words.specs.Items.{texts, items_of, meaning_of, option_meaning, option_name, option_value};
ghost use Rattle.command_words.specs.Code.{item_meant, shown_meaning, meaning_behind};

use crate::item::Item;
use crate::table::{Kind, OptionTable};
use crate::text::is_word;
use std::alloc::Global;
use sub_number::NoMemory;

// What a word is by itself.
enum Meaning<'a> {
    // It is refused.
    Refused,
    // It is this.
    Is(Item<'a>),
    // It is this option, whose value is the next word.
    Asks(&'a str),
}

/// What the words are, in their order. None comes exactly where one of them is refused. Refused is an option that the
/// command does not have, or with a value where it has none, or without one where it needs one. So are one dash and
/// more than that, and what is no text.
pub fn read_items<'a, T: OptionTable>(
    alloc: Global,
    table: &T,
    words: &'a [String],
) -> Result<Option<Vec<Item<'a>>>, NoMemory>
    ensures { IfOk result (λ items. option_map (λ items. map item_meant items.items) items ≡ items_of (T.kinds table.now) (texts words.now)) }
{
    let mut items = Vec::new(alloc);
    let mut asked = None;
    for word in words {
        let word = word.as_str();
        if !is_word(word) {
            return Ok(None);
        }
        match take_word(table, asked, word) {
            Meaning::Refused => return Ok(None),
            Meaning::Is(item) => {
                items.push(item)?;
                asked = None;
            }
            Meaning::Asks(name) => asked = Some(name),
        }
    }
    if asked.is_some() {
        return Ok(None);
    }
    Ok(Some(items))
}

// What the word is, behind an option that asks for its value.
fn take_word<'a, T: OptionTable>(table: &T, asked: Option<&'a str>, word: &'a str) -> Meaning<'a>
    ensures { shown_meaning result ≡ meaning_behind (T.kinds table.now) (option_map (λ name. name.now) asked.entry) word.now }
{
    match asked {
        Some(name) => Meaning::Is(Item::Valued(name, word)),
        None => meaning_of_word(table, word),
    }
}

// What the word is that stands behind no option which asks for a value.
fn meaning_of_word<'a, T: OptionTable>(table: &T, word: &'a str) -> Meaning<'a>
    ensures { shown_meaning result ≡ meaning_of (T.kinds table.now) word.now }
{
    if word.starts_with("--") {
        return meaning_of_option(table, word);
    }
    if word.starts_with("-") && word.len() > 1 {
        return Meaning::Refused;
    }
    Meaning::Is(Item::Name(word))
}

// What a word that begins with two dashes is.
fn meaning_of_option<'a, T: OptionTable>(table: &T, word: &'a str) -> Meaning<'a>
    ensures { shown_meaning result ≡ option_meaning (T.kinds table.now (option_name word.now)) (option_name word.now) (option_value word.now) }
{
    match word.split_once('=') {
        Some((key, value)) => meaning_with(table.kind(key), key, Some(value)),
        None => meaning_with(table.kind(word), word, None),
    }
}

fn meaning_with<'a>(kind: Option<Kind>, key: &'a str, value: Option<&'a str>) -> Meaning<'a>
    ensures { shown_meaning result ≡ option_meaning kind key.now (option_map (λ value. value.now) value.entry) }
{
    match (kind, value) {
        (None, _) | (Some(Kind::Flag), Some(_)) => Meaning::Refused,
        (Some(Kind::Flag), None) => Meaning::Is(Item::Flag(key)),
        (Some(Kind::Valued), None) => Meaning::Asks(key),
        (Some(Kind::Valued), Some(value)) => Meaning::Is(Item::Valued(key, value)),
    }
}
