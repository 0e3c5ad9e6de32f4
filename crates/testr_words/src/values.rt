//! What the options with a value say.

ghost use Rattle.std.specs.Prelude.{◌≡◌, ◌++◌, ◌∷◌, ◌-◌, ◌^◌, [], true, min, map, option_map, codes, IfOk, IsTrue};
ghost use Rattle.std.specs.Char.{is_ascii_digit};
ghost use Rattle.std.specs.List.{list_all};
ghost use Rattle.std.specs.Option.{option_to_list};
ghost use Rattle.std.specs.Str.Parse.{digits_value};
ghost use Rattle.command_words.specs.Code.{item_meant};
ghost use Rattle.command_words.specs.Items.{is_text, value_of, values_in};
ghost use Rattle.testr_words.specs.Words as words;

use command_words::{Item, text_of};
use itoa::Buffer;
use std::alloc::Global;
use sub_number::{IdList, NoMemory, Text};

/// How many workers words may ask for.
pub const MOST_WORKERS: u32 = 64;

/// How many workers are asked for: what the last option tells that tells it, `MOST_WORKERS` at most, or 0 where none does.
/// None comes exactly where one of these options has another value than a number in decimal without sign or leading zero.
pub(crate) fn workers_in(items: &[Item<'_>]) -> Option<u32>
    ensures { result ≡ words.workers_in (map item_meant items.now) }
{
    if !are_worker_counts(items) {
        return None;
    }
    match last_value(items, "--concurrency") {
        Some(value) => worker_count(value),
        None => Some(0),
    }
}

/// Whether the last option that tells how many workers are asked for tells of more than `MOST_WORKERS`.
pub(crate) fn are_too_many_in(items: &[Item<'_>]) -> bool
    ensures { result ≡ words.too_many_in (map item_meant items.now) }
{
    match last_value(items, "--concurrency") {
        Some(value) => is_too_many(value),
        None => false,
    }
}

/// The file that the last of these options names; none in the answer where none does. None comes exactly where that name
/// is no text.
pub(crate) fn file_in(
    alloc: Global,
    items: &[Item<'_>],
    key: &str,
) -> Result<Option<Option<Text>>, NoMemory>
    ensures { IfOk result (λ file. file ≡ words.file_in key.now (map item_meant items.now)) }
{
    let Some(name) = last_value(items, key) else {
        return Ok(Some(None));
    };
    match text_of(alloc, name)? {
        Some(name) => Ok(Some(Some(name))),
        None => Ok(None),
    }
}

/// The values of these options, in their order. None comes where one of them is no text.
pub(crate) fn texts_in(
    alloc: Global,
    items: &[Item<'_>],
    key: &str,
) -> Result<Option<IdList>, NoMemory>
    ensures { IfOk result (λ values. values ≡ words.texts_in key.now (map item_meant items.now)) }
{
    let mut values = IdList::new(alloc);
    for item in items {
        if !take_value(alloc, *item, key, &mut values)? {
            return Ok(None);
        }
    }
    Ok(Some(values))
}

// Adds the value that the item gives to this option, or nothing. False comes where it is no text.
fn take_value(
    alloc: Global,
    item: Item<'_>,
    key: &str,
    values: &mut IdList,
) -> Result<bool, NoMemory>
    ensures added { IfOk result (λ taken. taken ≡ true → values.new ≡ values.old ++ option_to_list (value_of key.now (item_meant item.entry))) }
    ensures texts { IfOk result (λ taken. taken ≡ list_all is_text (option_to_list (value_of key.now (item_meant item.entry)))) }
{
    match value_of(item, key) {
        Some(value) => push_text(alloc, value, values),
        None => Ok(true),
    }
}

/// Adds the word. False comes where it is no text.
pub(crate) fn push_text(alloc: Global, word: &str, texts: &mut IdList) -> Result<bool, NoMemory>
    ensures added { IfOk result (λ taken. taken ≡ true → texts.new ≡ texts.old ++ word.now ∷ []) }
    ensures text { IfOk result (λ taken. taken ≡ is_text word.now) }
{
    let Some(text) = text_of(alloc, word)? else {
        return Ok(false);
    };
    match texts.push(text) {
        Ok(()) => Ok(true),
        Err(_) => Err(NoMemory),
    }
}

/// The value of the last of these options. None comes exactly where there is none.
pub(crate) fn last_value<'a>(items: &[Item<'a>], key: &str) -> Option<&'a str>
    ensures { option_map (λ value. value.now) result ≡ words.last_of (values_in key.now (map item_meant items.now)) }
{
    let mut last = None;
    for item in items {
        if let Some(value) = value_of(*item, key) {
            last = Some(value);
        }
    }
    last
}

// The value that the item gives to this option.
pub(crate) fn value_of<'a>(item: Item<'a>, key: &str) -> Option<&'a str>
    ensures { option_map (λ value. value.now) result ≡ value_of key.now (item_meant item.entry) }
{
    match item {
        Item::Valued(name, value) if name == key => Some(value),
        _ => None,
    }
}

// Whether each of the options that tell the number of workers has one.
fn are_worker_counts(items: &[Item<'_>]) -> bool
    ensures { result ≡ list_all (λ item. list_all words.is_decimal (option_to_list (value_of (codes "--concurrency") (item_meant item)))) items.now }
{
    items.iter().all(|item| is_fit(*item))
}

// Whether the item, where it tells the number of workers, has one.
fn is_fit(item: Item<'_>) -> bool
    ensures { result ≡ list_all words.is_decimal (option_to_list (value_of (codes "--concurrency") (item_meant item.entry))) }
{
    match value_of(item, "--concurrency") {
        Some(value) => is_decimal(value),
        None => true,
    }
}

// The number of workers that the value tells, `MOST_WORKERS` at most. None comes exactly where it tells none.
fn worker_count(value: &str) -> Option<u32>
    ensures { result ≡ words.worker_count value.now }
{
    if is_decimal(value) {
        Some(u32::min(number_up_to_max(value), MOST_WORKERS))
    } else {
        None
    }
}

// Whether the value tells of more workers than there may be.
fn is_too_many(value: &str) -> bool
    ensures { result ≡ words.is_too_many value.now }
{
    is_decimal(value) && number_up_to_max(value) > MOST_WORKERS
}

// The number that these digits are, or the greatest one of its type where that is too small for them.
fn number_up_to_max(digits: &str) -> u32
    requires digits { IsTrue (words.is_decimal digits.now) }
    ensures { result ≡ min (digits_value 10 digits.now) (2 ^ 32 - 1) }
{
    match digits.parse::<u32>() {
        Ok(number) => number,
        Err(_) => u32::MAX,
    }
}

// Whether the value is a number in decimal, of any length, without sign or leading zero.
fn is_decimal(value: &str) -> bool
    ensures { result ≡ words.is_decimal value.now }
{
    match value.as_bytes() {
        [] => false,
        [first, rest @ ..] => are_digits(value.as_bytes()) && (*first != b'0' || rest.is_empty()),
    }
}

fn are_digits(bytes: &[u8]) -> bool
    ensures { result ≡ list_all is_ascii_digit bytes.now }
{
    bytes.iter().all(|byte| byte.is_ascii_digit())
}

/// The number, this one at most, that the value tells in decimal, without sign or leading zero. None comes exactly where it
/// tells none.
pub(crate) fn decimal_up_to(value: &str, most: u32) -> Option<u32>
    ensures { result ≡ words.number_up_to most value.now }
{
    let Ok(number) = value.parse::<u32>() else {
        return None;
    };
    let mut digits = Buffer::new();
    if number <= most && digits.format(number) == value {
        Some(number)
    } else {
        None
    }
}
