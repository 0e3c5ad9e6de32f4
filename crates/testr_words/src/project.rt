//! What words say of a project, and the words behind the options of a run.

ghost use Rattle.std.specs.Prelude.{◌≡◌, ◌≤◌, ◌+◌, ◌&&◌, not, false, length, take, drop, map, IfOk};
ghost use Rattle.std.specs.List.{list_all, list_any};
ghost use Rattle.std.specs.Str.{bytes_eq};
ghost use Rattle.std.specs.Option.{option_to_list};
ghost use Rattle.command_words.specs.Code.{item_meant};
ghost use Rattle.command_words.specs.Items.{texts, value_of};
ghost use Rattle.sub_number.specs.Quotes.{is_path, is_quote_sign};
ghost use Rattle.testr_words.specs.Words as words;
ghost use Rattle.testr_words.specs.Letters.{has_value};

use crate::command::{Face, ProjectWords, Verb};
use crate::values::{file_in, push_text, value_of};
use crate::words::run_option;
use command_words::{Item, Kind};
use std::alloc::Global;
use sub_number::{IdList, NoMemory, Text};

/// What the options say of the project, and these words behind them. None comes exactly where a path is none, or a value or
/// a word is no text.
pub(crate) fn project_in(
    alloc: Global,
    items: &[Item<'_>],
    arguments: &[String],
) -> Result<Option<ProjectWords>, NoMemory>
    ensures { IfOk result (λ project. project ≡ words.project_in (map item_meant items.now) (texts arguments.now)) }
{
    let Some(test_path) = path_in(alloc, items, "--test-path")? else {
        return Ok(None);
    };
    let Some(top_dir) = path_in(alloc, items, "--top-dir")? else {
        return Ok(None);
    };
    let Some(group_regex) = file_in(alloc, items, "--group-regex")? else {
        return Ok(None);
    };
    let Some(arguments) = texts_of(alloc, arguments)? else {
        return Ok(None);
    };
    Ok(Some(ProjectWords {
        test_path,
        top_dir,
        group_regex,
        arguments,
        instances: None,
    }))
}

// The path that the last of these options gives; none in the answer where none does. None comes exactly where a value is no
// path, or the last is no text.
fn path_in(alloc: Global, items: &[Item<'_>], key: &str) -> Result<Option<Option<Text>>, NoMemory>
    ensures { IfOk result (λ path. path ≡ words.path_given key.now (map item_meant items.now)) }
{
    if are_paths(items, key) {
        file_in(alloc, items, key)
    } else {
        Ok(None)
    }
}

// Whether each value of the option is a path.
fn are_paths(items: &[Item<'_>], key: &str) -> bool
    ensures { result ≡ list_all (λ item. list_all is_path (option_to_list (value_of key.now (item_meant item)))) items.now }
{
    items.iter().all(|item| gives_path(*item, key))
}

// Whether the item, where it gives a value to the option, gives a path.
fn gives_path(item: Item<'_>, key: &str) -> bool
    ensures { result ≡ list_all is_path (option_to_list (value_of key.now (item_meant item.entry))) }
{
    match value_of(item, key) {
        Some(value) => !has_quote_sign(value.as_bytes()),
        None => true,
    }
}

fn has_quote_sign(value: &[u8]) -> bool
    ensures { result ≡ list_any is_quote_sign value.now }
{
    value.iter().any(|byte| is_quote_sign(*byte))
}

// Whether a shell reads the byte between double quotes.
fn is_quote_sign(byte: u8) -> bool
    ensures { result ≡ is_quote_sign byte }
{
    matches!(byte, b'"' | b'$' | b'\\' | b'`')
}

// The words. None comes exactly where one of them is no text.
fn texts_of(alloc: Global, given: &[String]) -> Result<Option<IdList>, NoMemory>
    ensures { IfOk result (λ list. list ≡ words.if_texts (texts given.now)) }
{
    let mut list = IdList::new(alloc);
    for word in given {
        if !push_text(alloc, word.as_str(), &mut list)? {
            return Ok(None);
        }
    }
    Ok(Some(list))
}

/// The words that are options and names, and those behind the word that ends them; only a run has one.
pub(crate) fn split_at_end_word(face: Face, verb: Verb, given: &[String]) -> (&[String], &[String])
    ensures options { texts result.0.now ≡ words.options_in face verb (texts given.now) }
    ensures arguments { texts result.1.now ≡ words.arguments_in face verb (texts given.now) }
{
    match verb {
        Verb::Run => parted_at(given, before_end(face, given)),
        _ => (given, &[]),
    }
}

// The words in front of this place, and those behind it.
fn parted_at(given: &[String], place: usize) -> (&[String], &[String])
    requires { place ≤ length given.now }
    ensures front { texts result.0.now ≡ take place (texts given.now) }
    ensures rest { texts result.1.now ≡ drop (place + 1) (texts given.now) }
{
    let (front, rest) = given.split_at(place);
    match rest {
        [_, behind @ ..] => (front, behind),
        [] => (front, rest),
    }
}

// How many words stand in front of the first `--` that is no option's value.
fn before_end(face: Face, given: &[String]) -> usize
    ensures place { result ≡ words.before_end face false (texts given.now) }
    ensures within { result ≤ length given.now }
{
    let mut place = 0;
    let mut asked = false;
    for word in given {
        let word = word.as_str();
        if ends(asked, word) {
            return place;
        }
        asked = asks(face, asked, word);
        place += 1;
    }
    place
}

// Whether the word ends the options. One that is asked for is a value.
fn ends(asked: bool, word: &str) -> bool
    ensures { result ≡ (not asked && bytes_eq word.now words.end_word) }
{
    !asked && word == "--"
}

// Whether the word is an option of a run that asks for a value. One that is asked for is a value itself.
fn asks(face: Face, asked: bool, word: &str) -> bool
    ensures { result ≡ (not asked && has_value (words.run_kind face word.now)) }
{
    !asked && matches!(run_option(face, word), Some(Kind::Valued))
}
