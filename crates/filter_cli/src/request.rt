//! What the words ask for: a filter, and the file that it reads.

ghost use Rattle.std.specs.Prelude.{◌≡◌, map, option_map, string_bytes, IfOk};
ghost use Rattle.std.specs.List.{list_any, before_first, after_first, position};
ghost use Rattle.command_words.specs.Items.{texts};
ghost use Rattle.command_words.specs.Code.{item_meant};
ghost use Rattle.sub_export.specs.Output as output;
ghost use Rattle.filter_cli.specs.Tracing.{trace_of};
ghost use Rattle.filter_cli.specs.Words as asking;
ghost use Rattle.filter_cli.specs.declared.request.Asked.TheVariants as wanted;

use crate::letters::spelled_out_words;
use crate::live_trace::{Trace, trace_of};
use crate::ls::Listing;
use crate::selection::{Selection, csv_selection_of, selection_of};
use crate::stats::Counting;
use crate::tag_changes::{TagChanges, read_retagging};
use crate::tool::{Tool, tool_of_first_word};
use command_words::{Item, has_flag, read_items, text_of};
use std::alloc::Global;
use sub_export::OutputJob;
use sub_number::{NoMemory, Text};

/// A filter, with what it is asked to do.
#[derive(Drop)]
pub enum Asked {
    /// `subunit-filter`: let through what is selected.
    Filter(Selection),
    /// `subunit-tags`: change the tags of all events.
    Tags(TagChanges),
    /// `subunit-ls`: list the tests.
    Ls(Listing),
    /// `subunit-stats`: count the tests.
    Stats(Counting),
    /// `tap2subunit`: lines of the Test Anything Protocol as packets.
    FromTap,
    /// `subunit2tap`: tests as lines of the Test Anything Protocol.
    ToTap,
    /// `subunit2csv`: the tests that are selected as records.
    ToCsv(Selection),
    /// `subunit2junitxml`: tests as a document for build servers.
    ToJunit,
    /// `subunit-output`: the events that words ask for.
    Output(OutputJob),
    /// `subunit-1to2`: lines of version 1 as packets.
    FromV1,
    /// `subunit-2to1`: tests as lines of version 1.
    ToV1,
    /// `subunit-trace`: lines of the tests, and their totals.
    Tracing(Trace),
}

/// A filter, and what it reads.
#[derive(Drop)]
pub struct Request {
    /// The filter, with what it is asked to do.
    pub asked: Asked,
    /// The name of the file that it reads in place of the input. Where there is none it reads the input, or nothing.
    pub file: Option<Text>,
}

/// What the words ask for. None comes exactly where they ask for no filter.
///
/// `NoMemory` does not come where the first word names no filter.
pub fn read_request(alloc: Global, words: &[String]) -> Result<Option<Request>, NoMemory>
    ensures { asking.ReadsRequest (texts words.now) result }
{
    let Some(tool) = tool_of_first_word(words) else {
        return Ok(None);
    };
    read_behind(alloc, tool, &words[1..])
}

// That of this name and these words behind it.
fn read_behind(alloc: Global, tool: Tool, words: &[String]) -> Result<Option<Request>, NoMemory>
    ensures { IfOk result (λ request. request ≡ asking.asked_by_tool tool (texts words.now)) }
{
    if tool == Tool::Tags {
        return read_tags(alloc, words);
    }
    if tool == Tool::Output {
        return read_output(alloc, words);
    }
    if tool == Tool::Filter {
        return by_letters(alloc, words);
    }
    by_options(alloc, tool, words)
}

fn by_options(alloc: Global, tool: Tool, words: &[String]) -> Result<Option<Request>, NoMemory>
    ensures { IfOk result (λ request. request ≡ asking.asked_by_options tool (texts words.now)) }
{
    match read_items(alloc, &tool, words)? {
        Some(items) => asked_with(alloc, tool, &items),
        None => Ok(None),
    }
}

// `subunit-filter` has options of one letter, too.
fn by_letters(alloc: Global, words: &[String]) -> Result<Option<Request>, NoMemory>
    ensures { IfOk result (λ request. request ≡ asking.asked_by_letters (texts words.now)) }
{
    let longer = spelled_out_words(alloc, words)?;
    by_options(alloc, Tool::Filter, &longer)
}

// Tags stand up to the separator, and behind it may stand the name of a file.
fn read_tags(alloc: Global, words: &[String]) -> Result<Option<Request>, NoMemory>
    ensures { IfOk result (λ request. request ≡ asking.asked_tags (texts words.now)) }
{
    let (tags, names) = parted(words);
    let asked = asked_tags(alloc, tags)?;
    let file = text_named(alloc, only_word(names))?;
    Ok(with_file(asked, file))
}

fn asked_tags(alloc: Global, tags: &[String]) -> Result<Option<Asked>, NoMemory>
    ensures { IfOk result (λ asked. asked ≡ asking.asked_change (texts tags.now)) }
{
    match read_retagging(alloc, tags)? {
        Some(retagging) => Ok(Some(Asked::Tags(retagging))),
        None => Ok(None),
    }
}

// The words up to the first separator, and those behind it.
fn parted(words: &[String]) -> (&[String], &[String])
    ensures front { texts result.0.now ≡ before_first asking.is_separator (texts words.now) }
    ensures behind { texts result.1.now ≡ after_first asking.is_separator (texts words.now) }
{
    match place_of_separator(words) {
        Some(place) => (&words[..place], &words[place + 1..]),
        None => (words, &[]),
    }
}

fn place_of_separator(words: &[String]) -> Option<usize>
    ensures { result ≡ position (λ word. asking.is_separator (string_bytes word)) words.now }
{
    words.iter().position(|word| is_separator(word.as_str()))
}

// Whether a file's name stands behind the word.
fn is_separator(word: &str) -> bool
    ensures { result ≡ asking.is_separator word.now }
{
    word == "--"
}

// The one word, or none where there is none; two and more are refused.
fn only_word(words: &[String]) -> Option<Option<&str>>
    ensures { option_map (option_map (λ word. word.now)) result ≡ asking.only_of (texts words.now) }
{
    match words {
        [] => Some(None),
        [word] => Some(Some(word.as_str())),
        _ => None,
    }
}

// The same of the words that are no options.
fn only_name<'a>(items: &[Item<'a>]) -> Option<Option<&'a str>>
    ensures { option_map (option_map (λ name. name.now)) result ≡ asking.only_of (asking.plain_words_in (map item_meant items.now)) }
{
    let mut found = None;
    for item in items {
        if let Item::Name(name) = item {
            if found.is_some() {
                return None;
            }
            found = Some(*name);
        }
    }
    Some(found)
}

// The file of the name that may be given, where none was refused.
fn text_named(alloc: Global, only: Option<Option<&str>>) -> Result<Option<Option<Text>>, NoMemory>
    ensures { IfOk result (λ file. file ≡ asking.text_of_only (option_map (option_map (λ name. name.now)) only.entry)) }
{
    match only {
        None => Ok(None),
        Some(None) => Ok(Some(None)),
        Some(Some(name)) => match text_of(alloc, name)? {
            Some(file) => Ok(Some(Some(file))),
            None => Ok(None),
        },
    }
}

fn with_file(asked: Option<Asked>, file: Option<Option<Text>>) -> Option<Request>
    ensures { result ≡ asking.with_named_file asked file }
{
    let asked = asked?;
    let file = file?;
    Some(Request { asked, file })
}

fn read_output(alloc: Global, words: &[String]) -> Result<Option<Request>, NoMemory>
    ensures { IfOk result (λ request. request ≡ asking.asked_output (texts words.now)) }
{
    match OutputJob::read(alloc, words)? {
        Some(job) => Ok(Some(job_request(job)?)),
        None => Ok(None),
    }
}

// The path of the file that the job attaches, where it is not standard input.
fn path_of(job: &OutputJob) -> Result<Option<Text>, NoMemory>
    ensures { IfOk result (λ path. path ≡ output.attached_path job.now) }
{
    match job.path() {
        Some(path) => Ok(Some(path.copy()?)),
        None => Ok(None),
    }
}

// The job with the file that it attaches by its name, where it does.
fn job_request(job: OutputJob) -> Result<Request, NoMemory>
    ensures { IfOk result (λ request. request ≡ asking.job_request job) }
{
    let file = path_of(&job)?;
    Ok(Request {
        asked: Asked::Output(job),
        file,
    })
}

// That of this name and these options.
fn asked_with(alloc: Global, tool: Tool, items: &[Item<'_>]) -> Result<Option<Request>, NoMemory>
    ensures { IfOk result (λ request. request ≡ asking.asked_with tool (map item_meant items.now)) }
{
    let asked = asked_for(alloc, tool, items)?;
    let file = text_named(alloc, only_name(items))?;
    Ok(with_file(asked, file))
}

// What a filter of options is asked, whatever names there are.
fn asked_for(alloc: Global, tool: Tool, items: &[Item<'_>]) -> Result<Option<Asked>, NoMemory>
    ensures { IfOk result (λ asked. asked ≡ asking.asked_by_items tool (map item_meant items.now)) }
{
    match tool {
        Tool::Filter => Ok(Some(Asked::Filter(selection_of(alloc, items)?))),
        Tool::Ls => Ok(Some(Asked::Ls(listing_of(items)))),
        Tool::Stats => Ok(Some(Asked::Stats(counting_of(items)))),
        Tool::FromTap => Ok(Some(Asked::FromTap)),
        Tool::ToTap => Ok(Some(Asked::ToTap)),
        Tool::ToCsv => Ok(Some(Asked::ToCsv(csv_selection_of(alloc, items)?))),
        Tool::ToJunit => Ok(Some(Asked::ToJunit)),
        Tool::FromV1 => Ok(Some(Asked::FromV1)),
        Tool::ToV1 => Ok(Some(Asked::ToV1)),
        Tool::Trace => Ok(asked_trace(items)),
        // Their words are read elsewhere.
        Tool::Tags | Tool::Output => Ok(None),
    }
}

// What `subunit-trace` is asked by these options.
fn asked_trace(items: &[Item<'_>]) -> Option<Asked>
    ensures { result ≡ option_map wanted.Tracing (trace_of (map item_meant items.now)) }
{
    match trace_of(items) {
        Some(trace) => Some(Asked::Tracing(trace)),
        None => None,
    }
}

fn listing_of(items: &[Item<'_>]) -> Listing
    ensures { result ≡ asking.listing_of (map item_meant items.now) }
{
    Listing {
        times: has_flag(items, "--times"),
        exists: has_flag(items, "--exists"),
        hidden: has_flag(items, "--no-passthrough"),
    }
}

fn counting_of(items: &[Item<'_>]) -> Counting
    ensures { result ≡ asking.counting_of (map item_meant items.now) }
{
    Counting {
        hidden: has_flag(items, "--no-passthrough"),
    }
}
