//! Reads the words of the command line.

ghost use Rattle.std.specs.Prelude.{◌≡◌, ◌++◌, true, map, option_map, IfOk};
ghost use Rattle.command_words.specs.Code.{item_meant};
ghost use Rattle.command_words.specs.Items.{texts, is_text};
ghost use Rattle.std.specs.List.{list_all};
ghost use Rattle.testr_words.specs.Words.{face_of, face_in, verb_of, verb_by, option_kinds, only_flag, load_kind, last_kind, failing_kind, run_kind, choosing_kind, idle_or, quiet_or, is_run_flag as is_flag_of_run, is_face_flag as is_flag_of_face, parallel_by, made_first_by, most_names, may_have as may_have_these, may_time as may_time_these, names_in, names_of, if_texts, command_of_names as command_of_these_names, command_of_drawing, drawing_in as drawing_of_items, command_of_items, command_of_verb, command_of, list_kind, is_run_option as is_option_of_run, command_behind as command_of_parts, with_project as with_this_project};
ghost use Rattle.testr_words.specs.declared.command.Face.TheVariants.{Testr};

use crate::command::{Command, Face, ProjectWords, Verb};
use crate::format::{FormatKind, format_in};
use crate::letters::spelled_out_words;
use crate::live_kind::{LiveKind, live_in};
use crate::project::{project_in, split_at_end_word};
use crate::selftest_words::drawing_in;
use crate::shard::{Shard, shard_in};
use crate::values::{are_too_many_in, file_in, push_text, texts_in, workers_in};
use command_words::{Item, Kind, OptionTable, has_flag, read_items};
use std::alloc::Global;
use sub_number::{IdList, NoMemory, Text};

/// How many files a load may be given.
pub const MOST_FILES: usize = 64;

/// The face that the first word names; none where it is none of them.
pub fn face_named(words: &[String]) -> Option<Face>
    ensures { result ≡ face_in (texts words.now) }
{
    match words {
        [word, ..] => face(word.as_str()),
        [] => None,
    }
}

fn face(word: &str) -> Option<Face>
    ensures { result ≡ face_of word.now }
{
    match word {
        "testr" => Some(Face::Testr),
        "stestr" => Some(Face::Stestr),
        _ => None,
    }
}

/// The command that the words behind `testr` are. None comes exactly where they are none.
pub fn read_command(alloc: Global, words: &[String]) -> Result<Option<Command>, NoMemory>
    ensures { IfOk result (λ command. command ≡ command_of Testr (texts words.now)) }
{
    read_command_as(alloc, Face::Testr, words)
}

/// The command that the words behind the name of this face are. None comes exactly where they are none.
pub fn read_command_as(
    alloc: Global,
    face: Face,
    words: &[String],
) -> Result<Option<Command>, NoMemory>
    ensures { IfOk result (λ command. command ≡ command_of face (texts words.now)) }
{
    let Some((word, rest)) = words.split_first() else {
        return Ok(None);
    };
    match verb(face, word.as_str()) {
        Some(verb) => reads_behind(alloc, face, verb, rest),
        None => Ok(None),
    }
}

fn verb(face: Face, word: &str) -> Option<Verb>
    ensures { result ≡ verb_by face word.now }
{
    match face {
        Face::Testr => named_verb(word),
        Face::Stestr => {
            if word == "list" {
                Some(Verb::ListTests)
            } else {
                named_verb(word)
            }
        }
    }
}

fn named_verb(word: &str) -> Option<Verb>
    ensures { result ≡ verb_of word.now }
{
    match word {
        "init" => Some(Verb::Init),
        "load" => Some(Verb::Load),
        "run" => Some(Verb::Run),
        "last" => Some(Verb::Last),
        "failing" => Some(Verb::Failing),
        "slowest" => Some(Verb::Slowest),
        "stats" => Some(Verb::Stats),
        "list-tests" => Some(Verb::ListTests),
        "selftest" => Some(Verb::SelfTest),
        "upgrade" => Some(Verb::Upgrade),
        _ => None,
    }
}

// The options of a verb.
#[derive(Clone, Copy)]
struct Options {
    face: Face,
    verb: Verb,
}

impl OptionTable for Options {
    ghost kinds = { λ options word. option_kinds options.face options.verb word };

    fn kind(&self, name: &str) -> Option<Kind> {
        match self.verb {
            Verb::Load => quiet_or(name, idle_or(name, load_option(name))),
            Verb::Run => quiet_or(name, idle_or(name, run_option(self.face, name))),
            Verb::Last => quiet_or(name, idle_or(name, last_option(name))),
            Verb::Failing => failing_option(name),
            Verb::Slowest => flag(name, "--all"),
            Verb::ListTests => list_option(name),
            Verb::Init | Verb::Stats | Verb::SelfTest | Verb::Upgrade => None,
        }
    }
}

// The option is a flag of this name, or none.
fn flag(name: &str, key: &str) -> Option<Kind>
    ensures { result ≡ only_flag key.now name.now }
{
    if name == key { Some(Kind::Flag) } else { None }
}

// The option is a flag that is taken and does nothing, or what it is else.
fn idle_or(name: &str, kind: Option<Kind>) -> Option<Kind>
    ensures { result ≡ idle_or name.now kind }
{
    match name {
        "--full-results" | "--no-subunit-trace" => Some(Kind::Flag),
        _ => kind,
    }
}

// The option is the flag that leaves out the report, or what it is else.
fn quiet_or(name: &str, kind: Option<Kind>) -> Option<Kind>
    ensures { result ≡ quiet_or name.now kind }
{
    if name == "--quiet" {
        Some(Kind::Flag)
    } else {
        kind
    }
}

// The option is one of those of the last run, or none.
fn last_option(name: &str) -> Option<Kind>
    ensures { result ≡ last_kind name.now }
{
    if name == "--subunit" || name == "--skips" {
        return Some(Kind::Flag);
    }
    if name == "--format" {
        return Some(Kind::Valued);
    }
    None
}

// The option is one of those of the failing set, or none.
fn failing_option(name: &str) -> Option<Kind>
    ensures { result ≡ failing_kind name.now }
{
    if name == "--list" || name == "--full" || name == "--subunit" {
        return Some(Kind::Flag);
    }
    None
}

// The option is one of those of a load, or none.
fn load_option(name: &str) -> Option<Kind>
    ensures { result ≡ load_kind name.now }
{
    if name == "--partial" || name == "--force-init" || name == "--subunit" {
        return Some(Kind::Flag);
    }
    if name == "--live" || name == "--format" || name == "--expect" {
        return Some(Kind::Valued);
    }
    None
}

// The option is one of those of a run, or none.
pub(crate) fn run_option(face: Face, name: &str) -> Option<Kind>
    ensures { result ≡ run_kind face name.now }
{
    if is_run_flag(name) || is_face_flag(face, name) {
        return Some(Kind::Flag);
    }
    if is_run_option(name) {
        return Some(Kind::Valued);
    }
    list_option(name)
}

// Whether it is an option with a value that a run alone has.
fn is_run_option(name: &str) -> bool
    ensures { result ≡ is_option_of_run name.now }
{
    name == "--concurrency"
        || name == "--load-list"
        || name == "--group-regex"
        || name == "--live"
        || name == "--format"
}

// The option is one of those of a listing, or none.
fn list_option(name: &str) -> Option<Kind>
    ensures { result ≡ list_kind name.now }
{
    match name {
        "--test-path" | "--top-dir" => Some(Kind::Valued),
        _ => choosing_option(name),
    }
}

fn is_run_flag(name: &str) -> bool
    ensures { result ≡ is_flag_of_run name.now }
{
    name == "--partial"
        || name == "--failing"
        || name == "--parallel"
        || name == "--find-causes"
        || name == "--force-init"
        || name == "--subunit"
}

// Whether it is a flag of a run that this face alone has.
fn is_face_flag(face: Face, name: &str) -> bool
    ensures { result ≡ is_flag_of_face face name.now }
{
    match face {
        Face::Testr => false,
        Face::Stestr => name == "--serial",
    }
}

// The option is one of those that choose tests by patterns or a shard, or name the times that the shard goes by, or none.
fn choosing_option(name: &str) -> Option<Kind>
    ensures { result ≡ choosing_kind name.now }
{
    match name {
        "--exclude-regex" | "--exclude-list" | "--include-list" | "--shard" | "--times" => {
            Some(Kind::Valued)
        }
        _ => None,
    }
}

// The command of this verb and the words behind it.
fn reads_behind(
    alloc: Global,
    face: Face,
    verb: Verb,
    words: &[String],
) -> Result<Option<Command>, NoMemory>
    ensures { IfOk result (λ command. command ≡ command_of_verb face (texts words.now) verb) }
{
    let (options, arguments) = split_at_end_word(face, verb, words);
    command_behind(alloc, face, verb, options, arguments)
}

// The command of this verb, these options and names, and the words behind them.
fn command_behind(
    alloc: Global,
    face: Face,
    verb: Verb,
    options: &[String],
    arguments: &[String],
) -> Result<Option<Command>, NoMemory>
    ensures { IfOk result (λ command. command ≡ command_of_parts face verb (texts options.now) (texts arguments.now)) }
{
    let table = Options { face, verb };
    let words = spelled_out_words(alloc, &table, options)?;
    let Some(items) = read_items(alloc, &table, &words)? else {
        return Ok(None);
    };
    let Some(project) = project_in(alloc, &items, arguments)? else {
        return Ok(None);
    };
    command_of_project(alloc, face, verb, &items, project)
}

// The command of this verb and these options and names, which says this of the project.
fn command_of_project(
    alloc: Global,
    face: Face,
    verb: Verb,
    items: &[Item<'_>],
    project: ProjectWords,
) -> Result<Option<Command>, NoMemory>
    ensures { IfOk result (λ command. command ≡ option_map (with_this_project project) (command_of_items face verb (map item_meant items.now))) }
{
    match command(alloc, face, verb, items)? {
        Some(command) => Ok(Some(command.with_project(project))),
        None => Ok(None),
    }
}

// The command of this verb and these options and names.
fn command(
    alloc: Global,
    face: Face,
    verb: Verb,
    items: &[Item<'_>],
) -> Result<Option<Command>, NoMemory>
    ensures { IfOk result (λ command. command ≡ command_of_items face verb (map item_meant items.now)) }
{
    match verb {
        Verb::SelfTest => Ok(drawing_command(alloc, face, items)),
        _ => command_of_names(alloc, face, verb, items),
    }
}

// The command whose names are the numbers of a drawing. None comes exactly where they are none.
fn drawing_command(alloc: Global, face: Face, items: &[Item<'_>]) -> Option<Command>
    ensures { result ≡ option_map (command_of_drawing face) (drawing_of_items (map item_meant items.now)) }
{
    let drawing = drawing_in(items)?;
    Some(Command {
        face,
        verb: Verb::SelfTest,
        partial: false,
        force_init: false,
        failing: false,
        parallel: false,
        find_causes: false,
        concurrency: 0,
        too_many: false,
        load_list: None,
        expect: None,
        list: false,
        full: false,
        all: false,
        subunit: false,
        live: LiveKind::Nothing,
        skips: false,
        format: FormatKind::Plain,
        no_report: false,
        names: IdList::new(alloc),
        excluded: IdList::new(alloc),
        include_list: None,
        exclude_list: None,
        shard: None,
        times: None,
        project: ProjectWords::none(alloc),
        seed: drawing.seed,
        lanes: drawing.lanes,
        tests: drawing.tests,
    })
}

// How many names the verb has at most. None where there is no such number.
fn most(verb: Verb) -> Option<usize>
    ensures { result ≡ most_names verb }
{
    match verb {
        Verb::Load => Some(MOST_FILES),
        Verb::Run | Verb::ListTests => None,
        Verb::Init
        | Verb::Last
        | Verb::Failing
        | Verb::Slowest
        | Verb::Stats
        | Verb::SelfTest
        | Verb::Upgrade => Some(0),
    }
}

// Whether the verb may have so many names.
fn may_have(verb: Verb, names: usize) -> bool
    ensures { result ≡ may_have_these (most_names verb) names }
{
    match most(verb) {
        Some(most) => names <= most,
        None => true,
    }
}

// Whether a file of times, where one is named, has a shard to stand for.
fn may_time(shard: Option<Shard>, times: &Option<Text>) -> bool
    ensures { result ≡ may_time_these shard times.now }
{
    shard.is_some() || times.is_none()
}

// Whether several workers are asked for: by default, where the face is `stestr`.
fn is_parallel(face: Face, verb: Verb, items: &[Item<'_>]) -> bool
    ensures { result ≡ parallel_by face verb (map item_meant items.now) }
{
    match (face, verb) {
        (Face::Stestr, Verb::Run) => !has_flag(items, "--serial"),
        _ => has_flag(items, "--parallel"),
    }
}

// Whether a repository is made first, where there is none: of what keeps a run always, where the face is `stestr`.
fn is_made_first(face: Face, verb: Verb, items: &[Item<'_>]) -> bool
    ensures { result ≡ made_first_by face verb (map item_meant items.now) }
{
    match (face, verb) {
        (Face::Stestr, Verb::Load | Verb::Run) => true,
        _ => has_flag(items, "--force-init"),
    }
}

// The command of this verb and these options, whose names are files or patterns.
fn command_of_names(
    alloc: Global,
    face: Face,
    verb: Verb,
    items: &[Item<'_>],
) -> Result<Option<Command>, NoMemory>
    ensures { IfOk result (λ command. command ≡ command_of_these_names face verb (map item_meant items.now)) }
{
    let Some(names) = names(alloc, items)? else {
        return Ok(None);
    };
    let Some(concurrency) = workers_in(items) else {
        return Ok(None);
    };
    let Some(load_list) = file_in(alloc, items, "--load-list")? else {
        return Ok(None);
    };
    let Some(expect) = file_in(alloc, items, "--expect")? else {
        return Ok(None);
    };
    let Some(excluded) = texts_in(alloc, items, "--exclude-regex")? else {
        return Ok(None);
    };
    let Some(include_list) = file_in(alloc, items, "--include-list")? else {
        return Ok(None);
    };
    let Some(exclude_list) = file_in(alloc, items, "--exclude-list")? else {
        return Ok(None);
    };
    let Some(shard) = shard_in(items) else {
        return Ok(None);
    };
    let Some(times) = file_in(alloc, items, "--times")? else {
        return Ok(None);
    };
    let Some(live) = live_in(items) else {
        return Ok(None);
    };
    let Some(format) = format_in(items) else {
        return Ok(None);
    };
    if !(may_have(verb, names.list().len()) && may_time(shard, &times)) {
        return Ok(None);
    }
    Ok(Some(Command {
        face,
        verb,
        partial: has_flag(items, "--partial"),
        force_init: is_made_first(face, verb, items),
        failing: has_flag(items, "--failing"),
        parallel: is_parallel(face, verb, items),
        find_causes: has_flag(items, "--find-causes"),
        concurrency,
        too_many: are_too_many_in(items),
        load_list,
        expect,
        list: has_flag(items, "--list"),
        full: has_flag(items, "--full"),
        all: has_flag(items, "--all"),
        subunit: has_flag(items, "--subunit"),
        live,
        skips: has_flag(items, "--skips"),
        format,
        no_report: has_flag(items, "--quiet"),
        names,
        excluded,
        include_list,
        exclude_list,
        shard,
        times,
        project: ProjectWords::none(alloc),
        seed: 0,
        lanes: 0,
        tests: 0,
    }))
}

// The names among the items. None comes where one of them is no text.
fn names(alloc: Global, items: &[Item<'_>]) -> Result<Option<IdList>, NoMemory>
    ensures { IfOk result (λ names. names ≡ if_texts (names_in (map item_meant items.now))) }
{
    let mut names = IdList::new(alloc);
    for item in items {
        if !take_name(alloc, *item, &mut names)? {
            return Ok(None);
        }
    }
    Ok(Some(names))
}

// Adds the name that the item is, or nothing. False comes where it is no text.
fn take_name(alloc: Global, item: Item<'_>, names: &mut IdList) -> Result<bool, NoMemory>
    ensures added { IfOk result (λ taken. taken ≡ true → names.new ≡ names.old ++ names_of (item_meant item.entry)) }
    ensures texts { IfOk result (λ taken. taken ≡ list_all is_text (names_of (item_meant item.entry))) }
{
    let Item::Name(word) = item else {
        return Ok(true);
    };
    push_text(alloc, word, names)
}
