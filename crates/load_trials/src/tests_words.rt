//! The words of `run` and `list-tests`.

use std::alloc::Global;
use sub_number::Text;
use testr_cli::{
    Command, Face, FormatKind, LiveKind, Question, Verb, read_command, read_command_as,
};

fn push_words(alloc: Global, list: &mut Vec<String>, words: &[&str]) -> Option<()> {
    for word in words {
        let word = String::from_str(alloc, word).ok()?;
        list.push(word).ok()?;
    }
    Some(())
}

fn owned(alloc: Global, words: &[&str]) -> Option<Vec<String>> {
    let mut list = Vec::new(alloc);
    push_words(alloc, &mut list, words)?;
    Some(list)
}

// The command that these words are behind the name of this face.
fn read_by(alloc: Global, face: Face, words: &[&str]) -> Option<Command> {
    let words = owned(alloc, words)?;
    read_command_as(alloc, face, &words).ok()?
}

// The command that these words are behind `testr`.
fn read(alloc: Global, words: &[&str]) -> Option<Command> {
    let words = owned(alloc, words)?;
    read_command(alloc, &words).ok()?
}

fn is_no_command(alloc: Global, words: &[&str]) -> bool {
    let Some(words) = owned(alloc, words) else {
        return false;
    };
    matches!(read_command(alloc, &words), Ok(None))
}

fn is_word(bytes: &[u8], word: &str) -> bool {
    bytes == word.as_bytes()
}

// Whether these are the texts, in this order.
fn are_words(texts: &[Text], wanted: &[&str]) -> bool {
    if texts.len() != wanted.len() {
        return false;
    }
    for (text, word) in texts.iter().zip(wanted) {
        if !is_word(text.bytes(), word) {
            return false;
        }
    }
    true
}

// Whether the command has these names, in this order.
fn has_names(command: &Command, wanted: &[&str]) -> bool {
    are_words(command.names.list(), wanted)
}

// Whether this file is named, where one is wanted.
fn is_file(file: &Option<Text>, wanted: Option<&str>) -> bool {
    match file {
        Some(file) => wanted.is_some_and(|name| is_word(file.bytes(), name)),
        None => wanted.is_none(),
    }
}

// What is left out: the patterns, and the files of further ones: those that exclude, and those that include.
type LeftOut = (
    &'static [&'static str],
    Option<&'static str>,
    Option<&'static str>,
);

// Whether the words leave out this.
fn leaves_out(alloc: Global, words: &[&str], wanted: &LeftOut) -> bool {
    match read(alloc, words) {
        Some(command) => {
            are_words(command.excluded.list(), wanted.0)
                && is_file(&command.exclude_list, wanted.1)
                && is_file(&command.include_list, wanted.2)
                && has_names(&command, &["a"])
        }
        None => false,
    }
}

// Whether the words are a run with these flags, and nothing else.
fn is_run_with(alloc: Global, words: &[&str], flags: [bool; 3]) -> bool {
    let Some(command) = read(alloc, words) else {
        return false;
    };
    command.verb == Verb::Run
        && [command.partial, command.failing, command.parallel] == flags
        && command.concurrency == 0
        && command.load_list.is_none()
        && has_names(&command, &[])
}

// Whether the words ask for so many workers, and for more than there may be.
fn are_workers(alloc: Global, words: &[&str], number: u32, too_many: bool) -> bool {
    match read(alloc, words) {
        Some(command) => command.concurrency == number && command.too_many == too_many,
        None => false,
    }
}

// Whether the words ask for the ids of this file.
fn is_load_list(alloc: Global, words: &[&str], wanted: &str) -> bool {
    let Some(command) = read(alloc, words) else {
        return false;
    };
    match &command.load_list {
        Some(file) => is_word(file.bytes(), wanted),
        None => false,
    }
}

// Whether the words are a command of this verb with these names.
fn is_named(alloc: Global, words: &[&str], verb: Verb, wanted: &[&str]) -> bool {
    match read(alloc, words) {
        Some(command) => command.verb == verb && has_names(&command, wanted),
        None => false,
    }
}

const FLAGS: [(&[&str], [bool; 3]); 6] = [
    (&["run"], [false, false, false]),
    (&["run", "--partial"], [true, false, false]),
    (&["run", "--failing"], [false, true, false]),
    (&["run", "--parallel"], [false, false, true]),
    (
        &["run", "--full-results", "--no-subunit-trace"],
        [false, false, false],
    ),
    (
        &["run", "--parallel", "--failing", "--partial", "--failing"],
        [true, true, true],
    ),
];

#[test]
fn flags_of_a_run_stand_in_any_order_and_may_be_repeated(rt: HostRuntime) {
    let alloc = rt.alloc();
    for (row, (words, flags)) in FLAGS.iter().enumerate() {
        assert!(rt; is_run_with(alloc, words, *flags), "row {row}");
    }
}

const NUMBERS: [(&[&str], u32, bool); 14] = [
    (&["run", "--concurrency=0"], 0, false),
    (&["run", "--concurrency=1"], 1, false),
    (&["run", "--concurrency=10"], 10, false),
    (&["run", "--concurrency", "64"], 64, false),
    (&["run", "--concurrency", "65"], 64, true),
    (&["run", "--concurrency=100"], 64, true),
    (&["run", "--concurrency=4294967295"], 64, true),
    (&["run", "--concurrency=4294967296"], 64, true),
    (&["run", "--concurrency=18446744073709551617"], 64, true),
    // A number of more than 64 digits.
    (
        &[
            "run",
            "--concurrency=10000000000000000000000000000000000000000000000000000000000000000000000",
        ],
        64,
        true,
    ),
    (&["run", "--concurrency=3", "--concurrency=2"], 2, false),
    (
        &["run", "--concurrency=3", "a", "--concurrency", "0"],
        0,
        false,
    ),
    (&["run", "--concurrency=65", "--concurrency=2"], 2, false),
    (&["run", "--concurrency=2", "--concurrency=65"], 64, true),
];

#[test]
fn the_last_number_of_workers_stands(rt: HostRuntime) {
    let alloc = rt.alloc();
    for (row, (words, number, too_many)) in NUMBERS.iter().enumerate() {
        assert!(rt; are_workers(alloc, words, *number, *too_many), "row {row}");
    }
}

const NO_NUMBERS: [&str; 13] = [
    "",
    "064",
    "0000000000000000000000",
    "1000000000000000000000x",
    "x",
    "1x",
    "+1",
    "-1",
    "00",
    "01",
    " 1",
    "1 ",
    "1.0",
];

#[test]
fn the_number_of_workers_is_a_decimal(rt: HostRuntime) {
    let alloc = rt.alloc();
    for (row, value) in NO_NUMBERS.iter().enumerate() {
        assert!(rt;
            is_no_command(alloc, &["run", "--concurrency", *value]),
            "row {row}"
        );
    }
}

const WRONG_VALUES: [&[&str]; 5] = [
    &["run", "--concurrency=x", "--concurrency=3"],
    &["run", "--concurrency=3", "--concurrency=x"],
    &["run", "--concurrency=065", "--concurrency=64"],
    &["run", "--concurrency=", "--concurrency=3"],
    // The next word is the value, whatever it begins with.
    &["run", "--concurrency", "--concurrency=3"],
];

#[test]
fn a_value_that_is_no_number_is_refused_wherever_it_stands(rt: HostRuntime) {
    let alloc = rt.alloc();
    for (row, words) in WRONG_VALUES.iter().enumerate() {
        assert!(rt; is_no_command(alloc, words), "row {row}");
    }
}

const NO_SHARDS: [&str; 14] = [
    "",
    "1",
    "/",
    "1/",
    "/1",
    "0/1",
    "2/1",
    "1/1025",
    "1025/1025",
    "01/2",
    "1/02",
    "1/2/3",
    " 1/2",
    "+1/2",
];

#[test]
fn a_shard_is_one_of_so_many(rt: HostRuntime) {
    let alloc = rt.alloc();
    for (row, value) in NO_SHARDS.iter().enumerate() {
        assert!(rt;
            is_no_command(alloc, &["run", "--shard", *value]),
            "row {row}"
        );
    }
}

const WRONG_SHARDS: [&[&str]; 7] = [
    &["run", "--shard=x", "--shard=1/2"],
    &["run", "--shard=1/2", "--shard=2/1"],
    &["list-tests", "--shard=3/2"],
    &["load", "--shard=1/2"],
    &["run", "--times=t"],
    &["list-tests", "--times=t", "--times", "u"],
    &["run", "--shard=1/2", "--times"],
];

#[test]
fn a_value_that_is_no_shard_and_times_without_one_are_refused(rt: HostRuntime) {
    let alloc = rt.alloc();
    for (row, words) in WRONG_SHARDS.iter().enumerate() {
        assert!(rt; is_no_command(alloc, words), "row {row}");
    }
}

const FILES: [(&[&str], &str); 8] = [
    (&["run", "--load-list=ids"], "ids"),
    (&["run", "--load-list", "ids"], "ids"),
    (&["run", "--load-list=a=b"], "a=b"),
    (&["run", "--load-list="], ""),
    (&["run", "--load-list", ""], ""),
    (&["run", "--load-list", "--partial"], "--partial"),
    (&["run", "--load-list=a", "--load-list=b"], "b"),
    (&["run", "--load-list=a", "x", "--load-list="], ""),
];

#[test]
fn the_last_load_list_stands(rt: HostRuntime) {
    let alloc = rt.alloc();
    for (row, (words, file)) in FILES.iter().enumerate() {
        assert!(rt; is_load_list(alloc, words, file), "row {row}");
    }
}

const LEFT_OUT: [(&[&str], LeftOut); 6] = [
    (&["run", "a"], (&[], None, None)),
    (
        &[
            "run",
            "--exclude-regex=b",
            "a",
            "--exclude-regex",
            "--partial",
        ],
        (&["b", "--partial"], None, None),
    ),
    (
        &["list-tests", "--exclude-regex=", "--exclude-regex=(", "a"],
        (&["", "("], None, None),
    ),
    (
        &["run", "--exclude-list=e", "a", "--exclude-list=f"],
        (&[], Some("f"), None),
    ),
    (
        &["list-tests", "a", "--include-list", "i"],
        (&[], None, Some("i")),
    ),
    (
        &[
            "run",
            "--include-list=",
            "--exclude-list=e",
            "--exclude-regex=b",
            "a",
        ],
        (&["b"], Some("e"), Some("")),
    ),
];

#[test]
fn excluded_patterns_add_up_and_the_last_files_stand(rt: HostRuntime) {
    let alloc = rt.alloc();
    for (row, (words, wanted)) in LEFT_OUT.iter().enumerate() {
        assert!(rt; leaves_out(alloc, words, wanted), "row {row}");
    }
}

const NAMES: [(&[&str], Verb, &[&str]); 5] = [
    (
        &["run", "b", "--failing", "a", "b"],
        Verb::Run,
        &["b", "a", "b"],
    ),
    (&["run", "-", "", "("], Verb::Run, &["-", "", "("]),
    (&["list-tests"], Verb::ListTests, &[]),
    (&["list-tests", "b", "a"], Verb::ListTests, &["b", "a"]),
    (&["list-tests", "-", "\n"], Verb::ListTests, &["-", "\n"]),
];

#[test]
fn patterns_are_names_in_their_order(rt: HostRuntime) {
    let alloc = rt.alloc();
    for (row, (words, verb, names)) in NAMES.iter().enumerate() {
        assert!(rt; is_named(alloc, words, *verb, names), "row {row}");
    }
}

#[test]
fn there_may_be_more_than_64_patterns(rt: HostRuntime) {
    let alloc = rt.alloc();
    let mut words = ["a"; 66];
    words[0] = "run";
    assert!(rt; is_named(alloc, &words, Verb::Run, &["a"; 65]));
    words[0] = "list-tests";
    assert!(rt; is_named(alloc, &words, Verb::ListTests, &["a"; 65]));
    words[0] = "load";
    assert!(rt; is_no_command(alloc, &words));
}

const FORCES: [(&[&str], bool); 6] = [
    (&["load"], false),
    (&["load", "--force-init"], true),
    (
        &["load", "a", "--force-init", "--partial", "--force-init"],
        true,
    ),
    (&["run"], false),
    (&["run", "--force-init"], true),
    (&["run", "--load-list=a", "--force-init", "b"], true),
];

// Whether the words ask that a repository is made where there is none.
fn forces(alloc: Global, words: &[&str]) -> Option<bool> {
    Some(read(alloc, words)?.forces())
}

// What `stestr` reads: whether its workers run side by side, and whether a repository is made first.
const OF_STESTR: [(&[&str], Verb, bool, bool); 8] = [
    (&["run"], Verb::Run, true, true),
    (&["run", "--parallel", "a"], Verb::Run, true, true),
    (&["run", "--serial"], Verb::Run, false, true),
    (&["run", "--serial", "--parallel"], Verb::Run, false, true),
    (&["load"], Verb::Load, false, true),
    (&["list"], Verb::ListTests, false, false),
    (&["list-tests", "a"], Verb::ListTests, false, false),
    (&["last"], Verb::Last, false, false),
];

// Whether the words behind `stestr` are a command of this verb, with these two.
fn is_of_stestr(alloc: Global, words: &[&str], verb: Verb, wanted: [bool; 2]) -> bool {
    match read_by(alloc, Face::Stestr, words) {
        Some(command) => command.verb == verb && [command.parallel, command.forces()] == wanted,
        None => false,
    }
}

#[test]
fn stestr_asks_for_some_things_by_default(rt: HostRuntime) {
    let alloc = rt.alloc();
    for (row, (words, verb, parallel, made)) in OF_STESTR.iter().enumerate() {
        assert!(rt;
            is_of_stestr(alloc, words, *verb, [*parallel, *made]),
            "row {row}"
        );
    }
}

#[test]
fn loads_and_runs_may_make_a_repository(rt: HostRuntime) {
    let alloc = rt.alloc();
    for (row, (words, wanted)) in FORCES.iter().enumerate() {
        assert!(rt; forces(alloc, words) == Some(*wanted), "row {row}");
    }
}

// Whether a run, a load or a question has no report, as these words ask.
const HIDES: [(&[&str], bool); 14] = [
    (&["load"], false),
    (&["load", "-q"], true),
    (&["load", "--quiet", "a", "-q"], true),
    (&["run"], false),
    (&["run", "-q"], true),
    (&["run", "a", "--quiet"], true),
    // The word behind an option with a value is that value.
    (&["run", "--load-list", "-q"], false),
    (&["run", "--load-list", "-q", "-q"], true),
    (&["run", "--load-list=a", "-q"], true),
    (&["run", "--exclude-regex", "--load-list", "-q"], true),
    (&["last"], false),
    (&["last", "-q"], true),
    (&["last", "--skips", "-q"], true),
    // These bytes are no report.
    (&["last", "--subunit", "-q"], false),
];

// Whether the words ask that no report is printed.
fn hides(alloc: Global, words: &[&str]) -> Option<bool> {
    Some(read(alloc, words)?.hides_report())
}

#[test]
fn a_report_may_be_left_out(rt: HostRuntime) {
    let alloc = rt.alloc();
    for (row, (words, wanted)) in HIDES.iter().enumerate() {
        assert!(rt; hides(alloc, words) == Some(*wanted), "row {row}");
    }
    assert!(rt; is_load_list(alloc, &["run", "--load-list", "-q"], "-q"));
    assert!(rt; is_no_command(alloc, &["run", "--load-list=a", "-q", "-x"]));
}

// For whom a report is printed, as these words ask.
const FORMATS: [(&[&str], FormatKind); 10] = [
    (&["last"], FormatKind::Plain),
    (&["last", "--format=text"], FormatKind::Plain),
    (&["last", "--format=github"], FormatKind::Github),
    (
        &["last", "--format", "github", "--skips"],
        FormatKind::Github,
    ),
    // The last one stands.
    (
        &["last", "--format=github", "--format=text"],
        FormatKind::Plain,
    ),
    (
        &["last", "--format=text", "--format=github"],
        FormatKind::Github,
    ),
    (&["last", "--format=github", "-q"], FormatKind::Github),
    (&["load", "a", "--format=github"], FormatKind::Github),
    (&["run", "--format=github", "a"], FormatKind::Github),
    (
        &["run", "--format=github", "--", "--format=text"],
        FormatKind::Github,
    ),
];

fn format_of(alloc: Global, words: &[&str]) -> Option<FormatKind> {
    Some(read(alloc, words)?.format)
}

#[test]
fn the_last_format_stands(rt: HostRuntime) {
    let alloc = rt.alloc();
    for (row, (words, wanted)) in FORMATS.iter().enumerate() {
        assert!(rt; format_of(alloc, words) == Some(*wanted), "row {row}");
    }
}

// What `failing` asks, as these words ask.
const FAILING_QUESTIONS: [(&[&str], Question); 7] = [
    (&["failing"], Question::Failing { list: false }),
    (&["failing", "--list"], Question::Failing { list: true }),
    (&["failing", "--full"], Question::LastFailures),
    (&["failing", "--subunit"], Question::FailurePackets),
    (
        &["failing", "--full", "--subunit", "--list"],
        Question::FailurePackets,
    ),
    (
        &["failing", "--full", "--list"],
        Question::Failing { list: true },
    ),
    (
        &["failing", "--list", "--full"],
        Question::Failing { list: true },
    ),
];

fn failing_asked(alloc: Global, words: &[&str]) -> Option<Question> {
    Some(read(alloc, words)?.failing_question())
}

#[test]
fn a_list_stands_before_last_failures(rt: HostRuntime) {
    let alloc = rt.alloc();
    for (row, (words, wanted)) in FAILING_QUESTIONS.iter().enumerate() {
        assert!(rt; failing_asked(alloc, words) == Some(*wanted), "row {row}");
    }
}

// What `last` asks, as these words ask.
const LAST_QUESTIONS: [(&[&str], Question); 6] = [
    (&["last"], Question::Last { subunit: false }),
    (&["last", "--skips"], Question::Skips),
    (
        &["last", "--format=github"],
        Question::Notes { skips: false },
    ),
    (
        &["last", "--format=github", "--skips"],
        Question::Notes { skips: true },
    ),
    (
        &["last", "--format=github", "--subunit"],
        Question::Last { subunit: true },
    ),
    (
        &["last", "--format=text", "--skips", "--subunit"],
        Question::Last { subunit: true },
    ),
];

fn last_asked(alloc: Global, words: &[&str]) -> Option<Question> {
    Some(read(alloc, words)?.last_question())
}

#[test]
fn notes_are_asked_for_where_no_bytes_are(rt: HostRuntime) {
    let alloc = rt.alloc();
    for (row, (words, wanted)) in LAST_QUESTIONS.iter().enumerate() {
        assert!(rt; last_asked(alloc, words) == Some(*wanted), "row {row}");
    }
}

// Which lines a run or a load says, and whether it prints its packets, as these words ask.
const SAYS: [(&[&str], LiveKind, bool); 14] = [
    (&["run"], LiveKind::Nothing, false),
    (&["run", "--live=none"], LiveKind::Nothing, false),
    (&["run", "--live=tests"], LiveKind::Tests, false),
    (&["run", "--live", "failures"], LiveKind::Failures, false),
    (
        &["run", "a", "--live=dots", "--subunit"],
        LiveKind::Dots,
        true,
    ),
    // The last one stands.
    (
        &["run", "--live=dots", "--live=tests"],
        LiveKind::Tests,
        false,
    ),
    (
        &["run", "--live=dots", "--live=none"],
        LiveKind::Nothing,
        false,
    ),
    (&["run", "--subunit", "-q"], LiveKind::Nothing, true),
    (
        &["run", "--load-list", "--subunit"],
        LiveKind::Nothing,
        false,
    ),
    (
        &["run", "--", "--live=dots", "--subunit"],
        LiveKind::Nothing,
        false,
    ),
    (&["load"], LiveKind::Nothing, false),
    (&["load", "--live=dots", "a"], LiveKind::Dots, false),
    (
        &["load", "--subunit", "--live", "tests"],
        LiveKind::Tests,
        true,
    ),
    // These are a run's bytes that is there.
    (&["last", "--subunit"], LiveKind::Nothing, false),
];

// Whether the words ask for these lines, and for packets or not.
fn says(alloc: Global, words: &[&str], live: LiveKind, stream: bool) -> Option<bool> {
    let command = read(alloc, words)?;
    Some(command.live_kind() == live && command.streams() == stream)
}

#[test]
fn a_run_may_be_said(rt: HostRuntime) {
    let alloc = rt.alloc();
    for (row, (words, live, stream)) in SAYS.iter().enumerate() {
        assert!(rt;
            says(alloc, words, *live, *stream) == Some(true),
            "row {row}"
        );
    }
}

const NO_COMMANDS: [&[&str]; 64] = [
    &["runn"],
    &["Run"],
    &["list"],
    &["load", "--"],
    &["list-tests", "--", "a"],
    &["run", "--=a"],
    &["run", "--", "a\0"],
    &["run", "--test-path=$a"],
    &["run", "--top-dir=`a`", "--top-dir=a"],
    &["list-tests", "--group-regex=a"],
    &["run", "--partial=1"],
    &["run", "--failing="],
    &["run", "--concurrency"],
    &["run", "--load-list"],
    &["run", "--load"],
    &["run", "--subunit=1"],
    &["run", "--live"],
    &["run", "--live=all"],
    &["run", "--live=all", "--live=dots"],
    &["run", "--live", "--subunit"],
    &["load", "--live"],
    &["load", "--live=all"],
    &["load", "--subunit=1"],
    &["last", "--live=dots"],
    &["last", "--format"],
    &["last", "--format="],
    &["last", "--format=junit"],
    &["last", "--format=GitHub", "--format=text"],
    &["failing", "--format=text"],
    &["failing", "--full=1"],
    &["failing", "x"],
    &["last", "--full"],
    &["run", "--format=html"],
    &["load", "--format"],
    &["list-tests", "--format=github"],
    &["list-tests", "--subunit"],
    &["run", "-p"],
    &["run", "a\0"],
    &["run", "--load-list=a\0"],
    &["run", "--load-list", "a\0"],
    &["list-tests", "--partial"],
    &["list-tests", "--load-list=a"],
    &["list-tests", "a\0"],
    &["list-tests", "--exclude-regex"],
    &["run", "--exclude-regex=a\0"],
    &["run", "--exclude"],
    &["load", "--exclude-list=a"],
    &["run", "--full-results=1"],
    &["failing", "--full-results"],
    &["load", "--failing"],
    &["load", "--concurrency=1"],
    &["init", "--force-init"],
    &["load", "--force-init="],
    &["last", "--force-init"],
    &["list-tests", "--force-init"],
    &["run", "--serial"],
    &["run", "--quiet=1"],
    &["load", "-qq"],
    &["last", "-q="],
    &["init", "-q"],
    &["list-tests", "-q"],
    &["failing", "--quiet"],
    &["stats", "-q"],
    &["run", "--load-list=a", "--load-list", "-q", "-p"],
];

// What is said of a project: its path, its folder of modules, its pattern, and the words behind `--`; an empty one is none.
type OfProject<'a> = (&'a [&'a str], [&'a str; 3], &'a [&'a str]);

const OF_PROJECTS: [OfProject<'static>; 8] = [
    (&["run"], ["", "", ""], &[]),
    (
        &["run", "--", "-v", "--", ""],
        ["", "", ""],
        &["-v", "--", ""],
    ),
    (&["run", "--"], ["", "", ""], &[]),
    (
        &["run", "a", "--test-path", "--", "--", "x"],
        ["--", "", ""],
        &["x"],
    ),
    (
        &["run", "--test-path=a", "--test-path=b c"],
        ["b c", "", ""],
        &[],
    ),
    (
        &["run", "--top-dir=a", "--group-regex=b$"],
        ["", "a", "b$"],
        &[],
    ),
    (
        &["run", "--group-regex", "a", "--", "--group-regex=b"],
        ["", "", "a"],
        &["--group-regex=b"],
    ),
    (
        &["list-tests", "--top-dir", "a", "--test-path=b", "c"],
        ["b", "a", ""],
        &[],
    ),
];

// Whether this is the text, or there is none and the word is empty.
fn is_text(text: &Option<Text>, word: &str) -> bool {
    match text {
        Some(text) => is_word(text.bytes(), word),
        None => word.is_empty(),
    }
}

fn is_of_project(alloc: Global, row: &OfProject<'_>) -> Option<bool> {
    let project = read(alloc, row.0)?.project;
    let [path, dir, pattern] = row.1;
    Some(
        is_text(&project.test_path, path)
            && is_text(&project.top_dir, dir)
            && is_text(&project.group_regex, pattern)
            && are_words(project.arguments.list(), row.2),
    )
}

#[test]
fn runs_and_lists_say_something_of_their_project(rt: HostRuntime) {
    let alloc = rt.alloc();
    for (row, words) in OF_PROJECTS.iter().enumerate() {
        assert!(rt; is_of_project(alloc, words) == Some(true), "row {row}");
    }
}

#[test]
fn other_words_of_runs_and_lists_are_refused(rt: HostRuntime) {
    let alloc = rt.alloc();
    for (row, words) in NO_COMMANDS.iter().enumerate() {
        assert!(rt; is_no_command(alloc, words), "row {row}");
    }
}
