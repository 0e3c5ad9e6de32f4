//! Why the steps of `run` and `list-tests` refuse: the status of each refusal, and the line that tells of it.

ghost use Rattle.std.specs.Prelude.{◌≡◌, ◌++◌, codes};
ghost use Rattle.std.specs.Fmt.{decimal, signed_decimal};
ghost use Rattle.command_steps.specs.SuiteTexts.{bad_line_text, end_of_pattern, has_look_around, is_look_around, call_exit_status, call_said, call_text, listing_exit_status, listing_said, listing_refusal_text, key_text, table_key_text, conf_file_text, bad_conf_text};
ghost use Rattle.command_steps.specs.Telling.{line_text};

use crate::files::name_of;
use crate::refusal_line::{Line, Part, Refuses};
use crate::times_file::TimesRefusal;
use stestr_conf::TableKey;
use suite_causes::SearchFault;
use suite_plan::{
    BadConf, BadLine, CallRefusal, ConfFile, ConfRefusal, ListRefusal, ListingRefusal,
    PatternRefusal, TableRefusal,
};
use suite_run::{LanesRefusal, StartRefusal};
use testr_conf::{JobFault, Key};

pub(crate) const OUT_OF_MEMORY: &str = "testr: out of memory\n";

const FAULT_OF_A_FILE: &str = "testr: fault reading a file\n";

pub(crate) const FAULT_OF_A_START: &str = "testr: fault starting a program\n";

pub(crate) const FAULT_OF_A_CHILD: &str = "testr: fault reading a program\n";

impl<'a> Refuses<'a> for ConfRefusal {
    ghost use Rattle.command_steps.specs.SuiteTexts.{conf_exit_status, conf_text};

    ghost status = { conf_exit_status };

    ghost text = { conf_text };

    fn exit_status(self) -> u8 {
        match self {
            ConfRefusal::Absent | ConfRefusal::Bad(_, _) => 3,
            ConfRefusal::Site => 4,
            ConfRefusal::NoMemory => 5,
        }
    }

    fn line(self) -> Line<'a> {
        match self {
            ConfRefusal::Site => Line::of(FAULT_OF_A_FILE),
            ConfRefusal::Absent => Line::of("testr: no .testr.conf or .stestr.conf\n"),
            ConfRefusal::Bad(file, why) => conf_line(conf_file_name(file), why),
            ConfRefusal::NoMemory => Line::of(OUT_OF_MEMORY),
        }
    }
}

// The name of the configuration's file.
fn conf_file_name(file: ConfFile) -> &'static str
    ensures { result.now ≡ conf_file_text file }
{
    match file {
        ConfFile::TestrConf => ".testr.conf",
        ConfFile::StestrConf => ".stestr.conf",
        ConfFile::PyProject => "pyproject.toml",
    }
}

// What is told of a configuration of this name.
fn conf_line(name: &'static str, why: BadConf) -> Line<'static>
    ensures { line_text result ≡ codes "testr: " ++ name.now ++ bad_conf_text why }
{
    match why {
        BadConf::TooLong => conf_line_of(name, " is too long\n"),
        BadConf::BadLine(number) => conf_line_at(name, number, ": not a setting\n"),
        BadConf::NoSection(number) => conf_line_at(name, number, ": outside a section\n"),
        BadConf::Repeated(number) => conf_line_at(name, number, ": repeated\n"),
        BadConf::NoInstances => conf_line_of(name, ": no instances were provisioned\n"),
        BadConf::NoCommand => conf_line_of(name, ": no test_command\n"),
        BadConf::NoTestPath => conf_line_of(name, ": no test_path\n"),
        BadConf::NotToml => conf_line_of(name, ": no TOML\n"),
        BadConf::NotTable => conf_line_of(name, ": tool.stestr is no table\n"),
        BadConf::BadValue(key) => conf_line_of(name, value_rest(key)),
    }
}

// What is told behind the name where this key of the table has a value that it may not have.
fn value_rest(key: TableKey) -> &'static str
    ensures { result.now ≡ codes ": bad value of " ++ table_key_text key ++ codes "\n" }
{
    match key {
        TableKey::TestPath => ": bad value of test_path\n",
        TableKey::TopDir => ": bad value of top_dir\n",
        TableKey::GroupRegex => ": bad value of group_regex\n",
        TableKey::ParallelClass => ": bad value of parallel_class\n",
    }
}

// What is told of the configuration of this name.
fn conf_line_of(name: &'static str, rest: &'static str) -> Line<'static>
    ensures { line_text result ≡ codes "testr: " ++ name.now ++ rest.now }
{
    Line {
        front: "testr: ",
        part: Part::Name(name),
        rest,
    }
}

// What is told of a line of the configuration of this name.
fn conf_line_at(name: &'static str, number: u32, rest: &'static str) -> Line<'static>
    ensures { line_text result ≡ codes "testr: " ++ name.now ++ codes " line " ++ decimal number ++ rest.now }
{
    Line {
        front: "testr: ",
        part: Part::Place(name, number),
        rest,
    }
}

impl<'a> Refuses<'a> for PatternRefusal<'a> {
    ghost use Rattle.command_steps.specs.SuiteTexts.{pattern_exit_status, pattern_text};

    ghost status = { pattern_exit_status };

    ghost text = { pattern_text };

    fn exit_status(self) -> u8 {
        match self {
            PatternRefusal::Bad(_) => 3,
            PatternRefusal::NoMemory => 5,
        }
    }

    fn line(self) -> Line<'a> {
        match self {
            PatternRefusal::Bad(pattern) => Line {
                front: "testr: bad pattern: ",
                part: Part::Name(pattern),
                rest: end_of_pattern(pattern),
            },
            PatternRefusal::NoMemory => Line::of(OUT_OF_MEMORY),
        }
    }
}

// The line that tells of a line of a list that is no pattern.
pub(crate) fn pattern_line<'a>(line: &'a BadLine<'_>) -> Line<'a>
    ensures { line_text result ≡ bad_line_text line.now }
{
    let pattern = name_of(&line.pattern);
    Line {
        front: "testr: ",
        part: Part::Pattern(line.name, line.number, pattern),
        rest: end_of_pattern(pattern),
    }
}

// What stands behind a pattern that is refused.
fn end_of_pattern(pattern: &str) -> &'static str
    ensures { result.now ≡ end_of_pattern pattern.now }
{
    if has_look_around(pattern.as_bytes()) {
        "\ntestr: look-around is not known; --exclude-regex leaves tests out\n"
    } else {
        "\n"
    }
}

fn has_look_around(pattern: &[u8]) -> bool
    ensures { result ≡ has_look_around pattern.now }
{
    let mut rest = pattern;
    while let [_, behind @ ..] = rest {
        if is_look_around(rest) {
            return true;
        }
        rest = behind;
    }
    false
}

fn is_look_around(bytes: &[u8]) -> bool
    ensures { result ≡ is_look_around bytes.now }
{
    bytes.starts_with(b"(?!") || bytes.starts_with(b"(?=") || bytes.starts_with(b"(?<")
}

impl<'a> Refuses<'a> for ListRefusal<'a> {
    ghost use Rattle.command_steps.specs.SuiteTexts.{list_exit_status, list_text};

    ghost status = { list_exit_status };

    ghost text = { list_text };

    fn exit_status(self) -> u8 {
        match self {
            ListRefusal::TooLong(_) | ListRefusal::Absent(_) | ListRefusal::NotId(_, _) => 3,
            ListRefusal::Site => 4,
            ListRefusal::NoMemory => 5,
        }
    }

    fn line(self) -> Line<'a> {
        match self {
            ListRefusal::Site => Line::of(FAULT_OF_A_FILE),
            ListRefusal::TooLong(name) => Line {
                front: "testr: ",
                part: Part::Name(name),
                rest: " is too long\n",
            },
            ListRefusal::Absent(name) => Line {
                front: "testr: no file ",
                part: Part::Name(name),
                rest: "\n",
            },
            ListRefusal::NotId(name, number) => Line {
                front: "testr: ",
                part: Part::Place(name, number),
                rest: ": not an id\n",
            },
            ListRefusal::NoMemory => Line::of(OUT_OF_MEMORY),
        }
    }
}

impl<'a> Refuses<'a> for TimesRefusal<'a> {
    ghost use Rattle.command_steps.specs.SuiteTexts.{times_exit_status, times_text};

    ghost status = { times_exit_status };

    ghost text = { times_text };

    fn exit_status(self) -> u8 {
        match self {
            TimesRefusal::TooLong(_) | TimesRefusal::Absent(_) | TimesRefusal::NotTimes(_) => 3,
            TimesRefusal::Site => 4,
            TimesRefusal::NoMemory => 5,
        }
    }

    fn line(self) -> Line<'a> {
        match self {
            TimesRefusal::Site => Line::of(FAULT_OF_A_FILE),
            TimesRefusal::TooLong(name) => Line {
                front: "testr: ",
                part: Part::Name(name),
                rest: " is too long\n",
            },
            TimesRefusal::Absent(name) => Line {
                front: "testr: no file ",
                part: Part::Name(name),
                rest: "\n",
            },
            TimesRefusal::NotTimes(name) => Line {
                front: "testr: ",
                part: Part::Name(name),
                rest: " is no times\n",
            },
            TimesRefusal::NoMemory => Line::of(OUT_OF_MEMORY),
        }
    }
}

// The status where the number of workers was not called out.
pub(crate) fn call_exit_status(refusal: &CallRefusal) -> u8
    ensures { result ≡ call_exit_status refusal.now }
{
    match refusal {
        CallRefusal::NoNumber(_) => 3,
        CallRefusal::Spawn | CallRefusal::Child => 4,
        CallRefusal::NoMemory => 5,
    }
}

// What the program said that was to call it out, where it told none.
pub(crate) fn call_said(refusal: &CallRefusal) -> &[u8]
    ensures { result.now ≡ call_said refusal.now }
{
    match refusal {
        CallRefusal::NoNumber(said) => said.bytes(),
        CallRefusal::Spawn | CallRefusal::Child | CallRefusal::NoMemory => b"",
    }
}

// The line that tells of it.
pub(crate) fn call_line(refusal: &CallRefusal) -> Line<'static>
    ensures { line_text result ≡ call_text refusal.now }
{
    match refusal {
        CallRefusal::Spawn => Line::of(FAULT_OF_A_START),
        CallRefusal::Child => Line::of(FAULT_OF_A_CHILD),
        CallRefusal::NoNumber(_) => Line::of("testr: test_run_concurrency gave no number\n"),
        CallRefusal::NoMemory => Line::of(OUT_OF_MEMORY),
    }
}

impl<'a> Refuses<'a> for TableRefusal {
    ghost use Rattle.command_steps.specs.SuiteTexts.{table_exit_status, table_text};

    ghost status = { table_exit_status };

    ghost text = { table_text };

    fn exit_status(self) -> u8 {
        match self {
            TableRefusal::TooLong => 3,
            TableRefusal::Site => 4,
            TableRefusal::NoMemory => 5,
        }
    }

    fn line(self) -> Line<'a> {
        match self {
            TableRefusal::Site => Line::of(FAULT_OF_A_FILE),
            TableRefusal::TooLong => Line::of("testr: /proc/cpuinfo is too long\n"),
            TableRefusal::NoMemory => Line::of(OUT_OF_MEMORY),
        }
    }
}

// The status where the tests were not listed.
pub(crate) fn listing_exit_status(refusal: &ListingRefusal) -> u8
    ensures { result ≡ listing_exit_status refusal.now }
{
    match refusal {
        ListingRefusal::NoListOption | ListingRefusal::Failed(_, _) => 3,
        ListingRefusal::Spawn | ListingRefusal::Child => 4,
        ListingRefusal::NoMemory => 5,
    }
}

// What the listing said that failed.
pub(crate) fn listing_said(refusal: &ListingRefusal) -> &[u8]
    ensures { result.now ≡ listing_said refusal.now }
{
    match refusal {
        ListingRefusal::Failed(_, said) => said.bytes(),
        ListingRefusal::NoListOption
        | ListingRefusal::Spawn
        | ListingRefusal::Child
        | ListingRefusal::NoMemory => b"",
    }
}

// The line that tells of it.
pub(crate) fn listing_line(refusal: &ListingRefusal) -> Line<'static>
    ensures { line_text result ≡ listing_refusal_text refusal.now }
{
    match refusal {
        ListingRefusal::NoListOption => key_line(Key::ListOption),
        ListingRefusal::Spawn => Line::of(FAULT_OF_A_START),
        ListingRefusal::Child => Line::of(FAULT_OF_A_CHILD),
        ListingRefusal::Failed(status, _) => listing_ended(*status),
        ListingRefusal::NoMemory => Line::of(OUT_OF_MEMORY),
    }
}

// The line that tells how a listing ended.
fn listing_ended(status: i32) -> Line<'static>
    ensures { line_text result ≡ codes "testr: listing ended with " ++ signed_decimal status ++ codes "\n" }
{
    Line {
        front: "testr: listing ended with ",
        part: Part::Status(status),
        rest: "\n",
    }
}

// The line that tells which setting is missing.
fn key_line(key: Key) -> Line<'static>
    ensures { line_text result ≡ key_text key }
{
    match key {
        Key::IdOption => Line::of("testr: .testr.conf: test_id_option is needed\n"),
        Key::ListOption => Line::of("testr: .testr.conf: test_list_option is needed\n"),
    }
}

impl<'a> Refuses<'a> for JobFault {
    ghost use Rattle.command_steps.specs.SuiteTexts.{job_exit_status, job_text};

    ghost status = { job_exit_status };

    ghost text = { job_text };

    fn exit_status(self) -> u8 {
        match self {
            JobFault::NoOption(_) => 3,
            JobFault::NoMemory => 5,
        }
    }

    fn line(self) -> Line<'a> {
        match self {
            JobFault::NoOption(key) => key_line(key),
            JobFault::NoMemory => Line::of(OUT_OF_MEMORY),
        }
    }
}

impl<'a> Refuses<'a> for StartRefusal {
    ghost use Rattle.command_steps.specs.SuiteTexts.{start_exit_status, start_text};

    ghost status = { start_exit_status };

    ghost text = { start_text };

    fn exit_status(self) -> u8 {
        match self {
            StartRefusal::Spawn => 4,
            StartRefusal::NoMemory => 5,
        }
    }

    fn line(self) -> Line<'a> {
        match self {
            StartRefusal::Spawn => Line::of(FAULT_OF_A_START),
            StartRefusal::NoMemory => Line::of(OUT_OF_MEMORY),
        }
    }
}

impl<'a> Refuses<'a> for LanesRefusal {
    ghost use Rattle.command_steps.specs.SuiteTexts.{lanes_exit_status, lanes_text};

    ghost status = { lanes_exit_status };

    ghost text = { lanes_text };

    fn exit_status(self) -> u8 {
        match self {
            LanesRefusal::Shelf(_) => 4,
            LanesRefusal::NoMemory => 5,
        }
    }

    fn line(self) -> Line<'a> {
        match self {
            LanesRefusal::Shelf(_) => Line::of("testr: fault of the repository folder\n"),
            LanesRefusal::NoMemory => Line::of(OUT_OF_MEMORY),
        }
    }
}

impl<'a> Refuses<'a> for SearchFault {
    ghost use Rattle.command_steps.specs.SuiteTexts.{search_exit_status, search_text};

    ghost status = { search_exit_status };

    ghost text = { search_text };

    fn exit_status(self) -> u8 {
        match self {
            SearchFault::Spawn | SearchFault::Child => 4,
            SearchFault::NoMemory => 5,
        }
    }

    fn line(self) -> Line<'a> {
        match self {
            SearchFault::Spawn => Line::of(FAULT_OF_A_START),
            SearchFault::Child => Line::of(FAULT_OF_A_CHILD),
            SearchFault::NoMemory => Line::of(OUT_OF_MEMORY),
        }
    }
}
