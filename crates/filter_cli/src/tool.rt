//! The filters' names, and the options that each has.

ghost use Rattle.std.specs.Prelude.{◌≡◌};
ghost use Rattle.command_words.specs.Items.{texts};
ghost use Rattle.filter_cli.specs.Tools as tools;

use command_words::{Kind, OptionTable};

/// A filter.
#[derive(Clone, Copy, PartialEq, Eq, Debug)]
pub enum Tool {
    /// `subunit-filter`
    Filter,
    /// `subunit-tags`
    Tags,
    /// `subunit-ls`
    Ls,
    /// `subunit-stats`
    Stats,
    /// `tap2subunit`
    FromTap,
    /// `subunit2tap`
    ToTap,
    /// `subunit2csv`
    ToCsv,
    /// `subunit2junitxml`
    ToJunit,
    /// `subunit-output`
    Output,
    /// `subunit-1to2`
    FromV1,
    /// `subunit-2to1`
    ToV1,
    /// `subunit-trace`
    Trace,
}

/// The filter that the first word names, or none.
pub fn tool_of_first_word(words: &[String]) -> Option<Tool>
    ensures { result ≡ tools.tool_of (texts words.now) }
{
    match words {
        [name, ..] => tool_named(name.as_str()),
        [] => None,
    }
}

// The filter of this name, or none.
fn tool_named(name: &str) -> Option<Tool>
    ensures { result ≡ tools.tool_named name.now }
{
    if name == "subunit-filter" {
        return Some(Tool::Filter);
    }
    if name == "subunit-tags" {
        return Some(Tool::Tags);
    }
    if name == "subunit-ls" {
        return Some(Tool::Ls);
    }
    if name == "subunit-stats" {
        return Some(Tool::Stats);
    }
    if name == "subunit-trace" {
        return Some(Tool::Trace);
    }
    converter_named(name)
}

// That of this name which reads or writes another form than Subunit, or none.
fn converter_named(name: &str) -> Option<Tool>
    ensures { result ≡ tools.converter_named name.now }
{
    if name == "tap2subunit" {
        return Some(Tool::FromTap);
    }
    if name == "subunit2tap" {
        return Some(Tool::ToTap);
    }
    if name == "subunit2csv" {
        return Some(Tool::ToCsv);
    }
    if name == "subunit2junitxml" {
        return Some(Tool::ToJunit);
    }
    if name == "subunit-output" {
        return Some(Tool::Output);
    }
    v1_tool_named(name)
}

// That of this name which reads or writes version 1, or none.
fn v1_tool_named(name: &str) -> Option<Tool>
    ensures { result ≡ tools.v1_tool_named name.now }
{
    if name == "subunit-1to2" {
        return Some(Tool::FromV1);
    }
    if name == "subunit-2to1" {
        return Some(Tool::ToV1);
    }
    None
}

impl OptionTable for Tool {
    ghost kinds = { tools.kind_in };

    fn kind(&self, name: &str) -> Option<Kind> {
        match self {
            Tool::Filter => filter_kind(name),
            Tool::Ls => ls_kind(name),
            Tool::ToCsv => csv_kind(name),
            Tool::Stats | Tool::ToJunit => hiding_kind(name),
            Tool::Trace => trace_kind(name),
            Tool::Tags | Tool::FromTap | Tool::ToTap | Tool::Output => None,
            Tool::FromV1 | Tool::ToV1 => None,
        }
    }
}

fn filter_kind(name: &str) -> Option<Kind>
    ensures { result ≡ tools.filter_kind name.now }
{
    if is_switch(name) {
        return Some(Kind::Flag);
    }
    if is_value_option(name) {
        return Some(Kind::Valued);
    }
    None
}

// Whether it is a flag of `subunit-filter`. `--no-error` changes nothing: a stream tells of no errors beside failures.
fn is_switch(name: &str) -> bool
    ensures { result ≡ tools.is_switch name.now }
{
    name == "--success"
        || name == "--no-success"
        || name == "--failure"
        || name == "--no-failure"
        || name == "--no-error"
        || name == "--no-skip"
        || name == "--xfail"
        || name == "--no-xfail"
        || name == "--only-genuine-failures"
        || name == "--no-passthrough"
}

// Whether it is an option with a value of `subunit-filter` and `subunit2csv`.
pub(crate) fn is_value_option(name: &str) -> bool
    ensures { result ≡ tools.is_addition name.now }
{
    name == "--with-tag" || name == "--without-tag" || name == "--with-id" || name == "--without-id"
}

fn ls_kind(name: &str) -> Option<Kind>
    ensures { result ≡ tools.ls_kind name.now }
{
    if name == "--times" || name == "--exists" || name == "--no-passthrough" {
        return Some(Kind::Flag);
    }
    None
}

fn csv_kind(name: &str) -> Option<Kind>
    ensures { result ≡ tools.csv_kind name.now }
{
    if is_csv_switch(name) {
        return Some(Kind::Flag);
    }
    if is_value_option(name) {
        return Some(Kind::Valued);
    }
    None
}

// The one flag of `subunit-stats` and of `subunit2junitxml`. Of the second it changes nothing, since output of no test is
// dropped without it, too.
fn hiding_kind(name: &str) -> Option<Kind>
    ensures { result ≡ tools.hiding_kind name.now }
{
    if name == "--no-passthrough" {
        return Some(Kind::Flag);
    }
    None
}

fn trace_kind(name: &str) -> Option<Kind>
    ensures { result ≡ tools.trace_kind name.now }
{
    if name == "--live" {
        return Some(Kind::Valued);
    }
    if name == "--no-summary" {
        return Some(Kind::Flag);
    }
    None
}

// Whether it is a flag of `subunit2csv`.
fn is_csv_switch(name: &str) -> bool
    ensures { result ≡ tools.is_csv_switch name.now }
{
    name == "--no-success" || name == "--no-failure" || name == "--no-skip" || name == "--no-xfail"
}
