//! The patterns of a run and the regex of its groups.

ghost use Rattle.std.specs.Prelude.{◌≡◌, ◌<◌, [], length, slice_index_or, IfOk};
ghost use Rattle.std.specs.Option.{option_copied};
ghost use Rattle.suite_plan.specs.Patterns.{Compiles, ChecksPatterns, ChecksRegex};

use crate::picks::Picks;
use partition_times::{Filters, Groups, PatternFault};
use std::alloc::Global;
use std::str;
use sub_number::{IdList, Text};

/// What chooses the tests of a run and puts them into groups.
#[derive(Drop)]
pub struct Compiled {
    /// The patterns, in their order.
    pub picks: Picks,
    /// The regex of the groups.
    pub groups: Groups,
}

/// Why patterns were not taken.
#[derive(Clone, Copy, PartialEq, Eq, Debug)]
pub enum PatternRefusal<'a> {
    /// This pattern is bad: `regex` reads no pattern in it, or one that is nested too deep.
    Bad(&'a str),
    /// There is not enough memory, or a pattern asks for more than `regex` gives one pattern.
    NoMemory,
}

/// The patterns of both kinds and the regex of the groups, each compiled once. Without a regex each test is a group of its
/// own.
///
/// `Bad` comes only with the first bad one of the patterns, in their order, those that exclude behind those that include,
/// and with the regex only where all of them are good.
pub fn compile_picks<'a>(
    alloc: Global,
    including: &'a IdList,
    excluding: &'a IdList,
    group_regex: Option<&'a Text>,
) -> Result<Compiled, PatternRefusal<'a>>
    ensures { Compiles including.now excluding.now (option_copied group_regex.entry) result }
{
    let including = match compiled_filters(alloc, including) {
        Ok(filters) => filters,
        Err(refusal) => return Err(refusal),
    };
    let excluding = match compiled_filters(alloc, excluding) {
        Ok(filters) => filters,
        Err(refusal) => return Err(refusal),
    };
    let groups = match compiled_groups(alloc, group_regex) {
        Ok(groups) => groups,
        Err(refusal) => return Err(refusal),
    };
    let picks = Picks {
        including,
        excluding,
    };
    Ok(Compiled { picks, groups })
}

// The patterns, compiled.
fn compiled_filters(alloc: Global, patterns: &IdList) -> Result<Filters, PatternRefusal<'_>>
    ensures filters { IfOk result (λ filters. filters ≡ patterns.now) }
    ensures good { ChecksPatterns patterns.now result }
{
    match Filters::new(alloc, patterns.list()) {
        Ok(filters) => Ok(filters),
        Err(PatternFault::BadPattern(index)) => { Err(PatternRefusal::Bad(nth(patterns, index))) }
        Err(PatternFault::NoMemory) => Err(PatternRefusal::NoMemory),
    }
}

// The regex of the groups, compiled.
fn compiled_groups(alloc: Global, group_regex: Option<&Text>) -> Result<Groups, PatternRefusal<'_>>
    ensures groups { IfOk result (λ groups. groups ≡ option_copied group_regex.entry) }
    ensures good { ChecksRegex (option_copied group_regex.entry) result }
{
    match Groups::new(alloc, group_regex) {
        Ok(groups) => Ok(groups),
        Err(PatternFault::BadPattern(_)) => match group_regex {
            Some(regex) => Err(PatternRefusal::Bad(string_of(regex))),
            None => unreachable!(),
        },
        Err(PatternFault::NoMemory) => Err(PatternRefusal::NoMemory),
    }
}

// The pattern with this index, without a copy.
fn nth(patterns: &IdList, index: usize) -> &str
    requires { index < length patterns.now }
    ensures { result.now ≡ slice_index_or patterns.now index [] }
{
    string_of(&patterns.list()[index])
}

// The text as a string, without a copy.
fn string_of(text: &Text) -> &str
    ensures { result.now ≡ text.now }
{
    match str::from_utf8(text.bytes()) {
        Ok(string) => string,
        Err(_) => unreachable!(),
    }
}
