//! The patterns that a file lists.

ghost use Rattle.std.specs.Prelude.{◌≡◌, ◌≤◌, ◌<◌, length, Ok};
ghost use Rattle.testr_conf.specs.ListedIds.{patterns_in};
ghost use Rattle.suite_plan.specs.PatternList.{ReadsPatternList, TellsBadLine, TellsPatterns};

use crate::load_list::{ListRefusal, read_list};
use edge_io::Site;
use partition_times::{Filters, PatternFault};
use std::alloc::Global;
use sub_number::{IdList, Text};
use testr_conf::{IdsFault, line_of_pattern, read_patterns};

/// Why no list of patterns was taken.
#[derive(Drop)]
pub enum PatternListRefusal<'a> {
    /// It was not read as a list of texts. `NotId` comes with a line that is no text.
    List(ListRefusal<'a>),
    /// A line is no pattern.
    Bad(BadLine<'a>),
}

/// The first line of a list of patterns that is none.
#[derive(Drop)]
pub struct BadLine<'a> {
    /// The name of the file.
    pub name: &'a str,
    /// The number of the line, from 1 on.
    pub number: u32,
    /// What `regex` reads no pattern in, or one that is nested too deep.
    pub pattern: Text,
}

/// The patterns that the file of this name, of at most 16,777,216 bytes, lists: of each of its lines what stands in front of
/// the first `#`, without the white space at both ends, where something is left.
///
/// `Absent` comes exactly where there is no such file, `TooLong` exactly where it has more bytes, `NotId` exactly where a
/// line is no text, with the first such line, and `Bad` exactly where all are texts and one is no pattern, with the first
/// such line; each names the file. `Site` comes only where a read failed, which counts once, and `NoMemory` only for want of
/// memory; each may come before any of the others is seen. No file changes.
pub fn read_pattern_list<'a, F: Site>(
    alloc: Global,
    site: &mut F,
    name: &'a str,
) -> Result<Filters, PatternListRefusal<'a>>
    ensures step { ReadsPatternList name.now (F.seen site.old) (F.seen site.new) result }
{
    match read_list(alloc, site, name) {
        Ok(text) => patterns_of(alloc, name, &text),
        Err(refusal) => Err(PatternListRefusal::List(refusal)),
    }
}

// The patterns that these bytes of the list of this name are.
fn patterns_of<'a>(
    alloc: Global,
    name: &'a str,
    text: &[u8],
) -> Result<Filters, PatternListRefusal<'a>>
    requires short { length text.now ≤ 16777216 }
    ensures { TellsPatterns name.now text.now result }
{
    match read_patterns(alloc, text) {
        Ok(patterns) => compiled(alloc, name, text, &patterns),
        Err(IdsFault::NotText(number)) => {
            Err(PatternListRefusal::List(ListRefusal::NotId(name, number)))
        }
        Err(IdsFault::NoMemory) => Err(PatternListRefusal::List(ListRefusal::NoMemory)),
    }
}

// These patterns of the list, compiled.
fn compiled<'a>(
    alloc: Global,
    name: &'a str,
    text: &[u8],
    patterns: &IdList,
) -> Result<Filters, PatternListRefusal<'a>>
    requires short { length text.now ≤ 16777216 }
    requires patterns { patterns_in text.now ≡ Ok patterns.now }
    ensures { TellsPatterns name.now text.now result }
{
    match Filters::new(alloc, patterns.list()) {
        Ok(filters) => Ok(filters),
        Err(PatternFault::BadPattern(index)) => Err(bad_line(alloc, name, text, patterns, index)),
        Err(PatternFault::NoMemory) => Err(PatternListRefusal::List(ListRefusal::NoMemory)),
    }
}

// The refusal of the pattern of this index, with the line that has it. There may be no memory for it.
fn bad_line<'a>(
    alloc: Global,
    name: &'a str,
    text: &[u8],
    patterns: &IdList,
    index: usize,
) -> PatternListRefusal<'a>
    requires short { length text.now ≤ 16777216 }
    requires there { index < length patterns.now }
    ensures { TellsBadLine name.now text.now patterns.now index result }
{
    match patterns.list()[index].copy() {
        Ok(pattern) => PatternListRefusal::Bad(BadLine {
            name,
            number: line_of_pattern(text, index),
            pattern,
        }),
        Err(_) => PatternListRefusal::List(ListRefusal::NoMemory),
    }
}
