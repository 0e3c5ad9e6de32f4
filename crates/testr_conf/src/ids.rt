//! Lists of ids and of patterns in a file.

ghost use Rattle.std.specs.Prelude.{◌≡◌, ◌<◌, ◌≤◌, ◌⊎◌, false, true, [], ◌∷◌, ◌++◌, length, OnOk, IfOk, IfErr, MatchOption};
ghost use Rattle.std.specs.List.{filter, before_first, position_or_len};
ghost use Rattle.sub_number.specs.Lines.{has_bytes};
ghost use Rattle.testr_conf.specs.Lines.{is_plain_line};
ghost use Rattle.testr_conf.specs.ListedIds.{is_hash, entry_of, listed_texts, ids_in, patterns_in, line_of_pattern};

use crate::white_space::trim;
use bstr::ByteSlice;
use memchr::memchr;
use std::alloc::Global;
use sub_number::{IdList, Text, TextFault};

/// Why no list was read. Lines are counted from 1.
#[derive(Clone, Copy, PartialEq, Eq, Debug)]
pub enum IdsFault {
    /// This line is not UTF-8, or has a NUL.
    NotText(u32),
    /// There is not enough memory.
    NoMemory,
}

// Adds the id, if it is one.
fn push_id(alloc: Global, number: u32, id: &[u8], ids: &mut IdList) -> Result<(), IdsFault>
    requires { length id.now ≤ 16777216 }
    ensures text { OnOk result (is_plain_line id.now ≡ true) }
    ensures ok { OnOk result (ids.new ≡ ids.old ++ filter has_bytes (id.now ∷ [])) }
    ensures err { IfErr result (λ fault. ((is_plain_line id.now ≡ false) × (fault ≡ IdsFault.NotText number)) ⊎ (fault ≡ IdsFault.NoMemory)) }
{
    if id.is_empty() {
        return Ok(());
    }
    let id = match Text::new(alloc, id) {
        Ok(id) => id,
        Err(TextFault::NotText) => return Err(IdsFault::NotText(number)),
        Err(TextFault::NoMemory) => return Err(IdsFault::NoMemory),
    };
    match ids.push(id) {
        Ok(()) => Ok(()),
        Err(_) => Err(IdsFault::NoMemory),
    }
}

/// The ids of a list of at most 16 MiB: its lines, without the white space at both ends of each, in order. Empty lines
/// are left out (docs/FORMATS.md, "Lists of ids").
///
/// `NotText` names the first line that is not UTF-8 or has a NUL, and comes exactly where there is one.
pub fn read_ids(alloc: Global, text: &[u8]) -> Result<IdList, IdsFault>
    requires { length text.now ≤ 16777216 }
    ensures ids { IfOk result (λ ids. ids_in text.now ≡ Ok ids) }
    ensures refused { IfErr result (λ fault. (ids_in text.now ≡ Err fault) ⊎ (fault ≡ IdsFault.NoMemory)) }
    ensures exactly { IfErr (ids_in text.now) (λ fault. (result ≡ Err fault) ⊎ (result ≡ Err IdsFault.NoMemory)) }
{
    read_texts(alloc, text, false)
}

/// The patterns of a list of at most 16 MiB: of each line what stands in front of its first `#`, without the white space at
/// both ends, in order. Where nothing is left the line is left out (docs/FORMATS.md, "Lists of patterns").
///
/// `NotText` names the first line of which that is not UTF-8 or has a NUL, and comes exactly where there is one.
pub fn read_patterns(alloc: Global, text: &[u8]) -> Result<IdList, IdsFault>
    requires { length text.now ≤ 16777216 }
    ensures patterns { IfOk result (λ patterns. patterns_in text.now ≡ Ok patterns) }
    ensures refused { IfErr result (λ fault. (patterns_in text.now ≡ Err fault) ⊎ (fault ≡ IdsFault.NoMemory)) }
    ensures exactly { IfErr (patterns_in text.now) (λ fault. (result ≡ Err fault) ⊎ (result ≡ Err IdsFault.NoMemory)) }
{
    read_texts(alloc, text, true)
}

// The entries of a list that are not empty, in order.
fn read_texts(alloc: Global, text: &[u8], comments: bool) -> Result<IdList, IdsFault>
    requires { length text.now ≤ 16777216 }
    ensures texts { IfOk result (λ texts. listed_texts comments text.now ≡ Ok texts) }
    ensures refused { IfErr result (λ fault. (listed_texts comments text.now ≡ Err fault) ⊎ (fault ≡ IdsFault.NoMemory)) }
    ensures exactly { IfErr (listed_texts comments text.now) (λ fault. (result ≡ Err fault) ⊎ (result ≡ Err IdsFault.NoMemory)) }
{
    let mut texts = IdList::new(alloc);
    let mut lines = text.lines_with_terminator();
    let mut number: u32 = 0;
    while let Some(line) = lines.next() {
        number += 1;
        match push_id(alloc, number, entry(line, comments), &mut texts) {
            Ok(()) => {}
            Err(fault) => return Err(fault),
        }
    }
    Ok(texts)
}

/// The number of the line that has the pattern of this index, from 0 on, in a list of at most 16 MiB.
pub fn line_of_pattern(text: &[u8], index: usize) -> u32
    requires { length text.now ≤ 16777216 }
    ensures { result ≡ line_of_pattern text.now index }
{
    let mut lines = text.lines_with_terminator();
    let mut number: u32 = 1;
    let mut left = index;
    while let Some(line) = lines.next() {
        if !entry(line, true).is_empty() {
            if left == 0 {
                return number;
            }
            left -= 1;
        }
        number += 1;
    }
    number
}

// What the line lists.
fn entry(line: &[u8], comments: bool) -> &[u8]
    ensures value { result.now ≡ entry_of comments line.now }
    ensures short { length result.now ≤ length line.now }
{
    if comments {
        trim(uncommented(line))
    } else {
        trim(line)
    }
}

// What stands in front of the first `#`.
fn uncommented(line: &[u8]) -> &[u8]
    ensures value { result.now ≡ before_first is_hash line.now }
    ensures short { length result.now ≤ length line.now }
{
    match find_hash(line) {
        Some(at) => &line[..at],
        None => line,
    }
}

// The place of the first `#`.
fn find_hash(line: &[u8]) -> Option<usize>
    ensures { MatchOption result (position_or_len is_hash line.now ≡ length line.now) (λ at. (at ≡ position_or_len is_hash line.now) × (at < length line.now)) }
{
    memchr(b'#', line)
}
