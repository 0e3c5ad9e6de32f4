// Where a test failed, by the text that it wrote.

ghost use Rattle.std.specs.Prelude.{◌≡◌, ◌≤◌, length, option_map, Some};
ghost use Rattle.std.specs.List.{before_first, position_or_len};
ghost use Rattle.build_notes.specs.Notes as spec;
ghost use Rattle.build_notes.specs.Seen.{shown_spot};

use bstr::ByteSlice;

/// A line of a file: its path, and the digits of the line's number.
#[derive(Clone, Copy)]
pub(crate) struct Spot<'a> {
    /// The path of the file.
    pub path: &'a [u8],
    /// The digits.
    pub line: &'a [u8],
}

/// The last spot that a line of the text tells of: of those in files of the project where there is one, else of all.
pub(crate) fn last_spot(text: &[u8]) -> Option<Spot<'_>>
    ensures { option_map shown_spot result ≡ spec.last_spot text.now }
{
    let mut lines = text.lines_with_terminator();
    let mut found = None;
    while let Some(line) = lines.next() {
        found = later_spot(found, spot_of(line));
    }
    found
}

// The second one, if it is one, unless it alone is in an installed file.
fn later_spot<'a>(found: Option<Spot<'a>>, next: Option<Spot<'a>>) -> Option<Spot<'a>>
    ensures { option_map shown_spot result ≡ spec.later_spot (option_map shown_spot found.entry) (option_map shown_spot next.entry) }
{
    match (found, next) {
        (found, None) => found,
        (None, next) => next,
        (Some(found), Some(spot)) => Some(later_of(found, spot)),
    }
}

// The second one, unless it alone is in an installed file.
fn later_of<'a>(found: Spot<'a>, spot: Spot<'a>) -> Spot<'a>
    ensures { Some (shown_spot result) ≡ spec.later_spot (Some (shown_spot found.entry)) (Some (shown_spot spot.entry)) }
{
    if is_installed(spot.path) && !is_installed(found.path) {
        found
    } else {
        spot
    }
}

// Whether a folder of Python's own is on the path.
fn is_installed(path: &[u8]) -> bool
    ensures { result ≡ spec.is_installed path.now }
{
    let mut rest = path;
    while let [_, behind @ ..] = rest {
        if begins_installed(rest) {
            return true;
        }
        rest = behind;
    }
    false
}

// Whether such a folder begins here.
fn begins_installed(path: &[u8]) -> bool
    ensures { result ≡ spec.begins_installed path.now }
{
    path.starts_with(b"/lib/python") || path.starts_with(b"/lib64/python")
}

// The spot that a line tells of.
fn spot_of(line: &[u8]) -> Option<Spot<'_>>
    ensures { option_map shown_spot result ≡ spec.spot_of line.now }
{
    match line.strip_prefix(b"  File \"") {
        Some(named) => spot_named(named),
        None => None,
    }
}

// The spot, of which the path begins these bytes.
fn spot_named(named: &[u8]) -> Option<Spot<'_>>
    ensures { option_map shown_spot result ≡ spec.spot_named named.now }
{
    let size = path_size(named);
    spot_behind(&named[..size], &named[size..])
}

// The spot of this path, where these bytes tell the line.
fn spot_behind<'a>(path: &'a [u8], behind: &'a [u8]) -> Option<Spot<'a>>
    ensures { option_map shown_spot result ≡ spec.spot_behind path.now behind.now }
{
    match behind.strip_prefix(b"\", line ") {
        Some(number) => spot_with(path, &number[..digits_size(number)]),
        None => None,
    }
}

// The spot, where there is a digit.
fn spot_with<'a>(path: &'a [u8], line: &'a [u8]) -> Option<Spot<'a>>
    ensures { option_map shown_spot result ≡ spec.spot_with path.now line.now }
{
    if line.is_empty() {
        None
    } else {
        Some(Spot { path, line })
    }
}

// How many bytes stand in front of the first `"`.
fn path_size(bytes: &[u8]) -> usize
    ensures count { result ≡ position_or_len spec.is_quote bytes.now }
    ensures within { result ≤ length bytes.now }
{
    let mut count = 0;
    while count < bytes.len() && bytes[count] != b'"' {
        count += 1;
    }
    count
}

// How many digits stand at the front.
fn digits_size(bytes: &[u8]) -> usize
    ensures count { result ≡ position_or_len spec.is_no_digit bytes.now }
    ensures within { result ≤ length bytes.now }
{
    let mut count = 0;
    while count < bytes.len() && bytes[count].is_ascii_digit() {
        count += 1;
    }
    count
}
