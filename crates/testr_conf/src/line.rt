//! One line of a `.testr.conf`.

ghost use Rattle.std.specs.Prelude.{◌≡◌, ◌<◌, length, drop, MatchOption};
ghost use Rattle.std.specs.List.{position_or_len};
ghost use Rattle.testr_conf.specs.Lines.{is_sign, is_deeper, section_line, setting_line, text_line, ended_line_of, strip_last_byte, placed_line, depth_behind};
ghost use Rattle.testr_conf.specs.White.{trimmed};
ghost use Rattle.testr_conf.specs.Seen.{conf_line_meant};

use crate::white_space::{trim, trim_front};
use memchr::memchr2;

// What a line is.
#[derive(Clone, Copy)]
pub(crate) enum Line<'a> {
    // It is refused, wherever it stands.
    Bad,
    // It is empty, or a comment.
    Skipped,
    // It is indented so deep. It continues the setting above it by this text, or is one by the whole line.
    More(usize, &'a [u8], &'a [u8]),
    // The section of this name begins.
    Section(&'a [u8]),
    // A key, and its value.
    Setting(&'a [u8], &'a [u8]),
}

// Whether a line so deep is deeper than the setting above it, where there is one.
fn is_deeper(depth: usize, above: Option<usize>) -> bool
    ensures { result ≡ is_deeper depth above }
{
    match above {
        Some(above) => above < depth,
        None => false,
    }
}

impl<'a> Line<'a> {
    // The line, where the setting above it in its section stands so deep, or there is none.
    pub(crate) fn behind(self, above: Option<usize>) -> Line<'a>
        ensures { conf_line_meant result ≡ placed_line above (conf_line_meant self.entry) }
    {
        match self {
            Line::More(depth, _, line) if !is_deeper(depth, above) => read_setting(line),
            line => line,
        }
    }

    // How deep the setting stands that is above the next line.
    pub(crate) fn depth_behind(self, above: Option<usize>) -> Option<usize>
        ensures { result ≡ depth_behind above (conf_line_meant self.entry) }
    {
        match self {
            Line::More(depth, _, _) if !is_deeper(depth, above) => Some(depth),
            Line::More(_, _, _) | Line::Skipped | Line::Bad => above,
            Line::Section(_) => None,
            Line::Setting(_, _) => Some(0),
        }
    }
}

// The bytes without this last byte, where it is theirs.
pub(crate) fn strip_last_byte(byte: u8, bytes: &[u8]) -> &[u8]
    ensures { result.now ≡ strip_last_byte byte bytes.now }
{
    match bytes {
        [before @ .., last] if *last == byte => before,
        _ => bytes,
    }
}

// What the line is, which may end in a newline.
pub(crate) fn read_line(line: &[u8]) -> Line<'_>
    ensures { conf_line_meant result ≡ ended_line_of line.now }
{
    let line = strip_last_byte(b'\r', strip_last_byte(b'\n', line));
    if sub_number::is_text(line) {
        read_text_line(line)
    } else {
        Line::Bad
    }
}

fn read_text_line(line: &[u8]) -> Line<'_>
    ensures { conf_line_meant result ≡ text_line line.now (trimmed line.now) }
{
    let text = trim(line);
    match (text.first(), line.first()) {
        (None | Some(b'#' | b';'), _) => Line::Skipped,
        (_, Some(b' ' | b'\t')) => {
            Line::More(
                line.len().saturating_sub(trim_front(line).len()),
                text,
                line,
            )
        }
        (_, Some(b'[')) => read_section(text),
        _ => read_setting(line),
    }
}

fn read_section(text: &[u8]) -> Line<'_>
    ensures { conf_line_meant result ≡ section_line (drop 1 text.now) }
{
    let Some((_, behind)) = text.split_first() else {
        return Line::Bad;
    };
    if behind.ends_with(b"]") {
        Line::Section(&behind[..behind.len() - 1])
    } else {
        Line::Bad
    }
}

// The place of the first sign between a key and a value.
fn find_sign(line: &[u8]) -> Option<usize>
    ensures { MatchOption result (position_or_len is_sign line.now ≡ length line.now) (λ at. (at ≡ position_or_len is_sign line.now) × (at < length line.now)) }
{
    memchr2(b'=', b':', line)
}

fn read_setting(line: &[u8]) -> Line<'_>
    ensures { conf_line_meant result ≡ setting_line line.now }
{
    let Some(at) = find_sign(line) else {
        return Line::Bad;
    };
    let key = trim(&line[..at]);
    if key.is_empty() {
        return Line::Bad;
    }
    Line::Setting(key, trim(&line[at + 1..]))
}
