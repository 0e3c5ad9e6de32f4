//! Bytes as characters of a document.

ghost use Rattle.std.specs.Prelude.{◌≡◌, ◌≤◌, ◌<◌, ◌++◌, false, None, IsTrue, take, drop, length, encode_utf8, IfOk, OnOk};
ghost use Rattle.std.specs.Option.{option_map};
ghost use Rattle.bstr.specs.Utf8.{decoded, or_replacement, replacement};
ghost use Rattle.junit_xml.specs.declared.characters.Place.TheVariants.{Value};
ghost use Rattle.junit_xml.specs.Characters as spec;

use bstr::decode_utf8;
use sub_number::NoMemory;

/// Where bytes stand in a document.
#[derive(Clone, Copy, Debug, PartialEq, Eq)]
pub(crate) enum Place {
    /// Between tags.
    Text,
    /// In an attribute's value.
    Value,
}

// Whether XML 1.0 allows the character.
fn is_xml_char(char: char) -> bool
    ensures { result ≡ spec.is_xml_char char }
{
    matches!(
        char,
        '\t' | '\n'
            | '\r'
            | '\u{20}'..='\u{D7FF}'
            | '\u{E000}'..='\u{FFFD}'
            | '\u{10000}'..='\u{10FFFF}'
    )
}

// What stands for a sign of the markup.
fn markup_escape(char: char) -> Option<&'static [u8]>
    ensures { option_map (λ text. text.now) result ≡ spec.markup_escape char }
{
    match char {
        '&' => Some(b"&amp;"),
        '<' => Some(b"&lt;"),
        '>' => Some(b"&gt;"),
        '"' => Some(b"&quot;"),
        _ => None,
    }
}

// What stands for a tab, a newline and a carriage return in a value.
fn break_escape(char: char, place: Place) -> Option<&'static [u8]>
    ensures { option_map (λ text. text.now) result ≡ spec.break_escape place char }
{
    match (place, char) {
        (Place::Value, '\t') => Some(b"&#9;"),
        (Place::Value, '\n') => Some(b"&#10;"),
        (Place::Value, '\r') => Some(b"&#13;"),
        _ => None,
    }
}

// U+FFFD in UTF-8.
fn sign_of_none() -> &'static [u8]
    ensures { result.now ≡ encode_utf8 replacement }
{
    b"\xEF\xBF\xBD"
}

// What stands for a character that is not written as it is.
fn escape(char: char, place: Place) -> Option<&'static [u8]>
    ensures { option_map (λ text. text.now) result ≡ spec.escape place char }
{
    if let Some(text) = markup_escape(char) {
        return Some(text);
    }
    if let Some(text) = break_escape(char, place) {
        return Some(text);
    }
    if is_xml_char(char) {
        None
    } else {
        Some(sign_of_none())
    }
}

// Whether the byte is a character of ASCII that is written as it is.
#[inline(always)]
fn is_plain(byte: u8, place: Place) -> bool
    ensures { IsTrue result → (byte < 128) × (spec.escape place byte ≡ None) }
{
    match byte {
        b'&' | b'<' | b'>' | b'"' => false,
        b'\t' | b'\n' | b'\r' => place == Place::Text,
        0x20..=0x7F => true,
        _ => false,
    }
}

// How many bytes the first character has, where it is written as it is; else none.
fn char_size(bytes: &[u8], place: Place) -> usize
    ensures within { result ≤ length bytes.now }
    ensures plain { spec.written place bytes.now ≡ take result bytes.now ++ spec.written place (drop result bytes.now) }
{
    match decode_utf8(bytes) {
        (Some(char), size) if escape(char, place).is_none() => size,
        _ => 0,
    }
}

// The same of bytes that are some; a character of ASCII is told by its byte.
#[inline(always)]
fn front_size(bytes: &[u8], place: Place) -> usize
    requires { 0 < length bytes.now }
    ensures within { result ≤ length bytes.now }
    ensures plain { spec.written place bytes.now ≡ take result bytes.now ++ spec.written place (drop result bytes.now) }
{
    if is_plain(bytes[0], place) {
        1
    } else {
        char_size(bytes, place)
    }
}

// How many bytes at the front are characters that are written as they are.
fn plain_size(bytes: &[u8], place: Place) -> usize
    ensures within { result ≤ length bytes.now }
    ensures plain { spec.written place bytes.now ≡ take result bytes.now ++ spec.written place (drop result bytes.now) }
{
    let mut size = 0;
    while size < bytes.len() {
        let more = front_size(&bytes[size..], place);
        if more == 0 {
            return size;
        }
        size += more;
    }
    size
}

// The first character as it is written, and how many bytes it has. U+FFFD stands for a piece that is none.
fn front_char(bytes: &[u8], place: Place) -> (&[u8], usize)
    ensures text { result.0.now ≡ spec.written_char place (or_replacement (decoded bytes.now).char) }
    ensures size { result.1 ≡ (decoded bytes.now).size }
{
    let (found, size) = decode_utf8(bytes);
    match found {
        Some(char) => match escape(char, place) {
            Some(other) => (other, size),
            None => (&bytes[..size], size),
        },
        None => (sign_of_none(), size),
    }
}

// Appends some of the first characters, at least one, and gives how many bytes they have.
fn put_front(bytes: &[u8], place: Place, text: &mut Vec<u8>) -> Result<usize, NoMemory>
    requires { 0 < length bytes.now }
    ensures within { IfOk result (λ size. (0 < size) × (size ≤ length bytes.now)) }
    ensures ok { IfOk result (λ size. text.new.items ++ spec.written place (drop size bytes.now) ≡ text.old.items ++ spec.written place bytes.now) }
    ensures kept { take (length text.old.items) text.new.items ≡ text.old.items }
{
    let plain = plain_size(bytes, place);
    text.extend_from_slice(&bytes[..plain])?;
    if plain == bytes.len() {
        return Ok(plain);
    }
    let (char, size) = front_char(&bytes[plain..], place);
    text.extend_from_slice(char)?;
    Ok(plain + size)
}

/// Appends the bytes as they are written there: U+FFFD for each longest piece that is no UTF-8 and for each character that
/// XML 1.0 does not allow, and a reference for each sign that has a meaning in the markup. What stands in the text stays,
/// also where there is not enough memory.
pub(crate) fn put_written(bytes: &[u8], place: Place, text: &mut Vec<u8>) -> Result<(), NoMemory>
    ensures ok { OnOk result (text.new.items ≡ text.old.items ++ spec.written place bytes.now) }
    ensures kept { take (length text.old.items) text.new.items ≡ text.old.items }
{
    let mut done = 0;
    while done < bytes.len() {
        done += put_front(&bytes[done..], place, text)?;
    }
    Ok(())
}

// Whether the byte is no character of ASCII, or one that is written otherwise in a value. It is told without a branch, so
// that the bytes of a value are looked at several in one step.
#[inline(always)]
fn is_special(byte: u8) -> bool
    ensures { result ≡ false → (byte < 128) × (spec.escape Value byte ≡ None) }
{
    (byte < 0x20)
        | (byte > 0x7F)
        | (byte == b'&')
        | (byte == b'<')
        | (byte == b'>')
        | (byte == b'"')
}

// Whether each byte of a value is a character that is written as it is.
fn are_plain(bytes: &[u8]) -> bool
    ensures { IsTrue result → spec.written Value bytes.now ≡ bytes.now }
{
    let mut special = false;
    for byte in bytes {
        special |= is_special(*byte);
    }
    !special
}

/// Appends the bytes as they are written in a value. Most are plain, and are copied at once.
pub(crate) fn put_value(bytes: &[u8], text: &mut Vec<u8>) -> Result<(), NoMemory>
    ensures ok { OnOk result (text.new.items ≡ text.old.items ++ spec.written Value bytes.now) }
    ensures kept { take (length text.old.items) text.new.items ≡ text.old.items }
{
    if are_plain(bytes) {
        text.extend_from_slice(bytes)?;
        return Ok(());
    }
    put_written(bytes, Place::Value, text)
}
