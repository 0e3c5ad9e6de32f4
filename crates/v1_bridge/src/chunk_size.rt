//! The size of a chunk.

ghost use Rattle.std.specs.Prelude.{◌≡◌, ◌≤◌, ◌<◌, ◌^◌, IsTrue, length};
ghost use Rattle.std.specs.Char.{is_ascii_hexdigit, digit_value};
ghost use Rattle.std.specs.List.{list_all};
ghost use Rattle.std.specs.Str.Parse.{digits_value};
ghost use Rattle.v1_bridge.specs.Sizes as spec;

use crate::line::{line_content, without_return};

/// What a run of bytes of a line is.
#[derive(Clone, Copy, PartialEq, Eq)]
pub(crate) enum Extent {
    /// What is left of a line up to its end.
    Whole,
    /// What is left of a piece of a line that is too long. Another piece follows.
    Piece,
    /// What is left of the last piece of such a line.
    Last,
}

/// What some bytes tell of a size.
#[derive(Clone, Copy)]
pub(crate) enum Size {
    /// They tell none.
    Bad,
    /// They may tell one, where more bytes follow.
    Open,
    /// They tell this one.
    Told(u32),
}

// Whether the bytes are at most 8 hexadecimal digits.
fn are_few_digits(bytes: &[u8]) -> bool
    ensures { result ≡ spec.are_few_digits bytes.now }
{
    bytes.len() <= 8 && are_digits(bytes)
}

fn are_digits(bytes: &[u8]) -> bool
    ensures { result ≡ list_all is_ascii_hexdigit bytes.now }
{
    bytes.iter().all(|byte| byte.is_ascii_hexdigit())
}

fn is_size(bytes: &[u8]) -> bool
    ensures { result ≡ spec.is_size bytes.now }
{
    are_few_digits(bytes) && bytes.len() >= 1
}

fn may_be_size(bytes: &[u8]) -> bool
    ensures { result ≡ spec.may_be_size bytes.now }
{
    are_few_digits(bytes) || (bytes.ends_with(b"\r") && is_size(without_return(bytes)))
}

// The value of a hexadecimal digit.
fn value_of_digit(digit: u8) -> u32
    requires { IsTrue (is_ascii_hexdigit digit) }
    ensures value { result ≡ digit_value digit }
    ensures below { result < 16 }
{
    match digit {
        b'0'..=b'9' => u32::from(digit - b'0'),
        b'A'..=b'F' => u32::from(digit - b'A') + 10,
        _ => u32::from(digit - b'a') + 10,
    }
}

// The number that so few digits write.
fn value_of(digits: &[u8]) -> u32
    requires { IsTrue (spec.are_few_digits digits.now) }
    ensures { result ≡ digits_value 16 digits.now }
{
    let mut value = 0;
    for digit in digits {
        value = value * 16 + value_of_digit(*digit);
    }
    value
}

fn size_with(digits: &[u8]) -> Size
    ensures { result ≡ spec.size_with digits.now }
{
    if is_size(digits) {
        Size::Told(value_of(digits))
    } else {
        Size::Bad
    }
}

/// The size that a run of bytes of this extent tells.
pub(crate) fn size_in(extent: Extent, bytes: &[u8]) -> Size
    ensures { result ≡ spec.size_in extent bytes.now }
{
    match extent {
        Extent::Whole | Extent::Last => size_with(line_content(bytes)),
        Extent::Piece => {
            if may_be_size(bytes) {
                Size::Open
            } else {
                Size::Bad
            }
        }
    }
}
