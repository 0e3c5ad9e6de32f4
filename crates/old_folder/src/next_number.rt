//! The number that comes next, as the original tool spells it.

ghost use Rattle.std.specs.Prelude.{◌≡◌, ◌≤◌, IsTrue, length};
ghost use Rattle.std.specs.List.{prefix_len};
ghost use Rattle.std.specs.Str.Parse.{digits_value};
ghost use Rattle.old_folder.specs.Olds as olds;

// The most digits of a number.
const MOST_DIGITS: usize = 7;

// The greatest number.
const MOST_COUNT: u32 = 1_000_000;

/// The number that the bytes tell, without the white space at both ends. `None` comes exactly where that is not 1 to 7 digits,
/// or more than 1,000,000.
pub(crate) fn read_count(bytes: &[u8]) -> Option<u32>
    ensures { result ≡ olds.count_in (olds.trim_white_space bytes.now) }
{
    count_of(trim(bytes))
}

// The number that these digits write.
fn count_of(bytes: &[u8]) -> Option<u32>
    ensures { result ≡ olds.count_in bytes.now }
{
    if !are_digits(bytes) || bytes.is_empty() || bytes.len() > MOST_DIGITS {
        return None;
    }
    let number = value_of(bytes);
    if number <= MOST_COUNT {
        Some(number)
    } else {
        None
    }
}

// Whether each byte is a digit.
fn are_digits(bytes: &[u8]) -> bool
    ensures { result ≡ olds.are_digits bytes.now }
{
    bytes.iter().all(|byte| byte.is_ascii_digit())
}

// The number that so few digits write.
fn value_of(digits: &[u8]) -> u32
    requires digits { IsTrue (olds.are_digits digits.now) }
    requires few { length digits.now ≤ 7 }
    ensures { result ≡ digits_value 10 digits.now }
{
    let mut value = 0;
    for digit in digits {
        value = value * 10 + u32::from(digit - b'0');
    }
    value
}

// The bytes without the blanks at both ends.
fn trim(bytes: &[u8]) -> &[u8]
    ensures { result.now ≡ olds.trim_white_space bytes.now }
{
    trim_end(trim_start(bytes))
}

// The bytes without the blanks at the front.
fn trim_start(bytes: &[u8]) -> &[u8]
    ensures { result.now ≡ olds.trim_white_space_start bytes.now }
{
    &bytes[leading_blanks(bytes)..]
}

// The bytes without the blanks at the end.
fn trim_end(bytes: &[u8]) -> &[u8]
    ensures { result.now ≡ olds.trim_white_space_end bytes.now }
{
    let mut end = bytes.len();
    while end > 0 && is_blank(bytes[end - 1]) {
        end -= 1;
    }
    &bytes[..end]
}

// How many blanks stand at the front.
fn leading_blanks(bytes: &[u8]) -> usize
    ensures count { result ≡ prefix_len olds.is_white_space bytes.now }
    ensures within { result ≤ length bytes.now }
{
    let mut count = 0;
    while count < bytes.len() && is_blank(bytes[count]) {
        count += 1;
    }
    count
}

// A space, or one of the five bytes from the tab on.
fn is_blank(byte: u8) -> bool
    ensures { result ≡ olds.is_white_space byte }
{
    byte == b' ' || (9 <= byte && byte <= 13)
}
