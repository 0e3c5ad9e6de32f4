//! Numbers in digits, read and written.

ghost use Rattle.std.specs.Prelude.{◌≡◌, ◌≤◌, ◌<◌, ◌^◌, ◌++◌, IsTrue, OnOk, length};
ghost use Rattle.std.specs.Char.{is_ascii_digit};
ghost use Rattle.std.specs.List.{list_all};
ghost use Rattle.std.specs.Str.Parse.{digits_value};
ghost use Rattle.instants.specs.Instants as spec;

use std::alloc::AllocError;

/// Whether each byte is a digit.
pub(crate) fn are_digits(bytes: &[u8]) -> bool
    ensures { result ≡ list_all is_ascii_digit bytes.now }
{
    bytes.iter().all(|byte| byte.is_ascii_digit())
}

/// The number that so few digits write.
pub(crate) fn value_of(digits: &[u8]) -> u32
    requires digits { IsTrue (list_all is_ascii_digit digits.now) }
    requires few { length digits.now ≤ 9 }
    ensures value { result ≡ digits_value 10 digits.now }
    ensures below { result < 10 ^ length digits.now }
{
    let mut value = 0;
    for digit in digits {
        value = value * 10 + u32::from(digit - b'0');
    }
    value
}

fn last_digit(n: u32) -> u8
    ensures { result ≡ spec.last_digit n }
{
    b'0' + (n % 10) as u8
}

/// Appends the last two digits.
pub(crate) fn put_two(n: u32, out: &mut Vec<u8>) -> Result<(), AllocError>
    ensures { OnOk result (out.new.items ≡ out.old.items ++ spec.two_digits n) }
{
    out.extend_from_slice(&[last_digit(n / 10), last_digit(n)])
}

/// Appends the last four digits.
pub(crate) fn put_four(n: u32, out: &mut Vec<u8>) -> Result<(), AllocError>
    ensures { OnOk result (out.new.items ≡ out.old.items ++ spec.four_digits n) }
{
    put_two(n / 100, out)?;
    put_two(n, out)
}

/// Appends the last six digits.
pub(crate) fn put_six(n: u32, out: &mut Vec<u8>) -> Result<(), AllocError>
    ensures { OnOk result (out.new.items ≡ out.old.items ++ spec.six_digits n) }
{
    put_two(n / 10_000, out)?;
    put_four(n, out)
}
