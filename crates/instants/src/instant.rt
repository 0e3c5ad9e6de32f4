//! An instant as it is read.

ghost use Rattle.std.specs.Prelude.{◌≡◌, ◌+◌, ◌*◌, ◌≤◌, ◌<◌, ◌^◌, ◌*ℤ◌, ◌+ℤ◌, ◌<ℤ◌, ◌≤ℤ◌, pos, IsTrue, IfSome, IsNone, length, drop};
ghost use Rattle.std.specs.Option.{option_map};
ghost use Rattle.jiff_core.specs.DateTime.{civil_nanos};
ghost use Rattle.jiff_core.specs.Calendar.{IsDate};
ghost use Rattle.jiff_core.specs.Date.{IsYmd};
ghost use Rattle.jiff_core.specs.Time.{IsTime, IsHms};
ghost use Rattle.instants.specs.Instants as spec;
ghost use Rattle.instants.specs.Dates.{IsSecondOf, FitsDigits, day_told, meant};

use crate::digits::{are_digits, value_of};
use jiff::civil::DateTime;
use jiff::tz::Offset;

// Whether so many digits stand at a place.
fn has_digits(bytes: &[u8], place: usize, size: usize) -> bool
    requires { place + size ≤ length bytes.now }
    ensures { result ≡ spec.has_digits place size bytes.now }
{
    are_digits(&bytes[place..place + size])
}

// Whether the bytes begin as a date does.
fn has_date_form(bytes: &[u8]) -> bool
    requires { 19 ≤ length bytes.now }
    ensures { result ≡ spec.has_date_form bytes.now }
{
    has_digits(bytes, 0, 4)
        && bytes[4] == b'-'
        && has_digits(bytes, 5, 2)
        && bytes[7] == b'-'
        && has_digits(bytes, 8, 2)
        && bytes[10] == b' '
}

// Whether a time of day stands behind it.
fn has_clock_form(bytes: &[u8]) -> bool
    requires { 19 ≤ length bytes.now }
    ensures { result ≡ spec.has_clock_form bytes.now }
{
    has_digits(bytes, 11, 2)
        && bytes[13] == b':'
        && has_digits(bytes, 14, 2)
        && bytes[16] == b':'
        && has_digits(bytes, 17, 2)
}

// The number that the digits at a place write.
fn number_at(bytes: &[u8], place: usize, size: usize) -> u32
    requires range { place + size ≤ length bytes.now }
    requires digits { IsTrue (spec.has_digits place size bytes.now) }
    requires few { size ≤ 9 }
    ensures value { result ≡ spec.number_at place size bytes.now }
    ensures below { result < 10 ^ size }
{
    value_of(&bytes[place..place + size])
}

// A date and a time as they are told.
#[derive(Clone, Copy)]
struct Told {
    year: u32,
    month: u32,
    day: u32,
    hour: u32,
    minute: u32,
    second: u32,
}

// The seconds from 1970 to the date and time, where they are fewer than 2^32.
fn seconds_at(when: DateTime) -> Option<u32>
    requires { pos 0 ≤ℤ civil_nanos when }
    ensures some { IfSome result (λ seconds. IsSecondOf seconds (civil_nanos when)) }
    ensures none { IsNone result → pos (2 ^ 32 * 1_000_000_000) ≤ℤ civil_nanos when }
{
    match Offset::UTC.to_timestamp(when) {
        Ok(instant) => u32::try_from(instant.as_second()).ok(),
        Err(_) => None,
    }
}

// The date and time, where they exist.
fn date_time(told: Told) -> Option<DateTime>
    requires { FitsDigits told }
    ensures some { IfSome result (λ when. IsYmd (pos told.year) (pos told.month) (pos told.day) when.date × IsHms (pos told.hour) (pos told.minute) (pos told.second) (pos 0) when.time) }
    ensures none { IsNone result → IsDate (pos told.year) (pos told.month) (pos told.day) → IsTime (pos told.hour) (pos told.minute) (pos told.second) (pos 0) → ⊥ }
{
    DateTime::new(
        told.year as i16,
        told.month as i8,
        told.day as i8,
        told.hour as i8,
        told.minute as i8,
        told.second as i8,
        0,
    )
    .ok()
}

// The seconds from 1970 to the date and time, where these exist, not before 1970, and the seconds are fewer than 2^32.
fn seconds_with(told: Told) -> Option<u32>
    requires { FitsDigits told }
    ensures { result ≡ spec.seconds_with (day_told told) told.hour told.minute told.second }
{
    if told.year < 1970 {
        return None;
    }
    seconds_at(date_time(told)?)
}

// The date and time that the bytes begin with, which have the form.
fn parts_told(bytes: &[u8]) -> Told
    requires long { 19 ≤ length bytes.now }
    requires date { IsTrue (spec.has_date_form bytes.now) }
    requires clock { IsTrue (spec.has_clock_form bytes.now) }
    ensures short { FitsDigits result }
    ensures day { day_told result ≡ spec.day_at bytes.now }
    ensures hour { result.hour ≡ spec.number_at 11 2 bytes.now }
    ensures minute { result.minute ≡ spec.number_at 14 2 bytes.now }
    ensures second { result.second ≡ spec.number_at 17 2 bytes.now }
{
    Told {
        year: number_at(bytes, 0, 4),
        month: number_at(bytes, 5, 2),
        day: number_at(bytes, 8, 2),
        hour: number_at(bytes, 11, 2),
        minute: number_at(bytes, 14, 2),
        second: number_at(bytes, 17, 2),
    }
}

// The seconds from 1970 to the date and time that the bytes begin with.
fn seconds_of(bytes: &[u8]) -> Option<u32>
    ensures { result ≡ spec.seconds_of bytes.now }
{
    if bytes.len() < 19 || !has_date_form(bytes) || !has_clock_form(bytes) {
        return None;
    }
    seconds_with(parts_told(bytes))
}

// What stands between a point and the last byte, which are the nanoseconds where it is 1 to 9 digits.
fn fraction_with(digits: &[u8]) -> Option<u32>
    ensures value { result ≡ spec.fraction_with digits.now }
    ensures below { IfSome result (λ nanos. nanos < 1_000_000_000) }
{
    if !are_digits(digits) || digits.is_empty() || digits.len() > 9 {
        return None;
    }
    Some(value_of(digits) * scale(9 - digits.len()))
}

// The power of ten.
fn scale(places: usize) -> u32
    requires { places ≤ 9 }
    ensures { result ≡ 10 ^ places }
{
    const POWERS: [u32; 10] = [
        1,
        10,
        100,
        1_000,
        10_000,
        100_000,
        1_000_000,
        10_000_000,
        100_000_000,
        1_000_000_000,
    ];
    POWERS[places]
}

// `Z`, or a point, 1 to 9 digits and `Z`: the nanoseconds.
fn nanos_of(bytes: &[u8]) -> Option<u32>
    ensures value { result ≡ spec.nanos_of bytes.now }
    ensures below { IfSome result (λ nanos. nanos < 1_000_000_000) }
{
    if bytes == b"Z".as_slice() {
        return Some(0);
    }
    if bytes.starts_with(b".") && bytes.ends_with(b"Z") {
        return fraction_with(&bytes[1..bytes.len() - 1]);
    }
    None
}

/// An instant: whole seconds since 1970-01-01T00:00:00Z, and the nanoseconds behind them.
#[derive(Clone, Copy, Debug, PartialEq, Eq)]
pub struct Instant {
    /// Below 2^32.
    pub seconds: u32,
    /// Below 10^9.
    pub nanos: u32,
}

// The bytes behind so many, none where there are fewer.
fn behind(bytes: &[u8], count: usize) -> &[u8]
    ensures { result.now ≡ drop count bytes.now }
{
    &bytes[count.min(bytes.len())..]
}

// The instant of these seconds and nanoseconds, where both are told.
fn instant_with(seconds: Option<u32>, nanos: Option<u32>) -> Option<Instant>
    ensures value { option_map meant result ≡ spec.moment_with seconds nanos }
    ensures below { IfSome nanos (λ n. n < 1_000_000_000) → IfSome result (λ instant. instant.nanos < 1_000_000_000) }
{
    match (seconds, nanos) {
        (Some(seconds), Some(nanos)) => Some(Instant { seconds, nanos }),
        _ => None,
    }
}

/// The instant that the bytes tell, where they are `YYYY-MM-DD HH:MM:SS`, then nothing or a point and 1 to 9 digits, and then
/// `Z`. The date and the time are ones that exist, from 1970 on and below 2^32 seconds; second 60 does not exist. Other bytes
/// give None.
pub fn instant_of(bytes: &[u8]) -> Option<Instant>
    ensures value { option_map meant result ≡ spec.instant_of bytes.now }
    ensures below { IfSome result (λ instant. instant.nanos < 1_000_000_000) }
{
    instant_with(seconds_of(bytes), nanos_of(behind(bytes, 19)))
}
