//! An instant as it is printed.

ghost use Rattle.std.specs.Prelude.{◌≡◌, ◌++◌, ◌*◌, ◌/◌, ◌%◌, ◌<◌, ◌^◌, pos, codes, OnOk};
ghost use Rattle.jiff_core.specs.DateTime.{civil_nanos};
ghost use Rattle.instants.specs.Calendar.{day_of};
ghost use Rattle.instants.specs.Instants as spec;
ghost use Rattle.instants.specs.Dates.{day_meant, IsDayOf};

use crate::digits::{put_four, put_six, put_two};
use jiff::Timestamp;
use jiff::civil::DateTime;
use jiff::tz::Offset;
use std::alloc::AllocError;
use sub_number::NoMemory;

// A day of the calendar.
#[derive(Clone, Copy)]
struct Date {
    year: u32,
    month: u32,
    day: u32,
}

// The date and time of the library, so many seconds from 1970 on.
fn date_time(seconds: u64) -> DateTime
    requires { seconds < 2 ^ 35 }
    ensures { civil_nanos result ≡ pos (seconds * 1_000_000_000) }
{
    match Timestamp::from_second(seconds as i64) {
        Ok(instant) => Offset::UTC.to_datetime(instant),
        Err(_) => unreachable!(),
    }
}

// The same, whose date is told.
fn dated(seconds: u64) -> DateTime
    requires { seconds < 2 ^ 35 }
    ensures { IsDayOf (seconds / 86400) result.date }
{
    date_time(seconds)
}

// The day that lies so many seconds behind the first moment of 1970.
fn day_shown(seconds: u64) -> Date
    requires { seconds < 2 ^ 35 }
    ensures { day_meant result ≡ day_of (seconds / 86400) }
{
    let when = dated(seconds);
    Date {
        year: when.year() as u32,
        month: when.month() as u32,
        day: when.day() as u32,
    }
}

// Appends `YYYY-MM-DD`.
fn put_day(date: Date, out: &mut Vec<u8>) -> Result<(), AllocError>
    ensures { OnOk result (out.new.items ≡ out.old.items ++ spec.day_text (day_meant date)) }
{
    put_four(date.year, out)?;
    out.extend_from_slice(b"-")?;
    put_two(date.month, out)?;
    out.extend_from_slice(b"-")?;
    put_two(date.day, out)
}

// Appends `HH:MM:SS`, so many seconds behind midnight.
fn put_clock(seconds: u32, out: &mut Vec<u8>) -> Result<(), AllocError>
    ensures { OnOk result (out.new.items ≡ out.old.items ++ spec.clock_text seconds) }
{
    put_two(seconds / 3600, out)?;
    out.extend_from_slice(b":")?;
    put_two(seconds / 60 % 60, out)?;
    out.extend_from_slice(b":")?;
    put_two(seconds % 60, out)
}

// Appends `YYYY-MM-DD HH:MM:SS`.
fn put_second(seconds: u64, out: &mut Vec<u8>) -> Result<(), AllocError>
    requires { seconds < 2 ^ 35 }
    ensures { OnOk result (out.new.items ≡ out.old.items ++ spec.second_text seconds) }
{
    put_day(day_shown(seconds), out)?;
    out.extend_from_slice(b" ")?;
    put_clock((seconds % 86_400) as u32, out)
}

// Appends the point and the microseconds.
fn put_fraction(nanos: u32, out: &mut Vec<u8>) -> Result<(), AllocError>
    ensures { OnOk result (out.new.items ≡ out.old.items ++ codes "." ++ spec.six_digits (nanos / 1000)) }
{
    out.extend_from_slice(b".")?;
    put_six(nanos / 1000, out)
}

/// Appends the instant, in nanoseconds since 1970-01-01T00:00:00Z, as `YYYY-MM-DD HH:MM:SS.ffffff`, in UTC. Microseconds are
/// rounded down. What tells the zone (`Z`, `+00:00`) is the caller's to append.
///
/// After `NoMemory`, which comes only for want of memory, a first part of the text may have been appended.
#[tactic(auto, unfolding(crate::specs::Instants::instant_text))]
pub fn put_instant(nanos: u64, out: &mut Vec<u8>) -> Result<(), NoMemory>
    ensures text { OnOk result (out.new.items ≡ out.old.items ++ spec.instant_text nanos) }
{
    put_second(nanos / 1_000_000_000, out)?;
    put_fraction((nanos % 1_000_000_000) as u32, out)?;
    Ok(())
}
