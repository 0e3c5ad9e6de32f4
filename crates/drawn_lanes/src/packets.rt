//! The packets of a test for which a number was drawn.

ghost use Rattle.std.specs.Prelude.{◌≡◌, ◌<◌, ◌^◌, ◌++◌, ℕ, IfOk, OnOk};
ghost use Rattle.std.specs.List.{flat_map};
ghost use Rattle.packet_codec.specs.Canonical.{canonical};
ghost use Rattle.drawn_lanes.specs.Outputs.{test_id as id_of, drawn_status, drawn_nanos, drawn_nanos_fit, none_fit, drawn_stamp, drawn_event, test_events};
ghost use Rattle.packet_codec.specs.declared.status.Status.TheVariants.{InProgress};

use itoa::Buffer;
use packet_codec::{Event, Stamp, Status, encode};
use std::alloc::Global;
use sub_number::{NoMemory, Text};

/// The most tests of a lane.
pub(crate) const MOST_TESTS: u32 = 1_000_000;

// The second in which the first test of each lane begins and ends; those of the others follow one by one.
const FIRST_SECOND: u32 = 1_500_000_000;

/// Appends the packets of the lane's test of this number, for which `number` was drawn: that it begins, and how it ends.
/// `spare` is overwritten.
///
/// With `NoMemory` some of the bytes may have been appended.
pub(crate) fn put_test(
    lane: u32,
    test: u32,
    number: u32,
    spare: &mut Vec<u8>,
    out: &mut Vec<u8>,
) -> Result<(), NoMemory>
    requires lane { lane < 64 }
    requires test { test < 1_000_000 }
    ensures { OnOk result (out.new.items ≡ out.old.items ++ flat_map canonical (test_events lane test number)) }
{
    let event = begun_event(lane, test, spare)?;
    encode(&event, out)?;
    encode(&ended_event(event, test, number), out)
}

// The event with which the test begins.
fn begun_event(lane: u32, test: u32, spare: &mut Vec<u8>) -> Result<Event, NoMemory>
    requires lane { lane < 64 }
    requires test { test < 1_000_000 }
    ensures { IfOk result (λ event. event ≡ drawn_event lane test InProgress 0 none_fit) }
{
    let id = test_id(lane, test, spare)?;
    Ok(Event {
        stamp: Some(stamp(test, 0)),
        id: Some(id),
        tags: None,
        runnable: true,
        status: Status::InProgress,
        mime: None,
        file: None,
        eof: false,
        route: None,
    })
}

// The event with which it ends, of that with which it began.
fn ended_event(event: Event, test: u32, number: u32) -> Event
    requires test { test < 1_000_000 }
    ensures { (lane : ℕ) → event ≡ drawn_event lane test InProgress 0 none_fit → result ≡ drawn_event lane test (drawn_status number) (drawn_nanos number) (drawn_nanos_fit number) }
{
    Event {
        stamp: Some(stamp(test, number % 1000 * 1_000_000)),
        status: status(number),
        ..event
    }
}

// So many nanoseconds into the second of the test of this number.
fn stamp(test: u32, nanos: u32) -> Stamp
    requires test { test < 1_000_000 }
    requires nanos { nanos < 2 ^ 30 }
    ensures { (fit : nanos < 2 ^ 30) → result ≡ drawn_stamp test nanos fit }
{
    Stamp {
        seconds: FIRST_SECOND + test,
        nanos,
    }
}

fn test_id(lane: u32, test: u32, spare: &mut Vec<u8>) -> Result<Text, NoMemory>
    requires lane { lane < 64 }
    requires test { test < 1_000_000 }
    ensures { IfOk result (λ id. id ≡ id_of lane test) }
{
    let mut digits = Buffer::new();
    spare.clear();
    spare.extend_from_slice(b"lane.")?;
    spare.extend_from_slice(digits.format(lane).as_bytes())?;
    spare.extend_from_slice(b".test.")?;
    spare.extend_from_slice(digits.format(test).as_bytes())?;
    Text::from_tested(*spare.allocator(), spare)
}

fn status(number: u32) -> Status
    ensures { result ≡ drawn_status number }
{
    match number % 7 {
        0 => Status::Fail,
        1 => Status::Skip,
        _ => Status::Success,
    }
}
