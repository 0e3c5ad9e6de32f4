//! The route of an event, as names with `/` between them (testtools' routing codes).

ghost use Rattle.std.specs.Prelude.{◌≡◌, ◌+◌, ◌<◌, [], ◌∷◌, ◌++◌, codes, length, take, IfOk, OnOk, OnErr};
ghost use Rattle.std.specs.Fmt.{decimal};
ghost use Rattle.sub_number.specs.Texts.{IsShortText};
ghost use Rattle.packet_codec.specs.Routing.{under, route_under};
ghost use Rattle.packet_codec.specs.Shapes.{bytes_of};

use crate::event::Event;
use std::alloc::Global;
use sub_number::{NoMemory, Text};

/// Puts the event under the route of a lane: the lane's number where it had no route, and the number, `/` and the old
/// route where it had one.
pub fn reroute(alloc: Global, event: &mut Event, lane: u32) -> Result<(), NoMemory>
    requires lane { lane < 64 }
    requires text { IsShortText (route_under lane event.old.route) }
    ensures ok { OnOk result (event.new ≡ under lane event.old) }
    ensures err { OnErr result (event.new ≡ event.old) }
{
    event.route = Some(text_under(alloc, &event.route, lane)?);
    Ok(())
}

// The route under the lane.
fn text_under(alloc: Global, route: &Option<Text>, lane: u32) -> Result<Text, NoMemory>
    requires lane { lane < 64 }
    requires text { IsShortText (route_under lane route.now) }
    ensures { IfOk result (λ text. text ≡ route_under lane route.now) }
{
    let bytes = bytes_under(alloc, route, lane)?;
    Text::from_tested(alloc, &bytes)
}

fn bytes_under(alloc: Global, route: &Option<Text>, lane: u32) -> Result<Vec<u8>, NoMemory>
    requires { lane < 64 }
    ensures { IfOk result (λ bytes. bytes.items ≡ route_under lane route.now) }
{
    let mut bytes = Vec::new(alloc);
    match route {
        Some(route) => put_route(Some(route.bytes()), lane, &mut bytes)?,
        None => put_route(None, lane, &mut bytes)?,
    }
    Ok(bytes)
}

// Appends the route under the lane. What stands in `out` stays, also where there is not enough memory. So of each
// function below.
#[tactic(auto, using(crate::proofs::WritingLemmas::kept_twice))]
pub(crate) fn put_route(route: Option<&[u8]>, lane: u32, out: &mut Vec<u8>) -> Result<(), NoMemory>
    requires { lane < 64 }
    ensures ok { OnOk result (out.new.items ≡ out.old.items ++ route_under lane (bytes_of route.entry)) }
    ensures kept { take (length out.old.items) out.new.items ≡ out.old.items }
{
    put_number(lane, out)?;
    if let Some(route) = route {
        put_behind_slash(route, out)?;
    }
    Ok(())
}

#[tactic(auto, using(crate::proofs::WritingLemmas::kept_twice))]
fn put_behind_slash(route: &[u8], out: &mut Vec<u8>) -> Result<(), NoMemory>
    ensures ok { OnOk result (out.new.items ≡ out.old.items ++ codes "/" ++ route.now) }
    ensures kept { take (length out.old.items) out.new.items ≡ out.old.items }
{
    out.push(b'/')?;
    out.extend_from_slice(route)?;
    Ok(())
}

#[tactic(auto, using(std::proofs::lemmas::Fmt::decimal_digit, crate::proofs::RoutingLemmas::decimal_two, crate::proofs::WritingLemmas::kept_twice))]
fn put_number(lane: u32, out: &mut Vec<u8>) -> Result<(), NoMemory>
    requires { lane < 64 }
    ensures ok { OnOk result (out.new.items ≡ out.old.items ++ decimal lane) }
    ensures kept { take (length out.old.items) out.new.items ≡ out.old.items }
{
    if lane < 10 {
        return put_digit(lane, out);
    }
    put_digit(lane / 10, out)?;
    put_digit(lane % 10, out)
}

fn put_digit(digit: u32, out: &mut Vec<u8>) -> Result<(), NoMemory>
    requires { digit < 10 }
    ensures ok { OnOk result (out.new.items ≡ out.old.items ++ (48 + digit) ∷ []) }
    ensures kept { take (length out.old.items) out.new.items ≡ out.old.items }
{
    out.push(b'0' + digit as u8)?;
    Ok(())
}
