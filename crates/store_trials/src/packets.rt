//! Packets that runs are made of.

ghost use Rattle.std.specs.Prelude.{IfSome};
ghost use Rattle.packet_codec.specs.Canonical.{IsEvent, Fits};
ghost use Rattle.packet_codec.specs.Packets.{ArePackets};

use packet_codec::{Event, Status, encode, fits};
use std::alloc::Global;
use trial_events::at;

fn write(event: &Event, run: &mut Vec<u8>) -> Option<()>
    requires { IsEvent event.now × Fits event.now }
    ensures { ArePackets run.old.items → IfSome result (λ _. ArePackets run.new.items) }
{
    let Ok(()) = encode(event, run) else {
        return None;
    };
    Some(())
}

/// Appends the packet of an event of the test, at this second.
pub fn says(alloc: Global, run: &mut Vec<u8>, id: u8, status: Status, second: u32) -> Option<()>
    ensures { ArePackets run.old.items → IfSome result (λ _. ArePackets run.new.items) }
{
    let event = at(trial_events::says(alloc, b"", &[id], status), second, 0);
    if !fits(&event) {
        return None;
    }
    write(&event, run)
}

/// A run in which two tests end so.
#[tactic(auto, using(crate::proofs::PacketLemmas::no_packets))]
pub fn ended(alloc: Global, a: u8, first: Status, b: u8, second: Status) -> Option<Vec<u8>>
    ensures { IfSome result (λ run. ArePackets run.items) }
{
    let mut run = Vec::new(alloc);
    says(alloc, &mut run, a, first, 0)?;
    says(alloc, &mut run, b, second, 0)?;
    Some(run)
}
