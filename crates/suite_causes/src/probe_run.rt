//! The child of a probe, read to its end.

ghost use Rattle.std.specs.Prelude.{◌≡◌, ◌∷◌, ◌++◌, [], nat_eq, Some, List, IfSome, IfOk, IfErr, OnOk};
ghost use Rattle.std.specs.Cmp.Lexicographic.{pointwise};
ghost use Rattle.std.specs.List.{list_any};
ghost use Rattle.edge_io.specs.Children.{IsFinish, Output};
ghost use Rattle.outcome_fold.specs.Rows.{rows_of};
ghost use Rattle.outcome_fold.specs.Summed.{HasSummed};
ghost use Rattle.packet_codec.specs.Grammar.{AreBytes};
ghost use Rattle.packet_codec.specs.Packet.{SpellsEvent};
ghost use Rattle.packet_codec.specs.declared.event.Event.{Event};
ghost use Rattle.sub_number.specs.Texts.{IsShortText};
ghost use Rattle.suite_causes.specs.Probing.{one_fails, TellsProbe};
ghost use Rattle.worker_lane.specs.Endings.{IsPacketOf};
ghost use Rattle.worker_lane.specs.Lanes.{rest, lane_number};
ghost use Rattle.worker_lane.specs.Rest.{lots_asked};

use edge_io::Child;
use outcome_fold::{Row, RowSums};
use packet_codec::{Tags, front_packet};
use std::alloc::Global;
use std::slice;
use sub_number::{Bytes, NoMemory, Text};
use worker_lane::{Ending, Lane, Lot};

/// Why the child of a probe gives no answer.
#[derive(Clone, Copy, Debug, PartialEq, Eq)]
pub enum ProbeFault {
    /// It was not read to its end, or not waited for.
    Child,
    /// There is not enough memory.
    NoMemory,
}

impl From<NoMemory> for ProbeFault {
    ghost use Rattle.std.specs.Prelude.{◌≡◌};
    ghost use Rattle.suite_causes.specs.declared.probe_run.ProbeFault.TheVariants.{NoMemory};

    ghost from_gives = { λ _ fault. fault ≡ NoMemory };

    fn from(_: NoMemory) -> Self {
        ProbeFault::NoMemory
    }
}

/// Whether the test, which the child was asked to run, fails in what is recorded of the child's output as that of lane 0, its
/// end included. It fails, too, where the child did not end with 0 and said nothing more of it. The child is read to its end on
/// this thread, and waited for. Nothing is kept of it.
///
/// `Child` comes exactly where the reads of the child or the wait for it fail, where that is told, but for want of memory. With
/// `NoMemory` the child was stopped and waited for (no clause says so).
pub fn read_probe<C: Child + Drop>(alloc: Global, child: C, test: &Text) -> Result<bool, ProbeFault>
    ensures told { IfSome (C.seen child).told (TellsProbe test.now result) }
{
    holds_text(test);
    match Lane::new(alloc, 0, child, slice::from_ref(test)) {
        Ok(lane) => read_lane(alloc, lane, test),
        Err(child) => {
            give_up(child);
            Err(ProbeFault::NoMemory)
        }
    }
}

// What holds of each text.
fn holds_text(test: &Text)
    ensures { IsShortText test.now }
{
    let _bytes = test.bytes();
}

// Stops the child, and waits for it.
fn give_up<C: Child + Drop>(child: C) {
    let mut child = child;
    child.stop();
    let _ = child.wait();
}

// Reads the lane to its end.
fn read_lane<C: Child + Drop>(alloc: Global, lane: Lane<C>, test: &Text) -> Result<bool, ProbeFault>
    requires number { lane_number lane ≡ 0 }
    requires text { IsShortText test.now }
    ensures told { (output : Output) → AreBytes output.bytes → IsFinish output.finish → rest C.seen lane ≡ Some (lots_asked 0 (test.now ∷ []) output) → TellsProbe test.now result output }
{
    let mut lane = lane;
    let mut summing = RowSums::new(alloc, Tags::new(alloc));
    for _ in 0..u64::MAX {
        match lane.step() {
            Some(Lot::Packet(packet)) => {
                let Ok(()) = hear(&packet, &mut summing) else {
                    lane.give_up();
                    return Err(ProbeFault::NoMemory);
                };
            }
            Some(Lot::End(Ending::Exit(_))) => return has_failed(summing, test),
            Some(Lot::End(Ending::Fault)) => return Err(ProbeFault::Child),
            Some(Lot::End(Ending::NoMemory)) | None => return Err(ProbeFault::NoMemory),
        }
    }
    // There is no room for an output of so many packets.
    lane.give_up();
    Err(ProbeFault::NoMemory)
}

// Hears the packet.
fn hear(packet: &Bytes, summing: &mut RowSums) -> Result<(), NoMemory>
    requires packet { IsPacketOf 0 packet.now }
    ensures { (seen : List Event) (event : Event) → SpellsEvent packet.now event → HasSummed [] summing.old seen → OnOk result (HasSummed [] summing.new (seen ++ event ∷ [])) }
{
    let packet = front_packet(packet.bytes());
    summing.hear(&packet)
}

// Whether the test fails in the events that were heard.
fn has_failed(summing: RowSums, test: &Text) -> Result<bool, ProbeFault>
    ensures failed { (seen : List Event) → HasSummed [] summing seen → IfOk result (λ failed. failed ≡ one_fails test.now (rows_of seen)) }
    ensures fault { IfErr result (λ fault. fault ≡ ProbeFault.NoMemory) }
{
    let summary = summing.close()?;
    Ok(one_is(summary.failing(), test))
}

// Whether one of the rows is of the test.
fn one_is(rows: &[Row], test: &Text) -> bool
    ensures { result ≡ list_any (λ row. pointwise nat_eq row.id test.now) rows.now }
{
    rows.iter().any(|row| row.id == *test)
}
