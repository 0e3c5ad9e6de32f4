//! The work of a lane, and how it is driven.

ghost use Rattle.std.specs.Prelude.{◌≡◌, ◌⊎◌, ℕ, List, Option, Some, None, IfNone, IfSome};
ghost use Rattle.std.specs.Option.{option_to_list};
ghost use Rattle.packet_codec.specs.Grammar.{AreBytes};
ghost use Rattle.worker_lane.specs.Rest.{GivesIfTold, IsOver};
ghost use Rattle.worker_lane.specs.Endings.{IsLotOf};
ghost use Rattle.worker_lane.specs.Lanes.{lane_number};
ghost use Rattle.worker_lane.specs.Turns.{turn_lot};
ghost use Rattle.worker_lane.specs.declared.turn.Turn.TheVariants as turn;
ghost use Rattle.worker_lane.specs.declared.lot.Lot.TheVariants.{End};
ghost use Rattle.worker_lane.specs.declared.lot.Ending.TheVariants.{NoMemory as without_memory};
ghost use Rattle.worker_mux.specs.Passes.{number_of};
ghost use Rattle.worker_mux.specs.Callers.{packet_of};
ghost use Rattle.worker_mux.specs.Works.{ArePacketsUnder, AreOwn, IsLotOfBytes, IsOwn, joined_packets, bytes_left, left, IsReady, IsReadyOutcome, Drives};

use crate::belt::Belt;
use crate::belt_passes::LanePass;
use crate::belt_wait::BeltWait;
use edge_io::Child;
use std::sync::Wait;
use std::sync::atomic::{AtomicBool, Ordering};
use sub_number::Bytes;
use worker_lane::{Lane, Lot, Turn};

/// What all lanes share: the belt, the gate at which threads wait for its moves, and whether all lanes are to stop.
#[derive(Drop)]
pub(crate) struct Shared {
    pub(crate) belt: Belt,
    pub(crate) gate: BeltWait,
    pub(crate) stop: AtomicBool,
}

/// A lane, its pass, and at most one lot that the belt handed back.
#[derive(Drop)]
pub(crate) struct Work<C> {
    pub(crate) lane: Lane<C>,
    pub(crate) pass: LanePass,
    pub(crate) kept: Option<Lot>,
}

/// What driving a work leads to.
#[derive(Drop)]
pub(crate) enum Outcome<C> {
    /// The belt was full and the lane's flag was set.
    Kept(Work<C>),
    /// All lots are put.
    Put(LanePass),
    /// All lanes are to stop, and the child was stopped.
    GivenUp(LanePass),
}

// What holds of the bytes of each slice: the type tells it.
fn are_bytes(bytes: &[u8])
    ensures { AreBytes bytes.now }
{}

// What holds of each lot: the type tells it.
fn has_bytes(lot: &Lot)
    ensures { IsLotOfBytes lot.now }
{
    match lot {
        Lot::Packet(packet) => are_bytes(packet.bytes()),
        Lot::End(_) => {}
    }
}

// From so many bytes on no packet is joined to others, and not more than so many are.
const FULL: usize = 65_536;

const MOST: u32 = 65_536;

// Joins to the packets those behind them that need no further read of the child.
fn join_packets<C: Child>(lane: &mut Lane<C>, packets: &mut Vec<u8>)
    requires own { ArePacketsUnder (lane_number lane.old) packets.old.items }
    ensures number { lane_number lane.new ≡ lane_number lane.old }
    ensures own { ArePacketsUnder (lane_number lane.old) packets.new.items }
    ensures gives { (start : Option (List ℕ)) → GivesIfTold start packets.old.items (bytes_left C.seen lane.old) → GivesIfTold start packets.new.items (bytes_left C.seen lane.new) }
{
    for _ in 0..MOST {
        if packets.len() >= FULL {
            return;
        }
        if !lane.more_into(packets) {
            return;
        }
    }
}

// A lot that the lane gave, with what is joined to it.
fn join<C: Child>(lane: &mut Lane<C>, lot: Lot) -> Lot
    requires under { IsLotOf (lane_number lane.old) lot }
    ensures number { lane_number lane.new ≡ lane_number lane.old }
    ensures own { AreOwn (lane_number lane.old) result }
    ensures gives { (start : Option (List ℕ)) → GivesIfTold start (packet_of lot) (bytes_left C.seen lane.old) → GivesIfTold start (packet_of result) (bytes_left C.seen lane.new) }
    ensures lack { lot ≡ End without_memory → result ≡ End without_memory }
{
    match lot {
        Lot::Packet(packet) => {
            let mut packets = packet.into_vec();
            join_packets(lane, &mut packets);
            Lot::Packet(Bytes::from_vec(packets))
        }
        Lot::End(how) => Lot::End(how),
    }
}

impl<C: Child> Work<C> {
    // One turn of the lane: of packets it gives as many as need no further read of the child.
    fn step(&mut self) -> Turn
        ensures pass { self.new.pass ≡ self.old.pass }
        ensures kept { self.new.kept ≡ self.old.kept }
        ensures number { lane_number self.new.lane ≡ lane_number self.old.lane }
        ensures own { IfSome (turn_lot result) (IsOwn (lane_number self.old.lane)) }
        ensures gives { (turn_lot result ≡ Some (End without_memory)) ⊎ GivesIfTold (bytes_left C.seen self.old.lane) (joined_packets (option_to_list (turn_lot result))) (bytes_left C.seen self.new.lane) }
        ensures none { result ≡ turn.Past → IsOver (bytes_left C.seen self.new.lane) }
    {
        match self.lane.turn() {
            Turn::Given(lot) => {
                let lot = join(&mut self.lane, lot);
                has_bytes(&lot);
                Turn::Given(lot)
            }
            Turn::Read => Turn::Read,
            Turn::Past => Turn::Past,
        }
    }

    // The lot to put next: the one that was handed back, or else the lane's next, where one turn gives it.
    fn next(&mut self) -> Turn
        requires number { lane_number self.old.lane ≡ number_of self.old.pass }
        requires kept { IfSome self.old.kept (IsOwn (number_of self.old.pass)) }
        ensures pass { self.new.pass ≡ self.old.pass }
        ensures number { lane_number self.new.lane ≡ lane_number self.old.lane }
        ensures own { IfSome (turn_lot result) (IsOwn (number_of self.old.pass)) }
        ensures kept { self.new.kept ≡ None }
        ensures gives { (turn_lot result ≡ Some (End without_memory)) ⊎ GivesIfTold (left C.seen self.old) (joined_packets (option_to_list (turn_lot result))) (left C.seen self.new) }
        ensures first { IfSome self.old.kept (λ lot. turn_lot result ≡ Some lot) }
        ensures none { result ≡ turn.Past → IsOver (left C.seen self.new) }
    {
        match self.kept.take() {
            Some(lot) => Turn::Given(lot),
            None => self.step(),
        }
    }
}

/// Puts each lot of the work, and waits while the belt is full. Where the flag is set, a full belt ends the call, and the
/// lot is kept. Where all lanes are to stop, the child is given up: that is looked for between two reads of the child.
pub(crate) fn drive_work<C: Child + Drop, R: Wait>(
    rt: &R,
    shared: &Shared,
    flag: &AtomicBool,
    mut work: Work<C>,
) -> Outcome<C>
    requires ready { IsReady shared.now.belt work }
    ensures ready { IsReadyOutcome shared.now.belt result }
    ensures drives { Drives C.seen work result }
{
    for _ in rt.forever() {
        // The count is read before the flag, so that a stop between the two is not slept through.
        let seen = shared.gate.takes_so_far();
        if shared.stop.load(Ordering::SeqCst) {
            let Work {
                lane,
                pass,
                kept: _,
            } = work;
            lane.give_up();
            return Outcome::GivenUp(pass);
        }
        match work.next() {
            Turn::Past => return Outcome::Put(work.pass),
            Turn::Read => {}
            Turn::Given(lot) => match shared.belt.put(rt, &mut work.pass, lot) {
                Ok(()) => shared.gate.tell_put(),
                Err(back) => {
                    work.kept = Some(back);
                    if flag.load(Ordering::SeqCst) {
                        return Outcome::Kept(work);
                    }
                    shared.gate.wait_for_take(rt, seen);
                }
            },
        }
    }
    unreachable!()
}
