//! One worker process, read under its number.

ghost use Rattle.std.specs.Prelude.{◌≡◌, IfOk, length};

use crate::child_end::{stop_child, wait_for_child};
use crate::lane_state::LaneState;
use crate::lot::{Ending, Lot};
use crate::turn::Turn;
use edge_io::{Child, Failed, PIECE};
use std::alloc::Global;
use sub_number::{NoMemory, Text};

/// One worker process, read under a number. It gives what is recorded of the process's output, packet by packet, then
/// the packets of the tests of its job that were lost, then the packet that tells of its end, where there is one, and then
/// its end (docs/FORMATS.md, "What a lane gives").
///
/// Contracts see its number, and its *rest*, that is the list of lots that it has still to give, where its child tells.
/// They see a mark, too, whether a read of the child or the wait for it failed. `lots_in_turn` says what the clauses
/// come to, one step after another.
#[derive(Drop)]
pub struct Lane<C> {
    course: LaneState,
    pub(crate) child: C,
    buffer: Vec<u8>,
    ghost room: { length buffer.items ≡ 65536 },
}

impl<C: Child> Lane<C> {
    ghost use Rattle.std.specs.Prelude.{◌⊎◌, ◌≤◌, ◌<◌, ◌↔◌, true, false, None, Some, OnOk, OnErr, IfErr, IfSome, IfNone};
    ghost use Rattle.std.specs.Option.{option_map, option_to_list};
    ghost use Rattle.worker_lane.specs.Endings.{IsLotOf};
    ghost use Rattle.worker_lane.specs.Rest.{GivesIfTold, IsOver, lots_asked, IsMarkedLot, IsEnd};
    ghost use Rattle.stream_reader.specs.Room.{reader_room, most_held};
    ghost use Rattle.worker_lane.specs.Lanes.{rest, lane_number, lane_failed, lane_faults, lane_held, IsPast, AppendsPacket, KeepsLane};
    ghost use Rattle.worker_lane.specs.Turns.{turn_lot};
    ghost use Rattle.worker_lane.specs.declared.turn.Turn.TheVariants as turn;
    ghost use Rattle.worker_lane.specs.declared.lot.Lot.TheVariants.{End};
    ghost use Rattle.worker_lane.specs.declared.lot.Ending.TheVariants.{Fault, NoMemory as without_memory};
    ghost use Rattle.worker_lane.specs.declared.lane_stage.Stage.TheVariants.{Reading, Over};

    /// A lane over this child, whose job names these ids. The number is below 64. The child is handed back for want of
    /// memory alone.
    pub fn new(alloc: Global, number: u32, child: C, ids: &[Text]) -> Result<Self, C>
    where
        C: Drop,
        requires { number < 64 }
        ensures number { IfOk result (λ lane. lane_number lane ≡ number) }
        ensures rest { IfOk result (λ lane. rest C.seen lane ≡ option_map (lots_asked number ids.now) (C.seen child).told) }
        ensures fresh { IfOk result (λ lane. IsPast lane → ⊥) }
        ensures mark { IfOk result (λ lane. lane_failed lane ≡ false) }
        ensures count { IfOk result (λ lane. lane_faults C.seen lane ≡ (C.seen child).faults) }
        ensures back { IfErr result (λ same. same ≡ child) }
    {
        let Ok(course) = LaneState::new(alloc, number, ids) else {
            return Err(child);
        };
        let Ok(buffer) = read_buffer(alloc) else {
            return Err(child);
        };
        Ok(Lane {
            course,
            child,
            buffer,
        })
    }

    /// How many bytes the lane holds of which no note was taken: 4,325,376 at most.
    pub fn held(&self) -> usize
        ensures held { result ≡ lane_held self.now }
        ensures few { result ≤ reader_room }
    {
        self.course.held()
    }

    /// The next lot; it waits for the child until one is decided. None after the end. So it is of turns, one after another.
    pub fn step(&mut self) -> Option<Lot>
        ensures keeps { KeepsLane C.seen self.old self.new }
        ensures gives { (result ≡ Some (End without_memory)) ⊎ GivesIfTold (rest C.seen self.old) (option_to_list result) (rest C.seen self.new) }
        ensures lack { result ≡ Some (End without_memory) → IsOver (rest C.seen self.new) }
        ensures under { IfSome result (IsLotOf (lane_number self.old)) }
        ensures fault { result ≡ Some (End Fault) → lane_failed self.new ≡ true }
        ensures none { (result ≡ None) ↔ IsPast self.old }
        ensures over { IfNone result (IsOver (rest C.seen self.new)) }
        ensures stays { IfNone result (IsPast self.new) }
        ensures past { IfSome result (λ lot. IsEnd lot ↔ IsPast self.new) }
    {
        loop {
            match self.turn() {
                Turn::Given(lot) => return Some(lot),
                Turn::Read => {}
                Turn::Past => return None,
            }
        }
    }

    /// One turn: it gives the next lot, where what was read of the child decides it. Else it reads the child once, and may
    /// wait for that. So whoever may have to stop the child looks for that between two reads.
    ///
    /// Where a read of the child fails, or the wait for it, the lane is marked, gives what is recorded of the bytes that
    /// it has, and ends with `Fault`. For want of memory it stops the child, waits for it, and ends with `NoMemory`.
    pub fn turn(&mut self) -> Turn
        ensures keeps { KeepsLane C.seen self.old self.new }
        ensures gives { (turn_lot result ≡ Some (End without_memory)) ⊎ GivesIfTold (rest C.seen self.old) (option_to_list (turn_lot result)) (rest C.seen self.new) }
        ensures lack { turn_lot result ≡ Some (End without_memory) → IsOver (rest C.seen self.new) }
        ensures under { IfSome (turn_lot result) (IsLotOf (lane_number self.old)) }
        ensures fault { turn_lot result ≡ Some (End Fault) → lane_failed self.new ≡ true }
        ensures none { (result ≡ turn.Past) ↔ IsPast self.old }
        ensures over { result ≡ turn.Past → IsOver (rest C.seen self.new) }
        ensures stays { result ≡ turn.Past → IsPast self.new }
        ensures past { IfSome (turn_lot result) (λ lot. IsEnd lot ↔ IsPast self.new) }
        ensures read { result ≡ turn.Read → (IsPast self.new → ⊥) × (lane_held self.old ≤ most_held) × (lane_held self.old < lane_held self.new) }
    {
        match self.next_turn() {
            Ok(turn) => turn,
            Err(NoMemory) => {
                self.end();
                Turn::Given(Lot::End(Ending::NoMemory))
            }
        }
    }

    /// Appends the packet of the lot that stands next, where what was read of the child decides it already: it was given
    /// then, as by `step`. False where it does not, or there is no memory for it, and then nothing has changed. It never
    /// waits for the child.
    pub fn more_into(&mut self, out: &mut Vec<u8>) -> bool
        ensures keeps { KeepsLane C.seen self.old self.new }
        ensures more { result ≡ true → AppendsPacket C.seen self.old out.old.items self.new out.new.items }
        ensures none { result ≡ false → (self.new ≡ self.old) × (out.new.items ≡ out.old.items) }
        ensures past { IsPast self.new ↔ IsPast self.old }
    {
        if !self.course.is_reading() {
            return false;
        }
        self.course.next_into(out)
    }

    /// Stops the child and waits for it.
    pub fn give_up(mut self)
    where
        C: Drop,
    {
        stop_child(&mut self.child);
    }

    // One turn, where there is memory.
    fn next_turn(&mut self) -> Result<Turn, NoMemory>
        ensures keeps { KeepsLane C.seen self.old self.new }
        ensures gives { IfOk result (λ given. GivesIfTold (rest C.seen self.old) (option_to_list (turn_lot given)) (rest C.seen self.new)) }
        ensures under { IfOk result (λ given. IfSome (turn_lot given) (IsLotOf (lane_number self.old))) }
        ensures marked { IfOk result (λ given. IfSome (turn_lot given) (λ lot. IsMarkedLot lot (lane_failed self.new))) }
        ensures none { IfOk result (λ given. (given ≡ turn.Past) ↔ IsPast self.old) }
        ensures past { IfOk result (λ given. IfSome (turn_lot given) (λ lot. IsEnd lot ↔ IsPast self.new)) }
        ensures stays { IfOk result (λ given. given ≡ turn.Past → IsPast self.new) }
        ensures read { IfOk result (λ given. given ≡ turn.Read → (IsPast self.new → ⊥) × (lane_held self.old ≤ most_held) × (lane_held self.old < lane_held self.new)) }
        ensures err { OnErr result (IsPast self.old → ⊥) }
    {
        if self.course.is_reading() {
            if let Some(packet) = self.course.next()? {
                return Ok(Turn::Given(Lot::Packet(packet)));
            }
            if self.read_more() {
                return Ok(Turn::Read);
            }
        }
        match self.course.step()? {
            Some(lot) => Ok(Turn::Given(lot)),
            None => Ok(Turn::Past),
        }
    }

    // The child is stopped and waited for, and nothing more is given.
    fn end(&mut self)
        ensures keeps { KeepsLane C.seen self.old self.new }
        ensures past { IsPast self.new }
    {
        let failed = stop_child(&mut self.child);
        self.course.end(failed);
    }

    // One more read of the child. False where its output has ended.
    fn read_more(&mut self) -> bool
        requires reading { self.old.course.stage ≡ Reading }
        requires few { length self.old.course.scribe.held.bytes ≤ most_held }
        ensures keeps { KeepsLane C.seen self.old self.new }
        ensures same { rest C.seen self.old ≡ rest C.seen self.new }
        ensures more { result ≡ true → (self.new.course.stage ≡ Reading) × (length self.old.course.scribe.held.bytes < length self.new.course.scribe.held.bytes) }
        ensures ended { result ≡ false → (self.new.course.stage ≡ Reading → ⊥) × (self.new.course.stage ≡ Over → ⊥) }
    {
        match self.child.read(&mut self.buffer) {
            Ok(0) => {
                let ending = wait_for_child(&mut self.child);
                self.course.close(ending);
                false
            }
            Ok(count) => {
                self.course.feed(&self.buffer[..count]);
                true
            }
            Err(Failed) => {
                stop_child(&mut self.child);
                self.course.close(Ending::Fault);
                false
            }
        }
    }
}

// The room for a read.
fn read_buffer(alloc: Global) -> Result<Vec<u8>, NoMemory>
    ensures { IfOk result (λ buffer. length buffer.items ≡ 65536) }
{
    let mut buffer = Vec::new(alloc);
    buffer.resize(PIECE, 0)?;
    Ok(buffer)
}
