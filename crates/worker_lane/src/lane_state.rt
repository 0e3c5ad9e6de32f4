//! What is kept of a lane beside its child.

ghost use Rattle.std.specs.Prelude.{◌≡◌, ◌⊎◌, ◌<◌, ◌≤◌, ◌+◌, ◌++◌, ◌∷◌, ◌↔◌, IsTrue, ℕ, List, [], true, false, None, IfOk, OnErr, IfSome, IfNone, length, drop};
ghost use Rattle.std.specs.Option.{option_to_list};
ghost use Rattle.packet_codec.specs.Grammar.{AreBytes};
ghost use Rattle.edge_io.specs.declared.child.Finish.{Finish};
ghost use Rattle.worker_lane.specs.Endings.{ending_of, IsPacketOf, IsLotOf};
ghost use Rattle.worker_lane.specs.Lost.{lost_under, lost_event};
ghost use Rattle.packet_codec.specs.Routing.{under};
ghost use Rattle.edge_io.specs.Children.{Output};
ghost use Rattle.stream_reader.specs.Room.{reader_room, most_held};
ghost use Rattle.worker_lane.specs.Rest.{lots, new_course, AppendsNext, IsMarkedLot, IsEnd};
ghost use Rattle.worker_lane.specs.Courses.{KeepsCourse, KeepsLaneAndMark, EndsCourse, GivesHeard, HasNoneHeard, GivesLost, HasNoneLost};
ghost use Rattle.worker_lane.specs.declared.lot.Lot.TheVariants.{Packet};
ghost use Rattle.worker_lane.specs.declared.lot.Ending.TheVariants.{Fault, NoMemory as without_memory};
ghost use Rattle.worker_lane.specs.declared.lane_stage.Stage.TheVariants.{Reading, Closing, Over};

use crate::lane_stage::Stage;
use crate::lot::{Ending, Lot};
use crate::scribe::Scribe;
use crate::unheard_ids::UnheardIds;
use std::alloc::Global;
use std::marker::Model;
use sub_number::{Bytes, NoMemory, Text};

/// What is kept of a lane beside its child.
#[derive(Drop)]
pub(crate) struct LaneState {
    scribe: Scribe,
    sought: UnheardIds,
    stage: Stage,
    // A read of the child or the wait for it failed.
    failed: bool,
}

impl Model for LaneState {
    ghost use Rattle.worker_lane.specs.Rest.{Coursing, IsSoundScribe, IsAtStage};

    ghost Value = { Coursing };

    ghost view = { λ c. record { scribe = c.scribe; ids = c.sought; stage = c.stage; failed = c.failed } };

    ghost invariant = { λ c. IsSoundScribe c.scribe × IsAtStage c.stage c.scribe.held.ended c.failed };
}

impl LaneState {
    /// The course of a new lane, whose job names these ids. The number is below 64.
    pub(crate) fn new(alloc: Global, number: u32, ids: &[Text]) -> Result<Self, NoMemory>
        requires { number < 64 }
        ensures { IfOk result (λ course. course ≡ new_course number ids.now) }
    {
        Ok(LaneState {
            scribe: Scribe::new(alloc, number)?,
            sought: UnheardIds::new(alloc, ids)?,
            stage: Stage::Reading,
            failed: false,
        })
    }

    /// How many bytes were given to it of which no note was taken.
    pub(crate) fn held(&self) -> usize
        ensures held { result ≡ length self.now.scribe.held.bytes }
        ensures few { result ≤ reader_room }
    {
        self.scribe.held()
    }

    /// The child is still read.
    pub(crate) fn is_reading(&self) -> bool
        ensures { IsTrue result ↔ (self.now.stage ≡ Reading) }
    {
        matches!(self.stage, Stage::Reading)
    }

    /// The next packet, while the child is read. None where more bytes are needed.
    pub(crate) fn next(&mut self) -> Result<Option<Bytes>, NoMemory>
        requires { self.old.stage ≡ Reading }
        ensures keeps { KeepsCourse self.old self.new }
        ensures gives { IfOk result (λ answer. IfSome answer (λ packet. (output : Output) → AreBytes output.bytes → lots self.old output ≡ Packet packet ∷ lots self.new output)) }
        ensures under { IfOk result (λ answer. IfSome answer (IsPacketOf self.old.scribe.lane)) }
        ensures none { IfOk result (λ answer. IfNone answer ((self.new ≡ self.old) × (length self.old.scribe.held.bytes ≤ most_held))) }
    {
        self.next_heard()
    }

    /// Appends the next packet, while the child is read. False where more bytes are needed, or memory for it, and then
    /// nothing has changed.
    pub(crate) fn next_into(&mut self, out: &mut Vec<u8>) -> bool
        requires { self.old.stage ≡ Reading }
        ensures keeps { KeepsCourse self.old self.new }
        ensures appends { result ≡ true → AppendsNext self.old out.old.items self.new out.new.items }
        ensures none { result ≡ false → (self.new ≡ self.old) × (out.new.items ≡ out.old.items) }
    {
        let start = out.len();
        let Ok(given) = self.scribe.next_into(out) else {
            return false;
        };
        if given {
            self.sought.hear(behind(out, start));
        }
        given
    }

    /// What a read of the child gave.
    pub(crate) fn feed(&mut self, piece: &[u8])
        requires reading { self.old.stage ≡ Reading }
        requires few { length self.old.scribe.held.bytes ≤ most_held }
        requires short { length piece.now ≤ 65536 }
        ensures keeps { KeepsCourse self.old self.new }
        ensures left { (more : List ℕ) (finish : Finish) → lots self.old (record { bytes = piece.now ++ more; finish = finish }) ≡ lots self.new (record { bytes = more; finish = finish }) }
        ensures longer { length self.new.scribe.held.bytes ≡ length self.old.scribe.held.bytes + length piece.now }
    {
        self.scribe.feed(piece);
    }

    /// The child is not read any more, and the lane ends so. A fault is marked.
    pub(crate) fn close(&mut self, ending: Ending)
        requires reading { self.old.stage ≡ Reading }
        requires ending { ending ≡ without_memory → ⊥ }
        ensures ends { EndsCourse self.old ending self.new }
        ensures left { (finish : Finish) (output : Output) → ending_of finish ≡ ending → lots self.old (record { bytes = []; finish = finish }) ≡ lots self.new output }
    {
        self.scribe.finish();
        if matches!(ending, Ending::Fault) {
            self.failed = true;
        }
        self.stage = Stage::Closing(ending);
    }

    /// The next lot, once the child is not read any more. None after the end.
    pub(crate) fn step(&mut self) -> Result<Option<Lot>, NoMemory>
        requires { self.old.stage ≡ Reading → ⊥ }
        ensures goes { KeepsLaneAndMark self.old self.new }
        ensures gives { IfOk result (λ answer. (output other : Output) → lots self.old output ≡ option_to_list answer ++ lots self.new other) }
        ensures under { IfOk result (λ answer. IfSome answer (IsLotOf self.old.scribe.lane)) }
        ensures marked { IfOk result (λ answer. IfSome answer (λ lot. IsMarkedLot lot self.new.failed)) }
        ensures none { IfOk result (λ answer. (answer ≡ None) ↔ (self.old.stage ≡ Over)) }
        ensures over { IfOk result (λ answer. IfSome answer (λ lot. IsEnd lot ↔ (self.new.stage ≡ Over))) }
        ensures stays { IfOk result (λ answer. IfNone answer (self.new.stage ≡ Over)) }
        ensures err { OnErr result (self.old.stage ≡ Over → ⊥) }
    {
        match self.stage {
            Stage::Closing(ending) => Ok(Some(self.step_closing(ending)?)),
            Stage::Last(ending) => {
                self.stage = Stage::Over;
                Ok(Some(Lot::End(ending)))
            }
            Stage::Reading | Stage::Over => Ok(None),
        }
    }

    // The next lot, while packets may be left.
    fn step_closing(&mut self, ending: Ending) -> Result<Lot, NoMemory>
        requires { self.old.stage ≡ Closing ending }
        ensures goes { KeepsLaneAndMark self.old self.new }
        ensures gives { IfOk result (λ lot. (output other : Output) → lots self.old output ≡ lot ∷ lots self.new other) }
        ensures under { IfOk result (IsLotOf self.old.scribe.lane) }
        ensures marked { IfOk result (λ lot. IsMarkedLot lot self.new.failed) }
        ensures over { IfOk result (λ lot. IsEnd lot ↔ (self.new.stage ≡ Over)) }
    {
        if let Some(packet) = self.next_heard()? {
            return Ok(Lot::Packet(packet));
        }
        if let Some(packet) = self.next_lost(ending)? {
            return Ok(Lot::Packet(packet));
        }
        if let Some(packet) = self.scribe.ending(&ending)? {
            self.stage = Stage::Last(ending);
            return Ok(Lot::Packet(packet));
        }
        self.stage = Stage::Over;
        Ok(Lot::End(ending))
    }

    // The next packet of what is recorded of the bytes that were fed.
    fn next_heard(&mut self) -> Result<Option<Bytes>, NoMemory>
        ensures keeps { KeepsCourse self.old self.new }
        ensures gives { IfOk result (λ answer. IfSome answer (λ packet. GivesHeard self.old packet self.new)) }
        ensures same { IfOk result (λ answer. IfNone answer (self.new ≡ self.old)) }
        ensures none { IfOk result (λ answer. IfNone answer (HasNoneHeard self.old)) }
    {
        let Some(packet) = self.scribe.next()? else {
            return Ok(None);
        };
        self.sought.hear(packet.bytes());
        Ok(Some(packet))
    }

    // The packet of the next test that was lost. None where none is left, or none is recorded of this ending.
    fn next_lost(&mut self, ending: Ending) -> Result<Option<Bytes>, NoMemory>
        requires { self.old.stage ≡ Closing ending }
        ensures keeps { KeepsCourse self.old self.new }
        ensures gives { IfOk result (λ answer. IfSome answer (λ packet. GivesLost self.old ending packet self.new)) }
        ensures none { IfOk result (λ answer. IfNone answer (HasNoneLost self.old ending)) }
    {
        if loses_none(ending) {
            return Ok(None);
        }
        let Some(id) = self.sought.pop()? else {
            return Ok(None);
        };
        Ok(Some(self.scribe.lost(id)?))
    }

    /// Nothing more is given. The mark is set where a wait failed.
    pub(crate) fn end(&mut self, failed: bool)
        ensures lane { self.new.scribe.lane ≡ self.old.scribe.lane }
        ensures over { self.new.stage ≡ Over }
        ensures stays { self.old.failed ≡ true → self.new.failed ≡ true }
        ensures mark { self.new.failed ≡ true → (self.old.failed ≡ true) ⊎ (failed ≡ true) }
    {
        self.failed |= failed;
        self.stage = Stage::Over;
    }
}

// What stands behind the first bytes, of which there are so many.
fn behind(bytes: &[u8], start: usize) -> &[u8]
    requires { start ≤ length bytes.now }
    ensures { result.now ≡ drop start bytes.now }
{
    &bytes[start..]
}

// Whether no test of a lane with this ending is lost.
fn loses_none(ending: Ending) -> bool
    ensures yes { result ≡ true → (lane : ℕ) (id : List ℕ) → lost_under lane ending id ≡ [] }
    ensures no { result ≡ false → (lane : ℕ) (id : List ℕ) → lost_under lane ending id ≡ under lane (lost_event id) ∷ [] }
{
    matches!(ending, Ending::Exit(0) | Ending::NoMemory)
}
