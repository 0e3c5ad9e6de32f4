//! The queue, and its calls.

ghost use Rattle.std.specs.Prelude.{◌≡◌, ◌∷◌, ◌++◌, [], ◌≤◌, map, IfSome, IfNone, OnOk, OnErr, IfErr, IfOk};
ghost use Rattle.std.specs.List.{AllByRecursion, range_with_len};
ghost use Rattle.crossbeam_queue.specs.Passes.{view};
ghost use Rattle.worker_mux.specs.declared.knowledge.Knowledge.TheVariants.{Taker as Seen};
ghost use Rattle.worker_mux.specs.Packets.{IsWhole};
ghost use Rattle.worker_mux.specs.Rule.{WasTaken};
ghost use Rattle.worker_mux.specs.Passes.{room_of, number_of, lots_put, lane_count, lots_taken, settled_lanes, IsPassFor, IsTakerFor, IsFresh, settled_pass, LeftFront, WasAtStep, HasFirstParts, HasAll, IsOfLanes};

use crate::belt_passes::{LanePass, Taker};
use crate::knowledge::Parcel;
use crate::rule::{Lanes, Line, Puts, Takes};
use std::alloc::Global;
use std::sync::Wait;
use sub_number::NoMemory;
use worker_lane::Lot;

/// A bounded queue of lots, shared by the threads that put and the one that takes. It holds at most as many lots as it
/// was made with room for.
///
/// `put`, `take` and `settle` take no memory, and move each lot. `put` and `take` may wait for a step of the queue that
/// another thread has begun; what they ensure holds if they return.
#[derive(Drop)]
pub struct Belt {
    pub(crate) queue: Line,
}

impl Belt {
    /// A belt with room for so many lots, its taker, and a pass for each lane, with the numbers 0, 1 and so on. There are
    /// 1 to 64 lanes, and room for 1 to 1,024 lots.
    pub fn new(
        alloc: Global,
        lanes: u32,
        room: usize,
    ) -> Result<(Belt, Taker, Vec<LanePass>), NoMemory>
        requires lanes { (1 ≤ lanes) × (lanes ≤ 64) }
        requires room { (1 ≤ room) × (room ≤ 1024) }
        ensures room { IfOk result (λ made. room_of made.0 ≡ room) }
        ensures taker { IfOk result (λ made. IsTakerFor made.0 made.1) }
        ensures lanes { IfOk result (λ made. lane_count made.1 ≡ lanes) }
        ensures nothing_taken { IfOk result (λ made. lots_taken made.1 ≡ []) }
        ensures nothing_settled { IfOk result (λ made. settled_lanes made.1 ≡ []) }
        ensures numbers { IfOk result (λ made. map number_of made.2.items ≡ range_with_len 0 lanes) }
        ensures fresh { IfOk result (λ made. AllByRecursion (IsFresh made.0) made.2.items) }
    {
        let (queue, mut pass) = Line::ruled(alloc, room)?;
        let mut passes = Vec::with_capacity(alloc, lanes as usize)?;
        for number in 0..lanes {
            passes.push(LanePass {
                number,
                pass: queue.another::<Lanes>(&mut pass),
            })?;
        }
        Ok((Belt { queue }, Taker { pass }, passes))
    }

    /// Puts a lot of whole packets, or an end, behind all that is on the belt: it is then the last of the pass's list. The
    /// pass is one of this belt.
    ///
    /// The same lot may come back, and nothing has changed then. It comes back where the belt was full at a step of this
    /// call (no clause says so).
    pub fn put<R: Wait>(&self, rt: &R, pass: &mut LanePass, lot: Lot) -> Result<(), Lot>
        requires made_here { IsPassFor self.now pass.old }
        requires packets { IsWhole lot }
        ensures made_here { IsPassFor self.now pass.new }
        ensures number { number_of pass.new ≡ number_of pass.old }
        ensures put { OnOk result (lots_put pass.new ≡ lots_put pass.old ++ lot ∷ []) }
        ensures handed_back { IfErr result (λ same. same ≡ lot) }
        ensures unchanged { OnErr result (lots_put pass.new ≡ lots_put pass.old) }
    {
        let parcel = Parcel {
            lane: pass.number,
            lot,
        };
        match self.queue.push_as::<Puts, R>(rt, &mut pass.pass, parcel) {
            Ok(()) => Ok(()),
            Err(back) => Err(back.lot),
        }
    }

    /// Takes the lot at the front, with its lane: it is of whole packets, or an end, and is then the last of what was taken.
    /// The taker is this belt's.
    ///
    /// None may come, and nothing has changed then: of each settled lane all was taken. It comes where the belt was empty at
    /// a step of this call (no other clause says so).
    pub fn take<R: Wait>(&self, rt: &R, taker: &mut Taker) -> Option<(u32, Lot)>
        requires made_here { IsTakerFor self.now taker.old }
        ensures made_here { IsTakerFor self.now taker.new }
        ensures lanes { lane_count taker.new ≡ lane_count taker.old }
        ensures settled { settled_lanes taker.new ≡ settled_lanes taker.old }
        ensures taken { IfSome result (λ lot. lots_taken taker.new ≡ lots_taken taker.old ++ record { lane = lot.0; lot = lot.1 } ∷ []) }
        ensures packets { IfSome result (λ lot. IsWhole lot.1) }
        ensures left_front { IfSome result (λ lot. LeftFront taker.old (record { lane = lot.0; lot = lot.1 }) taker.new) }
        ensures unchanged { IfNone result (lots_taken taker.new ≡ lots_taken taker.old) }
        ensures first_parts { HasFirstParts taker.new }
        ensures all { IfNone result (HasAll taker.new) }
        ensures of_lanes { IsOfLanes taker.new }
    {
        let Parcel { lane, lot } = self.front(rt, taker)?;
        Some((lane, lot))
    }

    /// Ends a lane: from then on the taker knows all that its pass has put. The pass and the taker are of this belt.
    pub fn settle<R>(&self, _rt: &R, taker: &mut Taker, pass: LanePass)
        requires taker { IsTakerFor self.now taker.old }
        requires pass { IsPassFor self.now pass }
        ensures made_here { IsTakerFor self.now taker.new }
        ensures lanes { lane_count taker.new ≡ lane_count taker.old }
        ensures taken { lots_taken taker.new ≡ lots_taken taker.old }
        ensures settled { settled_lanes taker.new ≡ settled_pass pass ∷ settled_lanes taker.old }
        ensures told { WasAtStep taker.new }
        ensures first_parts { HasFirstParts taker.new }
        ensures of_lanes { IsOfLanes taker.new }
    {
        self.absorb(taker, pass);
        self.look(taker);
    }

    // The step of a take.
    fn front<R: Wait>(&self, rt: &R, taker: &mut Taker) -> Option<Parcel>
        requires taker { IsTakerFor self.now taker.old }
        ensures taker { IsTakerFor self.now taker.new }
        ensures some { IfSome result (λ parcel. WasTaken (view taker.old.pass) parcel (view taker.new.pass)) }
        ensures packets { IfSome result (λ parcel. IsWhole parcel.lot) }
        ensures none { IfNone result (view taker.new.pass ≡ view taker.old.pass) }
        ensures first_parts { HasFirstParts taker.new }
        ensures all { IfNone result (HasAll taker.new) }
        ensures of_lanes { IsOfLanes taker.new }
    {
        let parcel = self.queue.pop_as::<Takes, R>(rt, &mut taker.pass)?;
        Some(parcel)
    }

    // The step at which a pass ends.
    fn absorb(&self, taker: &mut Taker, pass: LanePass)
        requires taker { IsTakerFor self.now taker.old }
        requires pass { IsPassFor self.now pass }
        ensures taker { IsTakerFor self.now taker.new }
        ensures settled { view taker.new.pass ≡ Seen (lane_count taker.old) (lots_taken taker.old) (settled_pass pass ∷ settled_lanes taker.old) }
    {
        let LanePass { number: _, pass } = pass;
        self.queue.absorb::<Lanes>(&mut taker.pass, pass);
    }

    // A step at which the taker looks at the belt, and nothing changes.
    fn look(&self, taker: &mut Taker)
        requires taker { IsTakerFor self.now taker.old }
        ensures taker { IsTakerFor self.now taker.new }
        ensures same { view taker.new.pass ≡ view taker.old.pass }
        ensures told { WasAtStep taker.new }
        ensures first_parts { HasFirstParts taker.new }
        ensures of_lanes { IsOfLanes taker.new }
    {
        self.queue.learn_as::<Takes>(&mut taker.pass);
    }
}
