//! The part of the one that records: it alone takes lots and adds them to the run.

ghost use Rattle.std.specs.Prelude.{◌≡◌, ◌≤◌, ◌+◌, ◌∷◌, ◌++◌, [], ℕ, List, Option, None, true, false, IsFalse};
ghost use Rattle.edge_io.specs.Disk.{Folder};
ghost use Rattle.edge_io.specs.Steps.{Goes, Grown};
ghost use Rattle.packet_codec.specs.Packets.{ArePackets};
ghost use Rattle.worker_lane.specs.declared.lot.Lot.TheVariants.{End};
ghost use Rattle.worker_lane.specs.declared.lot.Ending.TheVariants.{NoMemory as without_memory};
ghost use Rattle.worker_mux.specs.Callers.{IsCaller, GoesOn, KeepsTape, IsOpen, StandsBy, Tape, WasHanded, calls_for, packet_of, pieces_of_lot, tape};
ghost use Rattle.worker_mux.specs.Packets.{IsWhole};
ghost use Rattle.worker_mux.specs.Passes.{number_of, settled_lanes, settled_pass, HasAll, IsOfLanes};
ghost use Rattle.worker_mux.specs.Works.{IsOwnPass, IsPut, Drives, IsReadyOutcome};

use crate::belt_passes::{LanePass, Taker};
use crate::listener::Listener;
use crate::run_appender::RunAppender;
use crate::work::{Outcome, Shared, Work, drive_work};
use edge_io::{Child, Shelf};
use std::snapshot::Snapshot;
use std::sync::Wait;
use std::sync::atomic::{AtomicBool, Ordering};
use sub_number::NoMemory;
use worker_lane::{Ending, Lot};

/// The taker, who hears what is added, as it is and as it was begun with, how many lanes have not ended yet, and whether
/// the lanes are stopped: a call of the folder failed, or memory ran out in a lane or where it was heard.
#[derive(Drop)]
pub(crate) struct Caller<L> {
    pub(crate) taker: Taker,
    pub(crate) begun: Snapshot<L>,
    pub(crate) listener: L,
    pub(crate) running: usize,
    pub(crate) stopped: bool,
}

impl<L: Listener> Caller<L> {
    // All lanes are told to stop.
    fn stop_all(&mut self, shared: &Shared)
        ensures taker { self.new.taker ≡ self.old.taker }
        ensures begun { self.new.begun ≡ self.old.begun }
        ensures listener { self.new.listener ≡ self.old.listener }
        ensures stopped { self.new.stopped ≡ true }
    {
        self.stopped = true;
        shared.stop.store(true, Ordering::SeqCst);
        shared.gate.tell_stop();
    }

    // Adds packets, and lets them be heard. Where they could not be added nobody hears them, and all lanes are told to stop.
    fn add<H: Shelf>(&mut self, shared: &Shared, pen: &mut RunAppender<'_, H>, packet: &[u8])
        requires is_open { IsOpen (tape pen.old.fault (H.seen pen.old.shelf.now) (H.clock pen.old.shelf.now)) }
        requires packets { ArePackets packet.now }
        requires going { self.old.stopped ≡ false }
        ensures taker { self.new.taker ≡ self.old.taker }
        ensures begun { self.new.begun ≡ self.old.begun }
        ensures going { self.new.stopped ≡ false → self.old.stopped ≡ false }
        ensures heard { (pieces : List (List ℕ)) → L.heard self.old.begun.value self.old.listener pieces → self.new.stopped ≡ false → L.heard self.new.begun.value self.new.listener (pieces ++ packet.now ∷ []) }
        ensures loan { pen.new.shelf.ghost_name ≡ pen.old.shelf.ghost_name }
        ensures keeps { KeepsTape (tape pen.old.fault (H.seen pen.old.shelf.now) (H.clock pen.old.shelf.now)) (tape pen.new.fault (H.seen pen.new.shelf.now) (H.clock pen.new.shelf.now)) }
        ensures added { pen.new.fault ≡ None → Goes (H.seen pen.old.shelf.now).told (H.seen pen.new.shelf.now).told (Grown packet.now) }
        ensures calls { H.clock pen.new.shelf.now ≤ H.clock pen.old.shelf.now + calls_for packet.now }
        ensures handed { (start : Option Folder) → WasHanded (StandsBy L.heard L.keeps self.old) start (tape pen.old.fault (H.seen pen.old.shelf.now) (H.clock pen.old.shelf.now)) → WasHanded (StandsBy L.heard L.keeps self.new) start (tape pen.new.fault (H.seen pen.new.shelf.now) (H.clock pen.new.shelf.now)) }
    {
        pen.add(packet);
        if pen.fault.is_some() {
            self.stop_all(shared);
            return;
        }
        match self.listener.hear(packet) {
            Ok(()) => {}
            Err(NoMemory) => self.stop_all(shared),
        }
    }

    // Adds a lot. At the end of a lane whose memory ran out, all lanes are told to stop, as where a lot could not be added.
    fn record<H: Shelf>(&mut self, shared: &Shared, pen: &mut RunAppender<'_, H>, lot: Lot)
        requires is_open { IsOpen (tape pen.old.fault (H.seen pen.old.shelf.now) (H.clock pen.old.shelf.now)) }
        requires packets { IsWhole lot }
        requires going { self.old.stopped ≡ false }
        ensures taker { self.new.taker ≡ self.old.taker }
        ensures begun { self.new.begun ≡ self.old.begun }
        ensures going { self.new.stopped ≡ false → self.old.stopped ≡ false }
        ensures well { self.new.stopped ≡ false → lot ≡ End without_memory → ⊥ }
        ensures heard { (pieces : List (List ℕ)) → L.heard self.old.begun.value self.old.listener pieces → self.new.stopped ≡ false → L.heard self.new.begun.value self.new.listener (pieces ++ pieces_of_lot lot) }
        ensures loan { pen.new.shelf.ghost_name ≡ pen.old.shelf.ghost_name }
        ensures keeps { KeepsTape (tape pen.old.fault (H.seen pen.old.shelf.now) (H.clock pen.old.shelf.now)) (tape pen.new.fault (H.seen pen.new.shelf.now) (H.clock pen.new.shelf.now)) }
        ensures added { pen.new.fault ≡ None → Goes (H.seen pen.old.shelf.now).told (H.seen pen.new.shelf.now).told (Grown (packet_of lot)) }
        ensures calls { H.clock pen.new.shelf.now ≤ H.clock pen.old.shelf.now + calls_for (packet_of lot) }
        ensures handed { (start : Option Folder) → WasHanded (StandsBy L.heard L.keeps self.old) start (tape pen.old.fault (H.seen pen.old.shelf.now) (H.clock pen.old.shelf.now)) → WasHanded (StandsBy L.heard L.keeps self.new) start (tape pen.new.fault (H.seen pen.new.shelf.now) (H.clock pen.new.shelf.now)) }
    {
        match lot {
            Lot::Packet(packet) => self.add(shared, pen, packet.bytes()),
            Lot::End(Ending::Exit(_)) => self.running = self.running.saturating_sub(1),
            Lot::End(Ending::Fault) => self.running = self.running.saturating_sub(1),
            Lot::End(Ending::NoMemory) => self.stop_all(shared),
        }
    }

    /// Takes a lot and adds it. False where the belt was empty, or the lanes were stopped before.
    pub(crate) fn take_one<R: Wait, H: Shelf>(
        &mut self,
        rt: &R,
        shared: &Shared,
        pen: &mut RunAppender<'_, H>,
    ) -> bool
        requires ready { IsCaller L.heard shared.now.belt self.old }
        requires is_open { IsOpen (tape pen.old.fault (H.seen pen.old.shelf.now) (H.clock pen.old.shelf.now)) }
        ensures ready { IsCaller L.heard shared.now.belt self.new }
        ensures loan { pen.new.shelf.ghost_name ≡ pen.old.shelf.ghost_name }
        ensures goes { GoesOn L.heard L.keeps self.old self.new (tape pen.old.fault (H.seen pen.old.shelf.now) (H.clock pen.old.shelf.now)) (tape pen.new.fault (H.seen pen.new.shelf.now) (H.clock pen.new.shelf.now)) }
        ensures settled { settled_lanes self.new.taker ≡ settled_lanes self.old.taker }
        ensures empty { IsFalse result → self.new.stopped ≡ false → HasAll self.new.taker × IsOfLanes self.new.taker }
    {
        if self.stopped {
            return false;
        }
        match shared.belt.take(rt, &mut self.taker) {
            Some((_, lot)) => {
                shared.gate.tell_take();
                self.record(shared, pen, lot);
                true
            }
            None => false,
        }
    }

    /// Drives a work on until all its lots are put, and takes a lot each time that the belt is full.
    pub(crate) fn drive_out<C: Child + Drop, R: Wait, H: Shelf>(
        &mut self,
        rt: &R,
        shared: &Shared,
        flag: &AtomicBool,
        mut outcome: Outcome<C>,
        pen: &mut RunAppender<'_, H>,
    ) -> LanePass
        requires ready { IsCaller L.heard shared.now.belt self.old × IsReadyOutcome shared.now.belt outcome }
        requires is_open { IsOpen (tape pen.old.fault (H.seen pen.old.shelf.now) (H.clock pen.old.shelf.now)) }
        ensures ready { IsCaller L.heard shared.now.belt self.new × IsOwnPass shared.now.belt result }
        ensures loan { pen.new.shelf.ghost_name ≡ pen.old.shelf.ghost_name }
        ensures goes { GoesOn L.heard L.keeps self.old self.new (tape pen.old.fault (H.seen pen.old.shelf.now) (H.clock pen.old.shelf.now)) (tape pen.new.fault (H.seen pen.new.shelf.now) (H.clock pen.new.shelf.now)) }
        ensures settled { settled_lanes self.new.taker ≡ settled_lanes self.old.taker }
        ensures number { (before : Work C) → Drives C.seen before outcome → number_of result ≡ number_of before.pass }
        ensures put { (before : Work C) → Drives C.seen before outcome → self.new.stopped ≡ false → IsPut C.seen before result }
    {
        flag.store(true, Ordering::SeqCst);
        for _ in rt.forever() {
            match outcome {
                Outcome::Put(pass) => return pass,
                Outcome::GivenUp(pass) => {
                    self.stopped = true;
                    return pass;
                }
                Outcome::Kept(work) => {
                    self.take_one(rt, shared, pen);
                    outcome = drive_work(rt, shared, flag, work);
                }
            }
        }
        unreachable!()
    }

    /// Settles a lane: from then on the taker knows all that it put.
    pub(crate) fn settle<R>(&mut self, rt: &R, shared: &Shared, pass: LanePass)
        requires ready { IsCaller L.heard shared.now.belt self.old × IsOwnPass shared.now.belt pass }
        ensures ready { IsCaller L.heard shared.now.belt self.new }
        ensures goes { (now : Tape) → GoesOn L.heard L.keeps self.old self.new now now }
        ensures stopped { self.new.stopped ≡ self.old.stopped }
        ensures settled { settled_lanes self.new.taker ≡ settled_pass pass ∷ settled_lanes self.old.taker }
    {
        shared.belt.settle(rt, &mut self.taker, pass);
    }

    /// Takes and adds until each lane has ended, or the lanes are stopped.
    pub(crate) fn take_all_ends<R: Wait, H: Shelf>(
        &mut self,
        rt: &R,
        shared: &Shared,
        pen: &mut RunAppender<'_, H>,
    )
        requires ready { IsCaller L.heard shared.now.belt self.old }
        requires is_open { IsOpen (tape pen.old.fault (H.seen pen.old.shelf.now) (H.clock pen.old.shelf.now)) }
        ensures ready { IsCaller L.heard shared.now.belt self.new }
        ensures loan { pen.new.shelf.ghost_name ≡ pen.old.shelf.ghost_name }
        ensures goes { GoesOn L.heard L.keeps self.old self.new (tape pen.old.fault (H.seen pen.old.shelf.now) (H.clock pen.old.shelf.now)) (tape pen.new.fault (H.seen pen.new.shelf.now) (H.clock pen.new.shelf.now)) }
        ensures settled { settled_lanes self.new.taker ≡ settled_lanes self.old.taker }
    {
        for _ in rt.forever() {
            if self.running == 0 || self.stopped {
                return;
            }
            let seen = shared.gate.puts_so_far();
            if !self.take_one(rt, shared, pen) {
                shared.gate.wait_for_put(rt, seen);
            }
        }
        unreachable!()
    }

    /// Takes and adds until the belt is empty, or the lanes are stopped.
    pub(crate) fn take_rest<R: Wait, H: Shelf>(
        &mut self,
        rt: &R,
        shared: &Shared,
        pen: &mut RunAppender<'_, H>,
    )
        requires ready { IsCaller L.heard shared.now.belt self.old }
        requires is_open { IsOpen (tape pen.old.fault (H.seen pen.old.shelf.now) (H.clock pen.old.shelf.now)) }
        ensures ready { IsCaller L.heard shared.now.belt self.new }
        ensures loan { pen.new.shelf.ghost_name ≡ pen.old.shelf.ghost_name }
        ensures goes { GoesOn L.heard L.keeps self.old self.new (tape pen.old.fault (H.seen pen.old.shelf.now) (H.clock pen.old.shelf.now)) (tape pen.new.fault (H.seen pen.new.shelf.now) (H.clock pen.new.shelf.now)) }
        ensures settled { settled_lanes self.new.taker ≡ settled_lanes self.old.taker }
        ensures empty { self.new.stopped ≡ false → HasAll self.new.taker × IsOfLanes self.new.taker }
    {
        for _ in rt.forever() {
            if !self.take_one(rt, shared, pen) {
                return;
            }
        }
        unreachable!()
    }
}
