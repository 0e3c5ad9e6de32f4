//! What adds packets to a run that was begun.

ghost use Rattle.std.specs.Prelude.{◌≡◌, ◌≤◌, ◌+◌, None};
ghost use Rattle.edge_io.specs.Steps.{Goes, Grown};
ghost use Rattle.worker_mux.specs.Callers.{AddsPart, KeepsTape, IsOpen, calls_for, tape};

use edge_io::Shelf;
use run_shelf::{ShelfCall, add_packet};

/// The folder of a recorder, lent, and the call of it that failed.
#[derive(Drop)]
pub(crate) struct RunAppender<'h, H: Shelf> {
    pub(crate) shelf: &'h mut H,
    pub(crate) fault: Option<ShelfCall>,
}

impl<'h, H: Shelf> RunAppender<'h, H> {
    /// Adds the packets, as `Recorder::add`, by at most one call of the folder, and by none where there are none. After a
    /// fault nothing is added.
    pub(crate) fn add(&mut self, packet: &[u8])
        requires is_open { IsOpen (tape self.old.fault (H.seen self.old.shelf.now) (H.clock self.old.shelf.now)) }
        ensures loan { self.new.shelf.ghost_name ≡ self.old.shelf.ghost_name }
        ensures keeps { KeepsTape (tape self.old.fault (H.seen self.old.shelf.now) (H.clock self.old.shelf.now)) (tape self.new.fault (H.seen self.new.shelf.now) (H.clock self.new.shelf.now)) }
        ensures added { self.new.fault ≡ None → Goes (H.seen self.old.shelf.now).told (H.seen self.new.shelf.now).told (Grown packet.now) }
        ensures part { AddsPart packet.now (tape self.old.fault (H.seen self.old.shelf.now) (H.clock self.old.shelf.now)) (tape self.new.fault (H.seen self.new.shelf.now) (H.clock self.new.shelf.now)) }
        ensures calls { H.clock self.new.shelf.now ≤ H.clock self.old.shelf.now + calls_for packet.now }
    {
        if self.fault.is_some() {
            return;
        }
        if packet.is_empty() {
            return;
        }
        match add_packet(self.shelf, packet) {
            Ok(()) => {}
            Err(call) => self.fault = Some(call),
        }
    }
}
