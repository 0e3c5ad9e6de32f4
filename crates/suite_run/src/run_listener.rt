//! Who hears a run as it is recorded: it folds what was added, and says it.

ghost use Rattle.std.specs.Prelude.{◌≡◌, ◌++◌, [], ℕ, List};
ghost use Rattle.std.specs.List.{flat_map};
ghost use Rattle.edge_io.specs.Seen.{Seen};
ghost use Rattle.packet_codec.specs.Canonical.{canonical};
ghost use Rattle.packet_codec.specs.declared.event.Event.{Event};
ghost use Rattle.suite_run.specs.Aloud.{HearsSince, SaysSince, echoed, voices};
ghost use Rattle.speaker.specs.Speaking.{Takes};

use crate::lines::Hearing;
use edge_io::Sink;
use live_text::Live;
use packet_codec::Tags;
use speaker::say;
use std::alloc::Global;
use sub_number::NoMemory;
use worker_mux::Listener;

/// What the output gets of a run while it is recorded.
#[derive(Clone, Copy, Debug, PartialEq, Eq)]
pub enum Echo {
    /// Nothing.
    Nothing,
    /// The packets that are recorded.
    Packets,
}

/// What is said of a run while it is recorded.
#[derive(Clone, Copy, Debug, PartialEq, Eq)]
pub struct Shown {
    /// To the errors' sink.
    pub live: Live,
    /// To the output.
    pub echo: Echo,
}

/// What became of what was to be said.
#[derive(Drop)]
pub struct Said {
    /// What is left to say to the errors' sink where the run is stored: the lines of the tests that were left open, and the
    /// end of the last line.
    pub end: Vec<u8>,
    /// Whether the errors' sink has failed.
    pub errors_failed: bool,
    /// Whether the output has failed.
    pub out_failed: bool,
}

/// Hears the packets that are added to a run: it folds their events, says the lines of the rows that they complete, in one
/// write, and hands the packets on. A sink that has failed gets nothing more, and stops nothing.
#[derive(Drop)]
pub struct RunListener<'e, 'o, E: Sink, O: Sink> {
    /// What was heard.
    pub hearing: Hearing,
    /// What the output gets.
    pub echo: Echo,
    /// Where lines are said.
    pub errors: &'e mut E,
    /// Whether that has failed.
    pub errors_failed: bool,
    /// Where packets go.
    pub out: &'o mut O,
    /// Whether that has failed.
    pub out_failed: bool,
}

// Hands the packets on, where the output gets them and has not failed, and answers whether it has failed by now.
fn hand_on<O: Sink>(out: &mut O, failed: bool, echo: Echo, packets: &[u8]) -> bool
    ensures { (start : Seen (List ℕ)) (seen events : List Event) → packets.now ≡ flat_map canonical events → Takes (echoed echo seen) start (O.seen out.old) failed → Takes (echoed echo (seen ++ events)) start (O.seen out.new) result }
{
    match echo {
        Echo::Nothing => failed,
        Echo::Packets => say(out, failed, packets),
    }
}

impl<'e, 'o, E: Sink, O: Sink> Listener for RunListener<'e, 'o, E, O> {
    ghost heard = { λ begun ear pieces.
        (ear.errors.ghost_name ≡ begun.errors.ghost_name) × (ear.out.ghost_name ≡ begun.out.ghost_name) × (ear.echo ≡ begun.echo)
        × HearsSince begun.echo begun.hearing (voices (E.seen begun.errors.now) (O.seen begun.out.now) begun.errors_failed begun.out_failed) ear.hearing (voices (E.seen ear.errors.now) (O.seen ear.out.now) ear.errors_failed ear.out_failed) pieces };

    ghost keeps = { λ begun ear pieces.
        (ear.errors.ghost_name ≡ begun.errors.ghost_name) × (ear.out.ghost_name ≡ begun.out.ghost_name)
        × SaysSince begun.echo begun.hearing (voices (E.seen begun.errors.now) (O.seen begun.out.now) begun.errors_failed begun.out_failed) (voices (E.seen ear.errors.now) (O.seen ear.out.now) ear.errors_failed ear.out_failed) pieces };

    fn hear(&mut self, piece: &[u8]) -> Result<(), NoMemory> {
        self.hearing.hear(piece)?;
        self.errors_failed = say(self.errors, self.errors_failed, &self.hearing.lines.text);
        self.hearing.lines.text.clear();
        self.out_failed = hand_on(self.out, self.out_failed, self.echo, piece);
        Ok(())
    }
}
