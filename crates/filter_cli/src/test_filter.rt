//! The events of the tests that are kept.

ghost use Rattle.std.specs.Prelude.{◌≡◌, IfSome};
ghost use Rattle.filter_cli.specs.Pipe.{pipe};
ghost use Rattle.filter_cli.specs.Plan.{IsSeen, IsFiltered};
ghost use Rattle.stream_end.specs.Inside.{ends_inside};
ghost use Rattle.filter_cli.specs.Pumping.{Pumps, WritesFirst};
ghost use Rattle.filter_cli.specs.Filtering.{filter_plan};

use crate::filter::StreamEnd;
use crate::loose_output::{is_hidden_output, put_foreign};
use crate::note_pump::pump_notes;
use crate::notes::NoteFilter;
use crate::pump_loop::PumpFault;
use edge_io::{Sink, Source};
use event_sift::{ByRules, PacketSift, Predicate, Rules};
use packet_codec::Packet;
use std::alloc::Global;
use sub_number::NoMemory;

/// Lets the tests of a stream through that a predicate keeps, by rules, each where it completes, and at the end those
/// that are left open. Packets are held until then, and no event is made.
///
/// It is not dropped, as the sift in it is not. It ends by `close` or by `let_go`.
pub(crate) struct TestFilter<'a, P: Predicate + Drop> {
    // Without output of no test.
    hidden: bool,
    sift: PacketSift<'a, P>,
}

impl<'a, P: Predicate + Drop> TestFilter<'a, P> {
    ghost use Rattle.std.specs.Prelude.{[]};
    ghost use Rattle.event_sift.specs.PacketSifted.{HasSiftedPackets, packet_predicate_of, packet_rules_of};

    /// Nothing was taken yet. The predicate goes by the same rules, which it may borrow. Output of no test is passed on
    /// unless it is hidden. It takes no memory yet.
    pub(crate) fn new(alloc: Global, rules: &'a Rules, hidden: bool, predicate: P) -> Self
        requires faithful { P.rules predicate ≡ rules.now }
        ensures hidden { result.hidden ≡ hidden }
        ensures rules { packet_rules_of result.sift ≡ rules.now }
        ensures predicate { P.rules (packet_predicate_of result.sift) ≡ rules.now }
        ensures taken { HasSiftedPackets result.sift [] }
    {
        TestFilter {
            hidden,
            sift: PacketSift::new(alloc, rules, predicate),
        }
    }
}

impl<'a, P: Predicate + Drop> NoteFilter for TestFilter<'a, P> {
    ghost use Rattle.event_sift.specs.PacketSifted.{HasSiftedPackets, packet_predicate_of, packet_rules_of};
    ghost use Rattle.filter_cli.specs.Events.{events_heard};

    ghost plan = { λ f. filter_plan (packet_rules_of f.sift) f.hidden };

    ghost has = { λ f notes. HasSiftedPackets f.sift (events_heard f.hidden notes) };

    ghost ready = { λ f. P.rules (packet_predicate_of f.sift) ≡ packet_rules_of f.sift };

    fn take(&mut self, packet: &Packet<'_>, text: &mut Vec<u8>) -> Result<(), NoMemory> {
        let alloc = *text.allocator();
        let hides = is_hidden_output(alloc, self.hidden, packet)?;
        if hides {
            return Ok(());
        }
        self.sift.hear(packet, text)
    }

    fn take_foreign(&mut self, bytes: &[u8], text: &mut Vec<u8>) -> Result<(), NoMemory> {
        put_foreign(self.hidden, bytes, text)?;
        Ok(())
    }

    fn close(self, text: &mut Vec<u8>) -> Result<u8, NoMemory> {
        let TestFilter {
            hidden: _hidden,
            sift,
        } = self;
        sift.close(text)?;
        Ok(0)
    }

    fn let_go(self) {
        let TestFilter {
            hidden: _hidden,
            sift,
        } = self;
        sift.let_go();
    }
}

/// Lets the tests of the input through that the rules keep, to its end: the events of each test where it completes, in
/// their order, at the end those of the tests that are left open, and each event without an id where it comes. Events
/// are written as their shortest packets. Foreign bytes stand where they come. Where output of no test is hidden, neither
/// these are written nor the events that have a file and no id. The status is 0.
///
/// Each `PumpFault` comes as `pump_notes` says, and at each a first part of the text was written, and nothing else.
pub fn filter_stream<I: Source, O: Sink>(
    alloc: Global,
    rules: &Rules,
    hidden: bool,
    input: &mut I,
    out: &mut O,
) -> Result<StreamEnd, PumpFault>
    ensures pumps { Pumps ends_inside (IsSeen (filter_plan rules.now hidden)) (IsFiltered (filter_plan rules.now hidden)) (pipe (I.seen input.old) (O.seen out.old)) (pipe (I.seen input.new) (O.seen out.new)) result }
    ensures prefix { IfSome (I.seen input.old).told (WritesFirst (IsFiltered (filter_plan rules.now hidden)) (O.seen out.old).told (O.seen out.new).told) }
{
    let predicate = ByRules::new(alloc, rules)?;
    let sifting = TestFilter::new(alloc, rules, hidden, predicate);
    pump_notes(alloc, sifting, input, out)
}
