//! The records of the tests that are kept.

ghost use Rattle.std.specs.Prelude.{◌≡◌, ◌++◌, ℕ, List, OnOk, IfSome};
ghost use Rattle.event_sift.specs.declared.rules.Rules.{Rules as ARules};
ghost use Rattle.event_sift.specs.Keeping.{keeps};
ghost use Rattle.filter_cli.specs.Events.{events_among};
ghost use Rattle.std.specs.List.{flat_map};
ghost use Rattle.sub_export.specs.Records.{csv_row_of, csv_text};
ghost use Rattle.filter_cli.specs.Pipe.{pipe};
ghost use Rattle.stream_end.specs.Inside.{ends_inside};
ghost use Rattle.filter_cli.specs.Pumping.{Pumps, WritesFirst};
ghost use Rattle.filter_cli.specs.Exporting.{IsCsvSeen, IsCsvFiltered};

use crate::filter::StreamEnd;
use crate::head_text::pump_below;
use crate::notes::NoteFilter;
use crate::pump_loop::PumpFault;
use edge_io::{Sink, Source};
use event_sift::{ByRules, Part, Predicate, Rules, Sift};
use packet_codec::Packet;
use std::alloc::Global;
use sub_export::{csv_head, csv_row};
use sub_number::NoMemory;

/// Writes the record of each test that a predicate keeps, by rules, where it completes, and at the end those of the tests
/// that are left open. Foreign bytes are dropped.
///
/// It is not dropped, as the sift in it is not. It ends by `close` or by `let_go`.
pub(crate) struct CsvFilter<'a, P: Predicate + Drop> {
    alloc: Global,
    sift: Sift<'a, P>,
}

impl<'a, P: Predicate + Drop> CsvFilter<'a, P> {
    ghost use Rattle.std.specs.Prelude.{[]};
    ghost use Rattle.event_sift.specs.Sifted.{HasSifted, predicate_of, rules_of};

    /// Nothing was taken yet. The predicate goes by the same rules, which it may borrow. It takes no memory yet.
    pub(crate) fn new(alloc: Global, rules: &'a Rules, predicate: P) -> Self
        requires faithful { P.rules predicate ≡ rules.now }
        ensures rules { rules_of result.sift ≡ rules.now }
        ensures predicate { P.rules (predicate_of result.sift) ≡ rules.now }
        ensures taken { HasSifted result.sift [] }
    {
        CsvFilter {
            alloc,
            sift: Sift::new(alloc, rules, predicate),
        }
    }
}

impl<'a, P: Predicate + Drop> NoteFilter for CsvFilter<'a, P> {
    ghost use Rattle.event_sift.specs.Keeping.{keeps};
    ghost use Rattle.event_sift.specs.Sifted.{HasSifted, predicate_of, rules_of};
    ghost use Rattle.filter_cli.specs.Events.{events_among};
    ghost use Rattle.filter_cli.specs.Exporting.{csv_plan};

    ghost plan = { λ f. csv_plan (keeps (rules_of f.sift)) };

    ghost has = { λ f notes. HasSifted f.sift (events_among notes) };

    ghost ready = { λ f. P.rules (predicate_of f.sift) ≡ rules_of f.sift };

    fn take(&mut self, packet: &Packet<'_>, text: &mut Vec<u8>) -> Result<(), NoMemory> {
        let event = packet.event(self.alloc)?;
        let part = self.sift.add(event)?;
        csv_row(self.alloc, &part, text)?;
        Ok(())
    }

    fn take_foreign(&mut self, _bytes: &[u8], _text: &mut Vec<u8>) -> Result<(), NoMemory> {
        Ok(())
    }

    fn close(self, text: &mut Vec<u8>) -> Result<u8, NoMemory> {
        let CsvFilter { alloc, sift } = self;
        let parts = sift.close_parts()?;
        put_rows(alloc, &parts, text)?;
        Ok(0)
    }

    fn let_go(self) {
        let CsvFilter {
            alloc: _alloc,
            sift,
        } = self;
        sift.let_go();
    }
}

// Appends the records of the parts.
fn put_rows(alloc: Global, parts: &[Part], text: &mut Vec<u8>) -> Result<(), NoMemory>
    ensures { OnOk result (text.new.items ≡ text.old.items ++ flat_map csv_row_of parts.now) }
{
    for part in parts {
        csv_row(alloc, part.events(), text)?;
    }
    Ok(())
}

/// Writes the records of the tests of the input that the rules keep, to its end: each where it completes, and at the end
/// those of the tests that are left open. The names of the fields stand in front, and are written once a byte was read, or
/// at the end. The status is 0.
///
/// Each `PumpFault` comes as `pump_below` says, and at each a first part of the text was written, and nothing else.
pub fn export_stream<I: Source, O: Sink>(
    alloc: Global,
    rules: &Rules,
    input: &mut I,
    out: &mut O,
) -> Result<StreamEnd, PumpFault>
    ensures pumps { Pumps ends_inside (IsCsvSeen rules.now) (IsCsvFiltered rules.now) (pipe (I.seen input.old) (O.seen out.old)) (pipe (I.seen input.new) (O.seen out.new)) result }
    ensures prefix { IfSome (I.seen input.old).told (WritesFirst (IsCsvFiltered rules.now) (O.seen out.old).told (O.seen out.new).told) }
{
    let mut head = Vec::new(alloc);
    csv_head(alloc, &mut head)?;
    let predicate = ByRules::new(alloc, rules)?;
    let exporting = CsvFilter::new(alloc, rules, predicate);
    pump_below(alloc, head, exporting, input, out)
}

/// What is exported of whole streams.
pub fn records_of_streams()
    // The text is that of the records of the stream's events.
    ensures { (rules : ARules) (bytes text : List ℕ) (status : ℕ) → (w : IsCsvFiltered rules bytes text status) → text ≡ csv_text (keeps rules) (events_among w.holds.notes) }
{}
