// A text in front of what a filter writes.
ghost use Rattle.std.specs.Prelude.{◌≡◌, ◌++◌, [], false, if◌then◌else◌, OnOk, IfSome};
ghost use Rattle.filter_cli.specs.Headed.{IsSeenBelow as SeenBelow, IsWholeBelow as WholeBelow};
ghost use Rattle.filter_cli.specs.Pipe.{pipe};
ghost use Rattle.filter_cli.specs.Plan.{IsSeen, IsFiltered};
ghost use Rattle.stream_end.specs.Inside.{ends_inside};
ghost use Rattle.filter_cli.specs.Pumping.{Pumps, WritesFirst};

use crate::byte_filter::ByteFilter;
use crate::filter::{Filter, StreamEnd};
use crate::notes::NoteFilter;
use crate::pump_loop::{PumpFault, pump};
use edge_io::{Sink, Source};
use std::alloc::Global;
use sub_number::NoMemory;

/// A filter, and a text that is written in front of what it writes, once a byte was read, or else at the end.
pub struct FilterBelowText<F: Filter> {
    head: Vec<u8>,
    // The text was written.
    begun: bool,
    filter: F,
}

impl<F: Filter> FilterBelowText<F> {
    /// Nothing was read yet.
    pub fn new(head: Vec<u8>, filter: F) -> Self
        ensures head { result.head.items ≡ head.items }
        ensures begun { result.begun ≡ false }
        ensures filter { result.filter ≡ filter }
    {
        FilterBelowText {
            head,
            begun: false,
            filter,
        }
    }
}

// Appends the text, unless that was done before.
fn begin(head: &[u8], begun: bool, text: &mut Vec<u8>) -> Result<(), NoMemory>
    ensures { OnOk result (text.new.items ≡ text.old.items ++ (if begun then [] else head.now)) }
{
    if !begun {
        text.extend_from_slice(head)?;
    }
    Ok(())
}

impl<F: Filter> Filter for FilterBelowText<F> {
    ghost use Rattle.filter_cli.specs.Headed.{IsSeenBelow, IsWholeBelow, HasBelow};
    ghost use Rattle.filter_cli.specs.HeadedLaws.{below_seen, below_front, below_one};

    ghost seen = { λ f. IsSeenBelow f.head.items (F.seen f.filter) };

    ghost whole = { λ f. IsWholeBelow f.head.items (F.whole f.filter) };

    ghost inside = { F.inside };

    ghost has = { λ f. HasBelow f.head.items f.begun (F.has f.filter) };

    ghost ready = { λ f. F.ready f.filter };

    fn feed(&mut self, piece: &[u8], text: &mut Vec<u8>) -> Result<(), NoMemory> {
        if piece.is_empty() {
            return Ok(());
        }
        begin(&self.head, self.begun, text)?;
        self.filter.feed(piece, text)?;
        self.begun = true;
        Ok(())
    }

    fn close(self, text: &mut Vec<u8>) -> Result<StreamEnd, NoMemory> {
        let FilterBelowText {
            head,
            begun,
            filter,
        } = self;
        let Ok(()) = begin(&head, begun, text) else {
            filter.let_go();
            return Err(NoMemory);
        };
        let end = filter.close(text)?;
        Ok(end)
    }

    fn let_go(self) {
        let FilterBelowText {
            head: _head,
            begun: _begun,
            filter,
        } = self;
        filter.let_go();
    }

    ghost is_seen = { λ f. below_seen f.head.items f.begun (F.has f.filter) (F.seen f.filter) (F.is_seen f.filter) };

    ghost front = { λ f. below_front f.head.items (F.seen f.filter) (F.whole f.filter) (F.front f.filter) };

    ghost one = { λ f. below_one f.head.items (F.whole f.filter) (F.one f.filter) };
}

/// Filters the notes of the input to its end, below a text.
pub fn pump_below<F: NoteFilter, I: Source, O: Sink>(
    alloc: Global,
    head: Vec<u8>,
    filter: F,
    input: &mut I,
    out: &mut O,
) -> Result<StreamEnd, PumpFault>
    requires ready { F.ready filter }
    requires has { F.has filter [] }
    ensures pumps { Pumps ends_inside (SeenBelow head.items (IsSeen (F.plan filter))) (WholeBelow head.items (IsFiltered (F.plan filter))) (pipe (I.seen input.old) (O.seen out.old)) (pipe (I.seen input.new) (O.seen out.new)) result }
    // At every exit a first part of the stream's text was written, and nothing else.
    ensures prefix { IfSome (I.seen input.old).told (WritesFirst (WholeBelow head.items (IsFiltered (F.plan filter))) (O.seen out.old).told (O.seen out.new).told) }
{
    let notes = ByteFilter::new(alloc, filter)?;
    pump(alloc, FilterBelowText::new(head, notes), input, out)
}
