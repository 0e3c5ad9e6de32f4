// A filter of notes, from an input to an output.
ghost use Rattle.std.specs.Prelude.{[], IfSome};
ghost use Rattle.filter_cli.specs.Pipe.{pipe};
ghost use Rattle.filter_cli.specs.Plan.{IsSeen, IsFiltered};
ghost use Rattle.stream_end.specs.Inside.{ends_inside};
ghost use Rattle.filter_cli.specs.Pumping.{Pumps, WritesFirst};

use crate::byte_filter::ByteFilter;
use crate::filter::StreamEnd;
use crate::notes::NoteFilter;
use crate::pump_loop::{PumpFault, pump};
use edge_io::{Sink, Source};
use std::alloc::Global;

/// Filters the notes of the input to its end.
pub fn pump_notes<F: NoteFilter, I: Source, O: Sink>(
    alloc: Global,
    filter: F,
    input: &mut I,
    out: &mut O,
) -> Result<StreamEnd, PumpFault>
    requires ready { F.ready filter }
    requires has { F.has filter [] }
    ensures pumps { Pumps ends_inside (IsSeen (F.plan filter)) (IsFiltered (F.plan filter)) (pipe (I.seen input.old) (O.seen out.old)) (pipe (I.seen input.new) (O.seen out.new)) result }
    // At every exit a first part of the stream's text was written, and nothing else.
    ensures prefix { IfSome (I.seen input.old).told (WritesFirst (IsFiltered (F.plan filter)) (O.seen out.old).told (O.seen out.new).told) }
{
    let notes = ByteFilter::new(alloc, filter)?;
    pump(alloc, notes, input, out)
}
