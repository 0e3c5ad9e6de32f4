// Lines of the Test Anything Protocol, from an input to an output.
ghost use Rattle.std.specs.Prelude.{IfSome};
ghost use Rattle.filter_cli.specs.Pipe.{pipe};
ghost use Rattle.filter_cli.specs.Pumping.{Pumps, in_no_packet, WritesFirst};
ghost use Rattle.filter_cli.specs.Tap.{IsTapSeen, IsTapFiltered};

use crate::filter::StreamEnd;
use crate::pump_loop::{PumpFault, pump};
use crate::tap_filter::TapToSubunit;
use edge_io::{Sink, Source};
use std::alloc::Global;

/// Turns the lines of the input into packets, to its end.
pub fn tap_to_subunit<I: Source, O: Sink>(
    alloc: Global,
    input: &mut I,
    out: &mut O,
) -> Result<StreamEnd, PumpFault>
    ensures pumps { Pumps in_no_packet IsTapSeen IsTapFiltered (pipe (I.seen input.old) (O.seen out.old)) (pipe (I.seen input.new) (O.seen out.new)) result }
    // At every exit a first part of the input's text was written, and nothing else.
    ensures prefix { IfSome (I.seen input.old).told (WritesFirst IsTapFiltered (O.seen out.old).told (O.seen out.new).told) }
{
    let lines = TapToSubunit::new(alloc);
    pump(alloc, lines, input, out)
}
