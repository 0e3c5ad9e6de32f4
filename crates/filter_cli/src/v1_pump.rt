//! Lines of version 1, from an input to an output.

ghost use Rattle.std.specs.Prelude.{IfSome};
ghost use Rattle.filter_cli.specs.Pipe.{pipe};
ghost use Rattle.filter_cli.specs.Pumping.{Pumps, in_no_packet, WritesFirst};
ghost use Rattle.filter_cli.specs.V1.{IsV1Seen, IsV1Filtered};

use crate::filter::StreamEnd;
use crate::pump_loop::{PumpFault, pump};
use crate::v1_filter::V1ToSubunit;
use edge_io::{Sink, Source};
use std::alloc::Global;

/// Turns the lines of version 1 of the input into packets, to its end. The status is 0.
///
/// Each `PumpFault` comes as `pump` says, and at each a first part of the text was written, and nothing else.
pub fn v1_to_subunit<I: Source, O: Sink>(
    alloc: Global,
    input: &mut I,
    out: &mut O,
) -> Result<StreamEnd, PumpFault>
    ensures pumps { Pumps in_no_packet IsV1Seen IsV1Filtered (pipe (I.seen input.old) (O.seen out.old)) (pipe (I.seen input.new) (O.seen out.new)) result }
    // At every exit a first part of the input's text was written, and nothing else.
    ensures prefix { IfSome (I.seen input.old).told (WritesFirst IsV1Filtered (O.seen out.old).told (O.seen out.new).told) }
{
    let lines = V1ToSubunit::new(alloc);
    pump(alloc, lines, input, out)
}
