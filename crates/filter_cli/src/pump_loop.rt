// The one loop that serves all filters.
ghost use Rattle.std.specs.Prelude.{◌≡◌, ℕ, List, [], IfSome};
ghost use Rattle.packet_codec.specs.Grammar.{AreBytes};
ghost use Rattle.edge_io.specs.Bytes.{AppendsPrefix};
ghost use Rattle.filter_cli.specs.declared.pump_loop.PumpFault.TheVariants.{Input, Output, NoMemory};
ghost use Rattle.filter_cli.specs.Pipe.{pipe};
ghost use Rattle.filter_cli.specs.Pumping.{Pumps};

use crate::filter::{Filter, StreamEnd};
use edge_io::{Failed, MOST_BYTES, PIECE, Sink, Source, write_whole};
use std::alloc::Global;

/// Why an input was not filtered to its end.
#[derive(Clone, Copy, Debug, PartialEq, Eq)]
pub enum PumpFault {
    /// A read failed.
    Input,
    /// The input has more than `MOST_BYTES`.
    TooLong,
    /// A write failed.
    Output,
    /// There is not enough memory.
    NoMemory,
}

impl From<sub_number::NoMemory> for PumpFault {
    ghost from_gives = { λ _ fault. fault ≡ NoMemory };

    fn from(_: sub_number::NoMemory) -> Self {
        PumpFault::NoMemory
    }
}

/// Filters the input to its end. What each piece decides is written before the next one is read.
pub fn pump<F: Filter, I: Source, O: Sink>(
    alloc: Global,
    filter: F,
    input: &mut I,
    out: &mut O,
) -> Result<StreamEnd, PumpFault>
    requires ready { F.ready filter }
    requires has { F.has filter [] [] }
    ensures pumps { Pumps F.inside (F.seen filter) (F.whole filter) (pipe (I.seen input.old) (O.seen out.old)) (pipe (I.seen input.new) (O.seen out.new)) result }
    // At every exit a part of the whole text was written, from its front.
    ensures prefix { IfSome (I.seen input.old).told (λ bytes. AreBytes bytes → (all : List ℕ) (status : ℕ) → F.whole filter bytes all status → AppendsPrefix (O.seen out.old).told (O.seen out.new).told all) }
{
    pump_pieces(alloc, filter, input, out)
}

fn pump_pieces<F: Filter, I: Source, O: Sink>(
    alloc: Global,
    mut filter: F,
    input: &mut I,
    out: &mut O,
) -> Result<StreamEnd, PumpFault>
    requires ready { F.ready filter }
    requires has { F.has filter [] [] }
    ensures { Pumps F.inside (F.seen filter) (F.whole filter) (pipe (I.seen input.old) (O.seen out.old)) (pipe (I.seen input.new) (O.seen out.new)) result }
{
    let mut text = Vec::new(alloc);
    let mut piece = [0u8; PIECE];
    let mut total = 0;
    loop {
        let Ok(count) = input.read(&mut piece) else {
            filter.let_go();
            return Err(PumpFault::Input);
        };
        if count == 0 {
            break;
        }
        total += count;
        if total > MOST_BYTES {
            filter.let_go();
            return Err(PumpFault::TooLong);
        }
        let Ok(()) = filter.feed(&piece[..count], &mut text) else {
            filter.let_go();
            return Err(PumpFault::NoMemory);
        };
        let Ok(()) = write_whole(out, &text) else {
            filter.let_go();
            return Err(PumpFault::Output);
        };
        text.clear();
    }
    let end = filter.close(&mut text)?;
    let Ok(()) = write_whole(out, &text) else {
        return Err(PumpFault::Output);
    };
    Ok(end)
}
