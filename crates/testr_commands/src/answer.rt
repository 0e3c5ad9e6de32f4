//! How a call ends: its refusal is told, and its status given.

ghost use Rattle.std.specs.Prelude.{◌≡◌, true, false, OnOk};
ghost use Rattle.std.specs.Io.KnownBytes.{Appends};
ghost use Rattle.edge_io.specs.Bytes.{AppendsPrefix};
ghost use Rattle.edge_io.specs.Causes.{HasCause};
ghost use Rattle.command_steps.specs.Refusals.{exit_status, refusal_text};
ghost use Rattle.testr_commands.specs.Program.{Tells};
ghost use Rattle.testr_commands.specs.Spoken.{nowhere, EndsStream};

use crate::null_sink::NullSink;
use crate::{Refusal, Verdict};
use command_steps::{PrintFault, Silenced, tell_line};
use edge_io::{Failed, Sink, write_whole};

// Ends a call that prints packets, which would have answered this: what was done is 0, but where the output has failed.
pub(crate) fn end_stream<E: Sink>(answer: u8, silenced: Silenced, err: &mut E) -> u8
    ensures { EndsStream silenced.out silenced.errors answer (E.seen err.old) (E.seen err.new) result }
{
    if answer > 1 {
        return answer;
    }
    if !silenced.out {
        return 0;
    }
    answer_behind(Err(Refusal::Print(PrintFault)), silenced.errors, err)
}

// Tells of a refusal behind what was said, unless the sink has failed, and gives the status.
pub(crate) fn answer_behind<E: Sink>(
    outcome: Result<Verdict, Refusal<'_>>,
    failed: bool,
    err: &mut E,
) -> u8
    ensures spoken { failed ≡ false → Tells outcome.entry (E.seen err.old) (E.seen err.new) result }
    ensures silent { failed ≡ true → (E.seen err.new ≡ E.seen err.old) × Tells outcome.entry nowhere nowhere result }
    ensures code { result ≡ exit_status outcome.entry }
{
    if failed {
        let mut nowhere = NullSink;
        return answer(outcome, &mut nowhere);
    }
    answer(outcome, err)
}

// Tells of a refusal, and gives the status.
pub(crate) fn answer<E: Sink>(outcome: Result<Verdict, Refusal<'_>>, err: &mut E) -> u8
    ensures { Tells outcome.entry (E.seen err.old) (E.seen err.new) result }
{
    match outcome {
        Ok(verdict) => verdict.exit_status(),
        Err(refusal) => {
            let _ = tell_refusal(err, &refusal);
            refusal.exit_status()
        }
    }
}

// Writes what the program said that the refusal is of, where there is one that failed, and then the line.
fn tell_refusal<E: Sink>(err: &mut E, refusal: &Refusal<'_>) -> Result<(), Failed>
    ensures whole { OnOk result (Appends (E.seen err.old).told (E.seen err.new).told (refusal_text refusal.now)) }
    ensures prefix { AppendsPrefix (E.seen err.old).told (E.seen err.new).told (refusal_text refusal.now) }
    ensures cause { HasCause (E.seen err.old).faults (E.seen err.new).faults result }
{
    write_whole(err, refusal.said())?;
    tell_line(err, refusal.line())
}
