//! What a command asks to be said of its run.

ghost use Rattle.std.specs.Prelude.{◌≡◌};
ghost use Rattle.testr_commands.specs.Spoken as spoken;

use live_text::Live;
use suite_run::{Echo, Shown};
use testr_words::{Command, LiveKind};

/// What the command asks to be said of its run, while it is recorded.
pub(crate) fn shown_by(command: &Command) -> Shown
    ensures { result ≡ spoken.shown_of command.now }
{
    Shown {
        live: lines_of(command.live),
        echo: echo_of(command.subunit),
    }
}

// The lines of the kind that words ask for.
fn lines_of(kind: LiveKind) -> Live
    ensures { result ≡ spoken.live_of_kind kind }
{
    match kind {
        LiveKind::Nothing => Live::Nothing,
        LiveKind::Tests => Live::Tests,
        LiveKind::Failures => Live::Failures,
        LiveKind::Dots => Live::Dots,
    }
}

// The packets, where they are asked for.
fn echo_of(subunit: bool) -> Echo
    ensures { result ≡ spoken.echo_of subunit }
{
    if subunit {
        Echo::Packets
    } else {
        Echo::Nothing
    }
}
