//! What is said of a run while it goes on.

ghost use Rattle.std.specs.Prelude.{◌≡◌, ◌++◌, ℕ, List, false};
ghost use Rattle.edge_io.specs.Seen.{Seen};
ghost use Rattle.speaker.specs.Speaking.{Takes};

use edge_io::Sink;
use speaker::say;

/// Which of the two sinks that a run is said to have failed, and are told no more of it.
#[derive(Clone, Copy, Debug, PartialEq, Eq)]
pub struct Silenced {
    /// The errors' sink, which gets its lines.
    pub errors: bool,
    /// The output, which gets its packets.
    pub out: bool,
}

impl Silenced {
    /// None of them has failed.
    pub fn none() -> Self
        ensures { (result.errors ≡ false) × (result.out ≡ false) }
    {
        Silenced {
            errors: false,
            out: false,
        }
    }
}

/// Says the end of the lines of a run, unless their sink has failed.
pub fn say_end<E: Sink>(end: &[u8], errors: &mut E, silenced: &mut Silenced)
    ensures takes { (start : Seen (List ℕ)) (said : List ℕ) → Takes said start (E.seen errors.old) silenced.old.errors → Takes (said ++ end.now) start (E.seen errors.new) silenced.new.errors }
    ensures out { silenced.new.out ≡ silenced.old.out }
{
    silenced.errors = say(errors, silenced.errors, end);
}
