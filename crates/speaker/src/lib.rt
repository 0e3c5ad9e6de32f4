//! Says texts on a sink that may fail, after which nothing more is said.
//!
//! A fault of the sink is no fault of who speaks: it goes on without a word. Nothing here knows what is said. It takes no
//! memory.
#![tactic(auto)]

ghost use Rattle.std.specs.Prelude.{◌≡◌, ◌++◌, [], true, false, ℕ, List};
ghost use Rattle.edge_io.specs.Seen.{Seen};
ghost use Rattle.speaker.specs.Speaking.{Takes};

use edge_io::{Failed, Sink, write_whole};

/// Says the text, unless the sink has failed, and answers whether it has failed by now. Of no text the sink is not called.
pub fn say<E: Sink>(sink: &mut E, failed: bool, text: &[u8]) -> bool
    ensures takes { (start : Seen (List ℕ)) (said : List ℕ) → Takes said start (E.seen sink.old) failed → Takes (said ++ text.now) start (E.seen sink.new) result }
    ensures quiet { failed ≡ true → E.seen sink.new ≡ E.seen sink.old }
{
    if failed {
        return failed;
    }
    match write_whole(sink, text) {
        Ok(()) => false,
        Err(Failed) => true,
    }
}

/// Laws of what a sink was to take.
pub fn texts_are_said()
    // Nothing was said yet.
    ensures none { (now : Seen (List ℕ)) → Takes [] now now false }
{}
