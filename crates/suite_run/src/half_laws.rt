//! The law of the rows of a recorded stream.

ghost use Rattle.std.specs.Prelude.{ℕ, List, ◌++◌};
ghost use Rattle.outcome_fold.specs.Routes.{SaySame};
ghost use Rattle.packet_codec.specs.Grammar.{AreBytes};
ghost use Rattle.packet_codec.specs.declared.event.Event.{Event};
ghost use Rattle.stream_reader.specs.Notes.{HasEvents};
ghost use Rattle.suite_run.specs.Halves.{FitOrAreCut, whole_under};
ghost use Rattle.worker_lane.specs.Endings.{ending_events};
ghost use Rattle.worker_lane.specs.Recorded.{HasRecorded};
ghost use Rattle.worker_lane.specs.declared.lot.Ending.{Ending};

/// Where each event of a stream that does not fit under the lane may be cut in two, the rows of what is recorded of the
/// stream and of its end are those of its events under the lane, of whatever size; and so is all that the rows say.
pub fn recorded_rows()
    ensures { (lane : ℕ) (bytes : List ℕ) (recorded events : List Event) (how : Ending) → AreBytes bytes → HasRecorded lane bytes recorded → HasEvents bytes events → FitOrAreCut lane events → SaySame (recorded ++ ending_events lane how) (whole_under lane bytes events how) }
{}
