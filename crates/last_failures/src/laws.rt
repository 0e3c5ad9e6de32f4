//! Laws of last failures.

ghost use Rattle.std.specs.Prelude.{◌≡◌, true, List, Contains, IsSome};
ghost use Rattle.packet_codec.specs.declared.event.Event.{Event as AnEvent};
ghost use Rattle.outcome_fold.specs.declared.row.Row.{Row as ARow};
ghost use Rattle.outcome_fold.specs.Answers.{row_fails};
ghost use Rattle.outcome_fold.specs.Rows.{rows_of};
ghost use Rattle.outcome_fold.specs.TestPackets.{test_of_row};
ghost use Rattle.last_failures.specs.Parts.{last_failed_part};

/// Each row of a run that fails has a part of its test that failed. So an id that has a last failure has packets.
pub fn failures_have_parts()
    ensures some { (es : List AnEvent) (row : ARow) → Contains (rows_of es) row → row_fails row ≡ true → IsSome (last_failed_part (test_of_row row) es) }
{}
