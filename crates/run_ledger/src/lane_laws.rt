//! Laws of a run of several lanes.

ghost use Rattle.std.specs.Prelude.{◌≡◌, ◌≤◌, ℕ, Bool, List, [], ◌∷◌, ◌++◌, length};
ghost use Rattle.packet_codec.specs.declared.event.Event.{Event};
ghost use Rattle.packet_codec.specs.Lanes.{IsMerge, joined};
ghost use Rattle.stream_reader.specs.Notes.{HasEvents};
ghost use Rattle.outcome_fold.specs.Rows as fold;
ghost use Rattle.edge_io.specs.Disk.{Files};
ghost use Rattle.run_shelf.specs.Bases.{Base};
ghost use Rattle.run_shelf.specs.Repository.{Run, run_of, Shows};
ghost use Rattle.run_ledger.specs.Reading.{AreRowsOf};
ghost use Rattle.run_ledger.specs.Ledger.{RunRows, AreRunRows, ShowRows, failing_after, times_after};
ghost use Rattle.run_ledger.specs.Behind.{with_events};

/// However the events of several lanes are merged into a run, the run has the rows of the lanes one after another, and so
/// has what all runs say together.
pub fn lanes_are_read_in_turn()
    ensures rows { (bytes : List ℕ) (events : List Event) (lists : List (List Event)) → HasEvents bytes events → length lists ≤ 64 → IsMerge events lists → AreRowsOf bytes (fold.rows_of (joined lists)) }
    ensures failing { (base : Base) (entries : List RunRows) (partial : Bool) (events : List Event) (lists : List (List Event)) → length lists ≤ 64 → IsMerge events lists → failing_after base (with_events entries partial events) ≡ failing_after base (with_events entries partial (joined lists)) }
    ensures times { (entries : List RunRows) (partial : Bool) (events : List Event) (lists : List (List Event)) → length lists ≤ 64 → IsMerge events lists → times_after (with_events entries partial events) ≡ times_after (with_events entries partial (joined lists)) }
    // Files that show the run behind others show these rows. The failing set and the times that they show are told of them.
    ensures shown { (files : Files) (runs : List Run) (entries : List RunRows) (partial : Bool) (bytes : List ℕ) (events : List Event) (lists : List (List Event)) → Shows files (runs ++ run_of partial bytes ∷ []) → AreRunRows runs entries → HasEvents bytes events → length lists ≤ 64 → IsMerge events lists → ShowRows files (with_events entries partial (joined lists)) }
{}
