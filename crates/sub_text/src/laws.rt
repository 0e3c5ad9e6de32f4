//! Laws of the texts of a run of several lanes.

ghost use Rattle.std.specs.Prelude.{◌≡◌, ◌≤◌, ℕ, Bool, List, length};
ghost use Rattle.packet_codec.specs.declared.event.Event.{Event};
ghost use Rattle.packet_codec.specs.Lanes.{IsMerge, joined};
ghost use Rattle.outcome_fold.specs.Rows.{rows_of};
ghost use Rattle.sub_text.specs.Texts.{report_of, summary_text, slowest_of};

/// However the events of several lanes are merged, the run's texts are those of the lanes one after another.
pub fn texts_are_of_lanes_in_turn()
    ensures report { (events : List Event) (lists : List (List Event)) (run : ℕ) (filter_tags : List (List ℕ)) → length lists ≤ 64 → IsMerge events lists → report_of (rows_of events) run filter_tags ≡ report_of (rows_of (joined lists)) run filter_tags }
    ensures summary { (events : List Event) (lists : List (List Event)) (run : ℕ) (filter_tags : List (List ℕ)) → length lists ≤ 64 → IsMerge events lists → summary_text (rows_of events) run filter_tags ≡ summary_text (rows_of (joined lists)) run filter_tags }
    ensures slowest { (events : List Event) (lists : List (List Event)) (all : Bool) → length lists ≤ 64 → IsMerge events lists → slowest_of (rows_of events) all ≡ slowest_of (rows_of (joined lists)) all }
{}
