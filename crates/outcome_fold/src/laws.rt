//! Laws of rows and of the orders that they rest on.

ghost use Rattle.std.specs.Prelude.{◌≡◌, ◌+◌, ◌≤◌, Bool, List, Contains, length, count_by, if◌then◌else◌};
ghost use Rattle.std.specs.Cmp.{IsTotalOrder};
ghost use Rattle.std.specs.FinMap.{IsAntisymmetric};
ghost use Rattle.packet_codec.specs.declared.event.Event.{Event as AnEvent};
ghost use Rattle.packet_codec.specs.Lanes.{IsMerge, joined};
ghost use Rattle.outcome_fold.specs.declared.row.Row.{Row as ARow};
ghost use Rattle.outcome_fold.specs.declared.test_key.TestKey.{TestKey as ATest};
ghost use Rattle.outcome_fold.specs.Order.{text_cmp, route_cmp, test_cmp};
ghost use Rattle.outcome_fold.specs.Parts.{has_end_status, events_of_test};
ghost use Rattle.outcome_fold.specs.Routes.{AgreeByRoute, SaySame};
ghost use Rattle.outcome_fold.specs.Rows.{completed_rows, open_rows, rows_of, is_open, is_row_of};

/// Each order by which tables are kept is total, and only equal ones tie in it. So a table has each key once, and finds
/// its value.
pub fn orders_of_maps()
    ensures texts { IsTotalOrder text_cmp }
    ensures exact_texts { IsAntisymmetric text_cmp }
    ensures routes { IsTotalOrder route_cmp }
    ensures exact_routes { IsAntisymmetric route_cmp }
    ensures tests { IsTotalOrder test_cmp }
    ensures exact_tests { IsAntisymmetric test_cmp }
{}

/// Laws of the rows of all lists of events.
pub fn rows_of_events()
    // A test has as many rows as its events have parts: one for each event that completes, and one for the last part
    // where that is not completed. A test of which no event speaks has none.
    ensures parts { (es : List AnEvent) (test : ATest) → count_by (is_row_of test) (rows_of es) ≡ count_by has_end_status (events_of_test test es) + (if is_open es test then 1 else 0) }
    // Each row of a part is among the rows.
    ensures completed { (es : List AnEvent) (row : ARow) → Contains (completed_rows es) row → Contains (rows_of es) row }
    ensures left_open { (es : List AnEvent) (row : ARow) → Contains (open_rows es) row → Contains (rows_of es) row }
    // And no other row is there, nor one twice: of each kind there are as many as of the parts.
    ensures as_many { (es : List AnEvent) (kind : ARow → Bool) → count_by kind (rows_of es) ≡ count_by kind (completed_rows es) + count_by kind (open_rows es) }
{}

/// The rows depend on the events of each route alone. So the events of several lanes have the same rows however they are
/// merged, and these are the rows of the lanes one after another.
pub fn rows_are_by_route()
    ensures by_route { (events others : List AnEvent) → AgreeByRoute events others → SaySame events others }
    // Merges of the same lists agree.
    ensures agree { (events others : List AnEvent) (lists : List (List AnEvent)) → IsMerge events lists → IsMerge others lists → AgreeByRoute events others }
    ensures merged { (events : List AnEvent) (lists : List (List AnEvent)) → length lists ≤ 64 → IsMerge events lists → SaySame events (joined lists) }
{}
