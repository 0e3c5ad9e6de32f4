//! What is printed of a run grows with its events.

ghost use Rattle.std.specs.Prelude.{◌≡◌, ◌++◌, ◌∷◌, [], List, length};
ghost use Rattle.std.specs.Option.{option_to_list};
ghost use Rattle.packet_codec.specs.declared.event.Event.{Event as AnEvent};
ghost use Rattle.outcome_fold.specs.Rows.{completed_row, completed_behind};
ghost use Rattle.live_text.specs.Live.{rows_done, live_so_far, printed_behind, live_rows};
ghost use Rattle.live_text.specs.declared.live.Live.{Live};

/// Laws of what is printed of a run while it goes on.
pub fn live_text_grows()
    // What is printed of some events begins with what was printed of the first ones, and goes on with the rows that the
    // others complete.
    ensures grows { (kind : Live) (front more : List AnEvent) → live_so_far kind (front ++ more) ≡ live_so_far kind front ++ live_rows kind (length (rows_done front)) (completed_behind front more) }
    // So of one event more.
    ensures steps { (kind : Live) (seen : List AnEvent) (e : AnEvent) → live_so_far kind (seen ++ e ∷ []) ≡ live_so_far kind seen ++ live_rows kind (length (rows_done seen)) (option_to_list (completed_row seen e)) }
    // The number of rows grows so, too.
    ensures counts { (seen : List AnEvent) (e : AnEvent) → length (rows_done (seen ++ e ∷ [])) ≡ printed_behind (length (rows_done seen)) (option_to_list (completed_row seen e)) }
{}
