//! Laws of what filters write and refuse.

ghost use Rattle.std.specs.Prelude.{◌≡◌, ◌⊎◌, ◌++◌, ◌<◌, ◌≤◌, ℕ, None, IsSomeAnd, List, length};
ghost use Rattle.edge_io.specs.Limits.{most_bytes};
ghost use Rattle.packet_codec.specs.Grammar.{AreBytes};
ghost use Rattle.stream_reader.specs.declared.note.Note.{Note};
ghost use Rattle.tap_bridge.specs.Texts.{tap_text};
ghost use Rattle.filter_cli.specs.declared.request.Asked.{Asked as AnAsked};
ghost use Rattle.filter_cli.specs.Script.{given_by};
ghost use Rattle.filter_cli.specs.declared.ls.Listing.{Listing};
ghost use Rattle.filter_cli.specs.declared.stats.Counting.{Counting};
ghost use Rattle.filter_cli.specs.Events.{as_events, events_among};
ghost use Rattle.filter_cli.specs.Ls.{ls_plan};
ghost use Rattle.filter_cli.specs.Stats.{stats_plan};
ghost use Rattle.v1_bridge.specs.Writing.{v1_text};
ghost use Rattle.filter_cli.specs.TapRows.{tap_rows, tap_plan};
ghost use Rattle.filter_cli.specs.V1Parts.{v1_plan};
ghost use Rattle.filter_cli.specs.Outside.{FilterOutside};
ghost use Rattle.filter_cli.specs.Promises.{feed_of, FilterPromises};
ghost use Rattle.filter_cli.specs.Streams.{AsksFor, IsSeenBy, IsFilteredBy, text_unread};
ghost use Rattle.filter_cli.specs.Words.{asked_by_words, input_file_in};

/// Laws of what filters write of all streams.
pub fn filtered_streams()
    // Words that ask for a filter, with good patterns, have a text of each stream, and a status.
    ensures some { (words : List (List ℕ)) (asked : AnAsked) → AsksFor words asked → (bytes : List ℕ) → (all : List ℕ) × (status : ℕ) × (status ≤ 1) × IsFilteredBy words bytes all status }
    // So have first bytes.
    ensures some_seen { (words : List (List ℕ)) (asked : AnAsked) → AsksFor words asked → (bytes : List ℕ) → AreBytes bytes → (text : List ℕ) × IsSeenBy words bytes text }
    // A stream has one.
    ensures one { (words : List (List ℕ)) (bytes all other : List ℕ) (status another : ℕ) → AreBytes bytes → IsFilteredBy words bytes all status → IsFilteredBy words bytes other another → (all ≡ other) × (status ≡ another) }
    // First bytes decide one text.
    ensures one_seen { (words : List (List ℕ)) (bytes shown other : List ℕ) → AreBytes bytes → IsSeenBy words bytes shown → IsSeenBy words bytes other → shown ≡ other }
    // What they decide comes first, whatever follows.
    ensures first { (words : List (List ℕ)) (bytes more shown all : List ℕ) (status : ℕ) → AreBytes (bytes ++ more) → IsSeenBy words bytes shown → IsFilteredBy words (bytes ++ more) all status → (rest : List ℕ) × (all ≡ shown ++ rest) }
{}

/// The text of a whole stream as lines of the Test Anything Protocol, and as lines of version 1.
pub fn lines_of_streams()
    // The first is that of the stream's tests, the lines in the order in which they complete, those left open behind them, and
    // the plan.
    ensures lines { (notes : List Note) → given_by tap_plan notes ++ tap_plan.at_end notes ≡ tap_text (tap_rows (events_among notes)) }
    // The second is that of the stream's notes.
    ensures version_one { (notes : List Note) → given_by v1_plan notes ++ v1_plan.at_end notes ≡ v1_text notes }
{}

/// What `subunit-ls` and `subunit-stats` make of a stream is what they make of the same stream as events alone, foreign bytes
/// among them as pieces of the file `stdout`.
pub fn streams_as_events()
    // The text of the one, and its status.
    ensures listed { (listing : Listing) (notes : List Note) → given_by (ls_plan listing) (as_events notes) ++ (ls_plan listing).at_end (as_events notes) ≡ given_by (ls_plan listing) notes ++ (ls_plan listing).at_end notes }
    ensures listed_status { (listing : Listing) (notes : List Note) → (ls_plan listing).status (as_events notes) ≡ (ls_plan listing).status notes }
    // The text of the other, and its status.
    ensures counted { (counting : Counting) (notes : List Note) → given_by (stats_plan counting) (as_events notes) ++ (stats_plan counting).at_end (as_events notes) ≡ given_by (stats_plan counting) notes ++ (stats_plan counting).at_end notes }
    ensures counted_status { (counting : Counting) (notes : List Note) → (stats_plan counting).status (as_events notes) ≡ (stats_plan counting).status notes }
{}

/// Where the words ask for a filter that reads, and what it reads is told and too long, it is refused: by status 3, unless a call
/// failed or memory was wanting.
pub fn too_long_is_refused()
    ensures refused { (words : List (List ℕ)) (before after : FilterOutside) (answer : ℕ) → FilterPromises words before after answer → (asked_by_words words ≡ None → ⊥) → text_unread words ≡ None
        → IsSomeAnd (feed_of (input_file_in words) 0 before).input.told (λ bytes. most_bytes < length bytes) → (answer ≡ 3) ⊎ ((answer ≡ 4) ⊎ (answer ≡ 5)) }
{}
