//! Laws of the filters that write events.

ghost use Rattle.std.specs.Prelude.{◌≡◌, ◌++◌, true, List, map};
ghost use Rattle.stream_reader.specs.declared.note.Note.{Note};
ghost use Rattle.stream_reader.specs.Notes.{events_of};
ghost use Rattle.event_sift.specs.declared.rules.Rules.{Rules};
ghost use Rattle.event_sift.specs.declared.tagger.Tagger.{Tagger};
ghost use Rattle.event_sift.specs.Keeping.{keeps};
ghost use Rattle.event_sift.specs.Released.{filtered};
ghost use Rattle.event_sift.specs.Tagging.{tagged};
ghost use Rattle.packet_codec.specs.Canonical.{packets_of};
ghost use Rattle.filter_cli.specs.Script.{given_by};
ghost use Rattle.filter_cli.specs.Events.{events_heard};
ghost use Rattle.filter_cli.specs.Filtering.{filter_plan};
ghost use Rattle.filter_cli.specs.Tagging.{tags_plan};

/// The texts of whole streams as packets, one after another.
pub fn packets_of_streams()
    // Where output of no test is hidden, what is let through are the packets of the events that are released of the
    // stream's other events, while they come and at the end.
    ensures let_through { (rules : Rules) (notes : List Note) → given_by (filter_plan rules true) notes ++ (filter_plan rules true).at_end notes ≡ packets_of (filtered (keeps rules) (events_heard true notes)) }
    // With other tags it is the packets of all events, those of foreign bytes among them.
    ensures tagged { (tagger : Tagger) (notes : List Note) → given_by (tags_plan tagger) notes ++ (tags_plan tagger).at_end notes ≡ packets_of (map (tagged tagger) (events_of notes)) }
{}
