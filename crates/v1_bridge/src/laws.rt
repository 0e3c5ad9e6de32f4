//! What is written note by note is the text of the notes, and it is read again.

ghost use Rattle.std.specs.Prelude.{◌≡◌, List, [], ◌∷◌, ◌++◌, All};
ghost use Rattle.packet_codec.specs.declared.event.Event.{Event as AnEvent};
ghost use Rattle.stream_reader.specs.declared.note.Note.{Note as ANote};
ghost use Rattle.v1_bridge.specs.Writing.{added_text, text_at_end, text_so_far, v1_text};
ghost use Rattle.v1_bridge.specs.Laws.{IsPlainEvent, SaysAgain};

/// The law of writing and reading: where each event has an id, and the ids and the sets of tags are ones that lines tell as
/// they are, reading the lines that are written of the events gives a row for each row that is written. The rows stand in
/// the order in which they are written, with the same ids, tags and ends, but that an open test has failed. Nothing is said
/// of times and texts.
pub fn rows_read_again()
    ensures rows { (events : List AnEvent) → All IsPlainEvent events → SaysAgain events }
{}

/// The texts that a writer's calls append, one behind another, are the text of the notes.
pub fn texts_are_written_in_turn()
    ensures so_far { (notes : List ANote) (n : ANote) → text_so_far (notes ++ n ∷ []) ≡ text_so_far notes ++ added_text notes n }
    ensures whole { (notes : List ANote) → v1_text notes ≡ text_so_far notes ++ text_at_end notes }
{}
