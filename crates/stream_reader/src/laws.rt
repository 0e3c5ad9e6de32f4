//! Laws of streams.

ghost use Rattle.std.specs.Prelude.{◌≡◌, ◌≤◌, ◌++◌, List, [], ℕ, All, map, length};
ghost use Rattle.std.specs.List.{flat_map};
ghost use Rattle.packet_codec.specs.Grammar.{AreBytes};
ghost use Rattle.packet_codec.specs.Canonical.{IsEvent, Fits, canonical};
ghost use Rattle.packet_codec.specs.declared.event.Event.{Event};
ghost use Rattle.stream_reader.specs.declared.note.Note.{Note};
ghost use Rattle.stream_reader.specs.declared.note.Note.TheVariants as note;
ghost use Rattle.stream_reader.specs.Room.{most_held};
ghost use Rattle.stream_reader.specs.Notes.{HasNotes, HasDecided, HasEvents, AreFullRuns};
ghost use Rattle.stream_reader.specs.Stream.{BeginsWithNotes, EndsWithNotes, AreMadeOf};

/// Laws of the notes of all streams.
pub fn notes_of_streams()
    // Each stream has notes.
    ensures some { (bytes : List ℕ) → (notes : List Note) × HasNotes bytes notes }
    // Its first bytes decide some, and so does each list of bytes.
    ensures some_decided { (bytes : List ℕ) → AreBytes bytes → (notes : List Note) × HasDecided bytes notes }
    // And it has one list of them.
    ensures one_list { (bytes : List ℕ) (notes others : List Note) → AreBytes bytes → HasNotes bytes notes → HasNotes bytes others → notes ≡ others }
    // Its first bytes decide one list of notes.
    ensures one_decided { (bytes : List ℕ) (notes others : List Note) → AreBytes bytes → HasDecided bytes notes → HasDecided bytes others → notes ≡ others }
    // What the first bytes decide comes first, whatever follows.
    ensures decided_first { (bytes more : List ℕ) (notes others : List Note) → AreBytes (bytes ++ more) → HasDecided bytes notes → HasNotes (bytes ++ more) others → (rest : List Note) × (others ≡ notes ++ rest) }
    // Where nothing is decided, there are few bytes.
    ensures decided_few { (bytes : List ℕ) → HasDecided bytes [] → length bytes ≤ most_held }
    // Packets as they are written are their events, with no foreign note.
    ensures written { (events : List Event) → All IsEvent events → All Fits events → HasNotes (flat_map canonical events) (map note.Event events) }
    ensures written_events { (events : List Event) → All IsEvent events → All Fits events → HasEvents (flat_map canonical events) events }
    // Foreign notes are as long as they can be.
    ensures full_runs { (bytes : List ℕ) (notes : List Note) → HasNotes bytes notes → AreFullRuns notes }
    // No byte is lost or made: each note is made of its bytes, which stand in order.
    ensures all_bytes { (bytes : List ℕ) (notes : List Note) → HasNotes bytes notes → AreMadeOf notes bytes }
{}

/// Laws of a reader's notes, one call after another. With the clauses of `Reader` they tell that all notes that it gives
/// are those of the whole stream, however the stream was cut into pieces.
pub fn notes_in_turn()
    ensures none { (bytes : List ℕ) → BeginsWithNotes bytes [] bytes }
    ensures more { (bytes rest left : List ℕ) (given others : List Note) → BeginsWithNotes bytes given rest → BeginsWithNotes rest others left → BeginsWithNotes bytes (given ++ others) left }
    ensures fed { (bytes rest more : List ℕ) (given : List Note) → AreBytes more → BeginsWithNotes bytes given rest → BeginsWithNotes (bytes ++ more) given (rest ++ more) }
    ensures decided { (bytes rest : List ℕ) (given : List Note) → BeginsWithNotes bytes given rest → HasDecided rest [] → HasDecided bytes given }
    // The notes given come first of all that the stream has, and of all that its bytes so far decide, whatever follows.
    ensures given_first { (bytes rest more : List ℕ) (given others : List Note) → AreBytes (bytes ++ more) → AreBytes more → BeginsWithNotes bytes given rest → HasNotes (bytes ++ more) others → (last : List Note) × (others ≡ given ++ last) }
    ensures given_decided { (bytes rest more : List ℕ) (given others : List Note) → AreBytes (bytes ++ more) → AreBytes (rest ++ more) → AreBytes more → BeginsWithNotes bytes given rest → HasDecided (bytes ++ more) others → (last : List Note) × (others ≡ given ++ last) }
    ensures ended { (bytes rest : List ℕ) (given : List Note) → BeginsWithNotes bytes given rest → EndsWithNotes bytes given rest }
    ensures more_ended { (bytes rest left : List ℕ) (given others : List Note) → EndsWithNotes bytes given rest → EndsWithNotes rest others left → EndsWithNotes bytes (given ++ others) left }
    ensures whole { (bytes : List ℕ) (given : List Note) → EndsWithNotes bytes given [] → HasNotes bytes given }
{}
