//! A note is one line, whatever the id and the text of its test are.

ghost use Rattle.outcome_fold.specs.declared.row.Row.{Row};
ghost use Rattle.build_notes.specs.Notes.{note_of, IsOneLine};

/// The note of each row is one line. So no id and no text of a test begins another, and none forges a note.
pub fn notes_are_lines()
    ensures lines { (row : Row) → IsOneLine (note_of row) }
{}
