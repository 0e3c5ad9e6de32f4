//! The notes of the rows that fail.

ghost use Rattle.std.specs.Prelude.{◌≡◌, ◌++◌, take, length, option_map, OnOk, OnErr};
ghost use Rattle.std.specs.List.{filter, flat_map};
ghost use Rattle.outcome_fold.specs.Answers.{row_fails};
ghost use Rattle.build_notes.specs.Notes as spec;
ghost use Rattle.build_notes.specs.Seen.{shown_spot};

use crate::message_escapes::{put_text, put_value};
use crate::spots::{Spot, last_spot};
use outcome_fold::Row;
use sub_number::NoMemory;

// Of each function that is not public: what stands in the text stays, also where there is not enough memory.

// The values that say where.
fn put_spot(spot: Option<Spot<'_>>, text: &mut Vec<u8>) -> Result<(), NoMemory>
    ensures ok { OnOk result (text.new.items ≡ text.old.items ++ spec.spot_values (option_map shown_spot spot.entry)) }
    ensures kept { take (length text.old.items) text.new.items ≡ text.old.items }
{
    let Some(spot) = spot else {
        return Ok(());
    };
    text.extend_from_slice(b"file=")?;
    put_value(spot.path, text)?;
    text.extend_from_slice(b",line=")?;
    put_value(spot.line, text)?;
    text.extend_from_slice(b",")?;
    Ok(())
}

// The note of a row that fails.
fn put_note(row: &Row, text: &mut Vec<u8>) -> Result<(), NoMemory>
    ensures ok { OnOk result (text.new.items ≡ text.old.items ++ spec.note_of row.now) }
    ensures kept { take (length text.old.items) text.new.items ≡ text.old.items }
{
    text.extend_from_slice(b"::error ")?;
    put_spot(last_spot(row.text.bytes()), text)?;
    text.extend_from_slice(b"title=")?;
    put_value(row.id.bytes(), text)?;
    text.extend_from_slice(b"::")?;
    put_text(row.text.bytes(), text)?;
    text.extend_from_slice(b"\n")?;
    Ok(())
}

// The notes of those that fail.
fn put_notes(rows: &[Row], text: &mut Vec<u8>) -> Result<(), NoMemory>
    ensures ok { OnOk result (text.new.items ≡ text.old.items ++ spec.failure_notes rows.now) }
    ensures kept { take (length text.old.items) text.new.items ≡ text.old.items }
{
    for row in rows {
        if row.ended.fails() {
            put_note(row, text)?;
        }
    }
    Ok(())
}

/// Appends a note for each row that fails, in the order of the rows: a line of its id, its text, and the last spot of a file
/// that its text tells of, of a file of the project where it tells of one (docs/FORMATS.md, "Notes of failures"). No id and no
/// text begins another line.
pub fn notes_text(rows: &[Row], out: &mut Vec<u8>) -> Result<(), NoMemory>
    ensures ok { OnOk result (out.new.items ≡ out.old.items ++ spec.failure_notes rows.now) }
    ensures err { OnErr result (out.new.items ≡ out.old.items) }
{
    let before = out.len();
    let done = put_notes(rows, out);
    if done.is_err() {
        out.truncate(before);
    }
    done
}
