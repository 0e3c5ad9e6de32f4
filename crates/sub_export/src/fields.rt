//! A record as a row.

ghost use Rattle.std.specs.Prelude.{◌≡◌, ◌++◌, map, IfOk, OnOk, OnErr};
ghost use Rattle.csv.specs.Writing.{default_writer, row_text};

use csv::WriterBuilder;
use std::alloc::Global;
use sub_number::NoMemory;

// The row of the fields.
fn row_of(alloc: Global, fields: &[&[u8]]) -> Result<Vec<u8>, NoMemory>
    ensures { IfOk result (λ row. row.items ≡ row_text default_writer (map (λ field. field.now) fields.now)) }
{
    let mut writer = WriterBuilder::new().from_writer(Vec::new(alloc));
    if writer.write_fields(fields).is_err() {
        return Err(NoMemory);
    }
    match writer.into_inner() {
        Ok(row) => Ok(row),
        Err(_) => Err(NoMemory),
    }
}

/// Appends the row of the fields, as the writer of the library writes it by default.
pub(crate) fn put_row(alloc: Global, fields: &[&[u8]], out: &mut Vec<u8>) -> Result<(), NoMemory>
    ensures ok { OnOk result (out.new.items ≡ out.old.items ++ row_text default_writer (map (λ field. field.now) fields.now)) }
    ensures err { OnErr result (out.new.items ≡ out.old.items) }
{
    let row = row_of(alloc, fields)?;
    out.extend_from_slice(&row)?;
    Ok(())
}
