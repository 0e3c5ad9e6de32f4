//! What is exported, read back.

ghost use Rattle.std.specs.Prelude.{◌≡◌, ◌⊎◌, ◌∷◌, [], None, List, ℕ, Bool, map, IfOk};
ghost use Rattle.csv.specs.Machine.{next_record};
ghost use Rattle.csv.specs.Reading.{AreRecords, default_config, strip_bom};
ghost use Rattle.csv.specs.Records.{fields_of};
ghost use Rattle.csv.specs.declared.parser.State.TheVariants as st;
ghost use Rattle.packet_codec.specs.declared.event.Event.{Event as AnEvent};
ghost use Rattle.outcome_fold.specs.declared.row.Row.{Row as ARow};
ghost use Rattle.sub_export.specs.Records as spec;

use csv::{ByteRecord, Error, Reader};
use std::alloc::Global;

// The records below the first one, which is the head.
fn below_head(alloc: Global, text: &[u8]) -> Result<Vec<ByteRecord>, Error>
    ensures { IfOk result (λ records. (next_record default_config st.StartRecord [] [] (strip_bom text.now) ≡ None) ⊎ ((names : List (List ℕ)) × AreRecords default_config st.StartRecord (strip_bom text.now) (names ∷ map fields_of records.items))) }
{
    let reader = Reader::from_reader(alloc, text);
    let mut records = Vec::new(alloc);
    for record in reader.into_byte_records() {
        if records.push(record?).is_err() {
            return Err(Error::out_of_memory());
        }
    }
    Ok(records)
}

/// The names of the fields, as the reader of the library takes them by default from the first record.
pub fn exported_names(alloc: Global, text: &[u8]) -> Result<ByteRecord, Error>
    ensures { (kept : ARow → Bool) (events : List AnEvent) → text.now ≡ spec.csv_text kept events → IfOk result (λ names. fields_of names ≡ spec.head_fields) }
{
    let mut reader = Reader::from_reader(alloc, text);
    match reader.byte_headers()?.clone() {
        Ok(names) => Ok(names),
        Err(_) => Err(Error::out_of_memory()),
    }
}

/// The records below the head, as the reader of the library reads them by default. Of what is exported of a stream they
/// are its records.
pub fn exported_records(alloc: Global, text: &[u8]) -> Result<Vec<ByteRecord>, Error>
    ensures { (kept : ARow → Bool) (events : List AnEvent) → text.now ≡ spec.csv_text kept events → IfOk result (λ records. map fields_of records.items ≡ spec.csv_records kept events) }
{
    match below_head(alloc, text) {
        Ok(records) => Ok(records),
        Err(error) => Err(error),
    }
}
