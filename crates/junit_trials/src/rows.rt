//! Rows of a few words.

ghost use Rattle.std.specs.Prelude.{◌≡◌, [], None, IfSome};
ghost use Rattle.outcome_fold.specs.declared.row.Ended.TheVariants.{Skip};

use outcome_fold::{Ended, Row};
use packet_codec::Tags;
use std::alloc::Global;
use sub_number::{Bytes, Text};

/// A row: its id, how it ended, its time in nanoseconds, and its text, or its reason where it is a skip.
pub type Told = (&'static [u8], Ended, Option<u64>, &'static [u8]);

fn text_of(told: &Told) -> &[u8]
    ensures skip { told.now.1 ≡ Skip → result.now ≡ [] }
    ensures other { (told.now.1 ≡ Skip → ⊥) → result.now ≡ told.now.3.now }
{
    if told.1 == Ended::Skip { b"" } else { told.3 }
}

fn reason_of(told: &Told) -> &[u8]
    ensures skip { told.now.1 ≡ Skip → result.now ≡ told.now.3.now }
    ensures other { (told.now.1 ≡ Skip → ⊥) → result.now ≡ [] }
{
    if told.1 == Ended::Skip { told.3 } else { b"" }
}

/// The row, of no route and no tags. None where the id is no text.
pub fn row(alloc: Global, told: &Told) -> Option<Row>
    ensures told { IfSome result (λ row. (row.id ≡ told.now.0.now) × (row.ended ≡ told.now.1) × (row.nanos ≡ told.now.2)) }
    ensures skip { told.now.1 ≡ Skip → IfSome result (λ row. (row.text ≡ []) × (row.reason ≡ told.now.3.now)) }
    ensures other { (told.now.1 ≡ Skip → ⊥) → IfSome result (λ row. (row.text ≡ told.now.3.now) × (row.reason ≡ [])) }
    ensures bare { IfSome result (λ row. (row.route ≡ None) × (row.tags ≡ [])) }
{
    let id = Text::new(alloc, told.0).ok()?;
    let text = Bytes::new(alloc, text_of(told)).ok()?;
    let reason = Bytes::new(alloc, reason_of(told)).ok()?;
    Some(Row {
        id,
        route: None,
        ended: told.1,
        tags: Tags::new(alloc),
        nanos: told.2,
        text,
        reason,
    })
}
