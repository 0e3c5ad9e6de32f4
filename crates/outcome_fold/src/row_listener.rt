//! Who hears the rows of a run as they are completed.

ghost use Rattle.std.specs.Prelude.{◌∷◌, ◌++◌, [], ⊤, List, OnOk};
ghost use Rattle.outcome_fold.specs.declared.row.Row.{Row as ARow};

use crate::row::Row;
use sub_number::NoMemory;

/// Hears the rows of a run one by one, each before it is summed up.
pub trait RowListener {
    /// The rows that it has heard, in order, since it was the first of the two.
    ghost heard: { Self → Self → List ARow → Type 0 };

    /// Hears the next row. After `NoMemory` nothing is known of what it has heard.
    fn hear_row(&mut self, row: &Row) -> Result<(), NoMemory>
        ensures hears { (begun : Self) (rows : List ARow) → heard begun self.old rows → OnOk result (heard begun self.new (rows ++ row.now ∷ [])) };
}

/// Hears each of the rows, in order.
pub(crate) fn hear_rows<L: RowListener>(rows: &[Row], listener: &mut L) -> Result<(), NoMemory>
    ensures { (begun : L) (before : List ARow) → L.heard begun listener.old before → OnOk result (L.heard begun listener.new (before ++ rows.now)) }
{
    for row in rows {
        listener.hear_row(row)?;
    }
    Ok(())
}

/// Hears nothing.
#[derive(Drop)]
pub(crate) struct DeafToRows;

impl RowListener for DeafToRows {
    ghost heard = { λ _ _ _. ⊤ };

    fn hear_row(&mut self, _row: &Row) -> Result<(), NoMemory> {
        Ok(())
    }
}
