//! Laws of runs and their rows.

ghost use Rattle.std.specs.Prelude.{◌≡◌, ℕ, List};
ghost use Rattle.std.specs.List.{All};
ghost use Rattle.packet_codec.specs.Grammar.{AreBytes};
ghost use Rattle.run_shelf.specs.Repository.{Run};
ghost use Rattle.outcome_fold.specs.declared.row.Row.{Row as ARow};
ghost use Rattle.run_ledger.specs.Ledger.{RunRows, AreRunRows};
ghost use Rattle.run_ledger.specs.Reading.{AreRowsOf};

/// Each list of bytes has one list of rows, and so have the bytes of each run of a list: a repository has one failing set
/// and one time for each id.
pub fn runs_have_one_list_of_rows()
    ensures run { (bytes : List ℕ) (rows others : List ARow) → AreBytes bytes → AreRowsOf bytes rows → AreRowsOf bytes others → others ≡ rows }
    ensures some { (bytes : List ℕ) → (rows : List ARow) × AreRowsOf bytes rows }
    ensures runs { (runs : List Run) (entries others : List RunRows) → All (λ run. AreBytes run.bytes) runs → AreRunRows runs entries → AreRunRows runs others → others ≡ entries }
{}
