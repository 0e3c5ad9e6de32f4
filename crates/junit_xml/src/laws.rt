//! A document tells its rows, and is well-formed, whatever their ids and texts are.

ghost use Rattle.std.specs.Prelude.{◌≡◌, ◌<◌, ◌^◌, Some, List, length};
ghost use Rattle.outcome_fold.specs.declared.row.Row.{Row};
ghost use Rattle.junit_xml.specs.Documents.{junit_of};
ghost use Rattle.junit_xml.specs.Reading.{read_document};
ghost use Rattle.junit_xml.specs.Told.{told_document, IsXmlText};

/// The document of rows, read by its grammar, tells their counts, and of each row that is not only known to exist its id,
/// its time and how it ended, in their order. It is UTF-8 of characters that XML 1.0 allows. So no id and no text of a test
/// breaks a document, and none forges a case.
pub fn junit_is_read_back()
    ensures told { (rows : List Row) → length rows < 2 ^ 64 → read_document (junit_of rows) ≡ Some (told_document rows) }
    ensures characters { (rows : List Row) → IsXmlText (junit_of rows) }
{}
