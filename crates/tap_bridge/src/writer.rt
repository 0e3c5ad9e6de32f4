//! Rows as lines of the Test Anything Protocol.

ghost use Rattle.std.specs.Prelude.{◌≡◌, ℕ, List, [], ◌∷◌, ◌++◌, IfOk, OnOk, OnErr};
ghost use Rattle.std.specs.List.{list_any};
ghost use Rattle.outcome_fold.specs.declared.row.Row.{Row as ARow};
ghost use Rattle.tap_bridge.specs.Texts as spec;

use itoa::Buffer;
use outcome_fold::{Ended, Row};
use std::alloc::Global;
use sub_number::NoMemory;

/// How many lines were written.
///
/// What its calls of `row` append, one after another, and then `close` is the text of the rows, as docs/FORMATS.md says
/// under "TAP".
#[derive(Clone, Copy, Debug, PartialEq, Eq)]
pub struct TapWriter {
    lines: u64,
}

fn has_line(ended: Ended) -> bool
    ensures { result ≡ spec.has_line ended }
{
    match ended {
        Ended::Exists => false,
        Ended::Success
        | Ended::UxSuccess
        | Ended::Skip
        | Ended::Fail
        | Ended::XFail
        | Ended::Open => true,
    }
}

// What a line begins with, whose test ended so.
fn verdict(ended: Ended) -> &'static [u8]
    ensures { result.now ≡ spec.tap_verdict ended }
{
    match ended {
        Ended::Exists => b"",
        Ended::Success | Ended::Skip => b"ok ",
        Ended::UxSuccess | Ended::Fail | Ended::XFail | Ended::Open => b"not ok ",
    }
}

// What a line ends with, whose test ended so.
fn directive_text(ended: Ended) -> &'static [u8]
    ensures { result.now ≡ spec.directive_text ended }
{
    match ended {
        Ended::Skip => b" # SKIP",
        Ended::XFail => b" # TODO",
        Ended::Exists | Ended::Success | Ended::UxSuccess | Ended::Fail | Ended::Open => b"",
    }
}

// A control character or a `#`, which a line does not show.
fn is_hidden(byte: u8) -> bool
    ensures { result ≡ spec.is_hidden byte }
{
    byte < 32 || byte == b'#'
}

// Appends the id with `?` for each byte that is not shown.
fn write_replaced(id: &[u8], text: &mut Vec<u8>) -> Result<(), NoMemory>
    ensures { OnOk result (text.new.items ≡ text.old.items ++ spec.tap_shown_id id.now) }
{
    for byte in id {
        text.push(if is_hidden(*byte) { b'?' } else { *byte })?;
    }
    Ok(())
}

// Appends the id as a line shows it. Most ids are shown as they are.
fn write_shown(id: &[u8], text: &mut Vec<u8>) -> Result<(), NoMemory>
    ensures { OnOk result (text.new.items ≡ text.old.items ++ spec.tap_shown_id id.now) }
{
    if id.iter().any(|byte| is_hidden(*byte)) {
        return write_replaced(id, text);
    }
    text.extend_from_slice(id)?;
    Ok(())
}

// The line of the test of this number.
fn line_of_row(alloc: Global, number: u64, row: &Row) -> Result<Vec<u8>, NoMemory>
    ensures { IfOk result (λ text. text.items ≡ spec.line_of_row number row.now) }
{
    let mut text = Vec::with_capacity(alloc, row.id.bytes().len() + 48)?;
    text.extend_from_slice(verdict(row.ended))?;
    text.extend_from_slice(Buffer::new().format(number).as_bytes())?;
    text.push(b' ')?;
    write_shown(row.id.bytes(), &mut text)?;
    text.extend_from_slice(directive_text(row.ended))?;
    text.push(b'\n')?;
    Ok(text)
}

// The plan of so many tests.
fn plan_line(alloc: Global, tests: u64) -> Result<Vec<u8>, NoMemory>
    ensures { IfOk result (λ text. text.items ≡ spec.plan_line tests) }
{
    let mut text = Vec::from_slice(alloc, b"1..")?;
    text.extend_from_slice(Buffer::new().format(tests).as_bytes())?;
    text.push(b'\n')?;
    Ok(text)
}

impl TapWriter {
    /// A writer that was given no row.
    pub fn new() -> Self
        ensures { spec.HasWrittenRows result [] }
    {
        TapWriter { lines: 0 }
    }

    /// Appends the line of the row, with the next number from 1 on. A row of a test that is there and did not run has
    /// none.
    pub fn row(&mut self, row: &Row, out: &mut Vec<u8>) -> Result<(), NoMemory>
        ensures text { (rows : List ARow) → spec.HasWrittenRows self.old rows → OnOk result (out.new.items ≡ out.old.items ++ spec.tap_text_at rows row.now) }
        ensures so_far { (rows : List ARow) → spec.tap_text_so_far (rows ++ row.now ∷ []) ≡ spec.tap_text_so_far rows ++ spec.tap_text_at rows row.now }
        ensures written { (rows : List ARow) → spec.HasWrittenRows self.old rows → OnOk result (spec.HasWrittenRows self.new (rows ++ row.now ∷ [])) }
        ensures nothing { OnErr result (out.new.items ≡ out.old.items) }
        ensures as_before { OnErr result (self.new ≡ self.old) }
    {
        if !has_line(row.ended) {
            return Ok(());
        }
        let number = self.lines.saturating_add(1);
        let text = line_of_row(*out.allocator(), number, row)?;
        out.extend_from_slice(&text)?;
        self.lines = number;
        Ok(())
    }

    /// Appends the plan, which ends the text: how many lines were written.
    pub fn close(self, out: &mut Vec<u8>) -> Result<(), NoMemory>
        ensures text { (rows : List ARow) → spec.HasWrittenRows self rows → OnOk result (out.new.items ≡ out.old.items ++ spec.plan_line (spec.lines_in rows)) }
        ensures whole { (rows : List ARow) → spec.tap_text rows ≡ spec.tap_text_so_far rows ++ spec.plan_line (spec.lines_in rows) }
        ensures nothing { OnErr result (out.new.items ≡ out.old.items) }
    {
        let plan = plan_line(*out.allocator(), self.lines)?;
        out.extend_from_slice(&plan)?;
        Ok(())
    }
}
