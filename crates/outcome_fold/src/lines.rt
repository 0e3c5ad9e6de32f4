//! The lines of a text.

ghost use Rattle.std.specs.Prelude.{◌≡◌};
ghost use Rattle.outcome_fold.specs.Lines as lines;

/// Whether no line of the text is left without its end.
pub(crate) fn ends_its_line(text: &[u8]) -> bool
    ensures { result ≡ lines.ends_line text.now }
{
    text.is_empty() || text.ends_with(b"\n")
}

/// The end of the line that the text ends within, if it does: a newline, or nothing.
pub fn line_end<'a>(text: &[u8]) -> &'a [u8]
    ensures { result.now ≡ lines.line_end text.now }
{
    if ends_its_line(text) { b"" } else { b"\n" }
}
