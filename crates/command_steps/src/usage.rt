//! Words that are no command.

ghost use Rattle.std.specs.Prelude.{◌≡◌};
ghost use Rattle.command_steps.specs.Refusals.{usage_text};
ghost use Rattle.command_steps.specs.Telling.{line_text};

use crate::refusal_line::Line;

/// Why words are no command.
#[derive(Clone, Copy, Debug, PartialEq, Eq)]
pub enum UsageFault {
    /// Those behind `testr` are none.
    Words,
}

impl UsageFault {
    /// The line that tells of it.
    pub fn line(self) -> Line<'static>
        ensures { line_text result ≡ usage_text self }
    {
        match self {
            UsageFault::Words => Line::of("testr: wrong usage\n"),
        }
    }
}
