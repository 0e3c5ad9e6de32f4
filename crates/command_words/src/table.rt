//! Which options a command has.

ghost use Rattle.std.specs.Prelude.{◌≡◌, Option, List, ℕ};
ghost use Rattle.command_words.specs.declared.table.Kind.{Kind as AKind};

/// How an option is written.
#[derive(Clone, Copy, PartialEq, Eq, Debug)]
pub enum Kind {
    /// The word alone, as `--partial`.
    Flag,
    /// With a value, as `--name=value` or as `--name` and the value in the next word.
    Valued,
}

/// The options of a command.
pub trait OptionTable {
    /// How the option of this name is written, its two dashes included; none where the command has no such option.
    ghost kinds: { Self → List ℕ → Option AKind };

    /// How the option of this name is written, its two dashes included. None comes exactly where the command has no such
    /// option.
    fn kind(&self, name: &str) -> Option<Kind>
        ensures { result ≡ kinds self.now name.now };
}
