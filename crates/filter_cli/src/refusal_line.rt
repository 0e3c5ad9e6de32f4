//! Tells of a refusal.

ghost use Rattle.std.specs.Prelude.{◌++◌, OnOk};
ghost use Rattle.std.specs.Io.KnownBytes.{Appends};
ghost use Rattle.edge_io.specs.Bytes.{AppendsPrefix};
ghost use Rattle.edge_io.specs.Causes.{HasCause};
ghost use Rattle.filter_cli.specs.Telling.{filter_line_text};

use edge_io::{Failed, Sink, write_whole};

/// A line in parts, so that telling of a pattern takes no memory.
#[derive(Clone, Copy)]
pub struct Line<'a> {
    /// The filter's name, or nothing.
    pub name: &'a str,
    /// What stands behind the name: the rest of the line where it tells of no pattern.
    pub front: &'static str,
    /// The pattern, or nothing.
    pub pattern: &'a [u8],
    /// What stands behind it.
    pub end: &'static str,
}

impl<'a> Line<'a> {
    ghost use Rattle.std.specs.Prelude.{◌≡◌};

    /// A line that tells of no pattern.
    pub fn of(name: &'a str, front: &'static str) -> Line<'a>
        ensures { filter_line_text result ≡ name.now ++ front.now }
    {
        Line {
            name,
            front,
            pattern: &[],
            end: "",
        }
    }
}

/// Writes the line.
pub fn tell_line<E: Sink>(err: &mut E, line: Line<'_>) -> Result<(), Failed>
    ensures whole { OnOk result (Appends (E.seen err.old).told (E.seen err.new).told (filter_line_text line.entry)) }
    ensures prefix { AppendsPrefix (E.seen err.old).told (E.seen err.new).told (filter_line_text line.entry) }
    ensures cause { HasCause (E.seen err.old).faults (E.seen err.new).faults result }
{
    write_whole(err, line.name.as_bytes())?;
    tell_behind(err, line)
}

// Writes what stands behind the name.
fn tell_behind<E: Sink>(err: &mut E, line: Line<'_>) -> Result<(), Failed>
    ensures whole { OnOk result (Appends (E.seen err.old).told (E.seen err.new).told (line.entry.front.now ++ (line.entry.pattern.now ++ line.entry.end.now))) }
    ensures prefix { AppendsPrefix (E.seen err.old).told (E.seen err.new).told (line.entry.front.now ++ (line.entry.pattern.now ++ line.entry.end.now)) }
    ensures cause { HasCause (E.seen err.old).faults (E.seen err.new).faults result }
{
    write_whole(err, line.front.as_bytes())?;
    tell_pattern(err, line)
}

// Writes the pattern and what stands behind it.
fn tell_pattern<E: Sink>(err: &mut E, line: Line<'_>) -> Result<(), Failed>
    ensures whole { OnOk result (Appends (E.seen err.old).told (E.seen err.new).told (line.entry.pattern.now ++ line.entry.end.now)) }
    ensures prefix { AppendsPrefix (E.seen err.old).told (E.seen err.new).told (line.entry.pattern.now ++ line.entry.end.now) }
    ensures cause { HasCause (E.seen err.old).faults (E.seen err.new).faults result }
{
    write_whole(err, line.pattern)?;
    write_whole(err, line.end.as_bytes())
}
