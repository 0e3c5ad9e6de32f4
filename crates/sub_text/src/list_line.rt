//! A test as a line of a list.

ghost use Rattle.std.specs.Prelude.{◌≡◌, ◌++◌, take, length, OnOk, OnErr};
ghost use Rattle.sub_text.specs.Listed.{listed_line, time_shown};

use crate::seconds::seconds_text;
use sub_number::{NoMemory, Text};

// The time behind an id, where times are asked for and it has one.
fn write_time(nanos: Option<u64>, times: bool, out: &mut Vec<u8>) -> Result<(), NoMemory>
    ensures ok { OnOk result (out.new.items ≡ out.old.items ++ time_shown nanos times) }
    ensures front { take (length out.old.items) out.new.items ≡ out.old.items }
{
    let Some(nanos) = nanos else {
        return Ok(());
    };
    if times {
        out.push(b' ')?;
        seconds_text(u128::from(nanos), out)?;
    }
    Ok(())
}

fn write_line(id: &Text, nanos: Option<u64>, times: bool, out: &mut Vec<u8>) -> Result<(), NoMemory>
    ensures ok { OnOk result (out.new.items ≡ out.old.items ++ listed_line id.now nanos times) }
    ensures front { take (length out.old.items) out.new.items ≡ out.old.items }
{
    out.extend_from_slice(id.bytes())?;
    write_time(nanos, times, out)?;
    out.push(b'\n')?;
    Ok(())
}

/// Appends the id of a test and a newline. With `times`, a space and the time in seconds stand between them, where there
/// is one. It is given in nanoseconds.
pub fn ls_line(
    id: &Text,
    nanos: Option<u64>,
    times: bool,
    out: &mut Vec<u8>,
) -> Result<(), NoMemory>
    ensures ok { OnOk result (out.new.items ≡ out.old.items ++ listed_line id.now nanos times) }
    ensures err { OnErr result (out.new.items ≡ out.old.items) }
{
    let before = out.len();
    let Ok(()) = write_line(id, nanos, times, out) else {
        out.truncate(before);
        return Err(NoMemory);
    };
    Ok(())
}
