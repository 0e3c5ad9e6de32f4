//! The failing ids.

ghost use Rattle.std.specs.Prelude.{◌≡◌, ◌++◌, false, take, length, OnOk, OnErr};
ghost use Rattle.std.specs.List.{flat_map};
ghost use Rattle.sub_text.specs.Texts.{id_line, failing_line, failing_text_of};

use itoa::Buffer;
use sub_number::{IdList, NoMemory, Text};

// Each id on a line.
fn write_list(ids: &[Text], text: &mut Vec<u8>) -> Result<(), NoMemory>
    ensures ok { OnOk result (text.new.items ≡ text.old.items ++ flat_map id_line ids.now) }
    ensures kept { take (length text.old.items) text.new.items ≡ text.old.items }
{
    for id in ids {
        text.extend_from_slice(id.bytes())?;
        text.push(b'\n')?;
    }
    Ok(())
}

// Each id on a line, behind what it is.
fn write_failing(ids: &[Text], text: &mut Vec<u8>) -> Result<(), NoMemory>
    ensures ok { OnOk result (text.new.items ≡ text.old.items ++ flat_map failing_line ids.now) }
    ensures kept { take (length text.old.items) text.new.items ≡ text.old.items }
{
    for id in ids {
        text.extend_from_slice(b"FAIL: ")?;
        text.extend_from_slice(id.bytes())?;
        text.push(b'\n')?;
    }
    Ok(())
}

// The lines of the ids, and their number.
fn write_counted(ids: &[Text], text: &mut Vec<u8>) -> Result<(), NoMemory>
    ensures ok { OnOk result (text.new.items ≡ text.old.items ++ failing_text_of ids.now false) }
    ensures kept { take (length text.old.items) text.new.items ≡ text.old.items }
{
    write_failing(ids, text)?;
    text.extend_from_slice(b"failures=")?;
    text.extend_from_slice(Buffer::new().format(ids.len()).as_bytes())?;
    text.push(b'\n')?;
    Ok(())
}

// The same as `failing_text`. What stands in the text stays, also where there is not enough memory. So of each function
// that is called here.
fn write_ids(ids: &[Text], list: bool, text: &mut Vec<u8>) -> Result<(), NoMemory>
    ensures ok { OnOk result (text.new.items ≡ text.old.items ++ failing_text_of ids.now list) }
    ensures kept { take (length text.old.items) text.new.items ≡ text.old.items }
{
    if list {
        write_list(ids, text)
    } else {
        write_counted(ids, text)
    }
}

/// Appends the failing ids: as a list, each id alone on a line; else each behind `FAIL: `, and then their number.
pub fn failing_text(ids: &IdList, list: bool, out: &mut Vec<u8>) -> Result<(), NoMemory>
    ensures ok { OnOk result (out.new.items ≡ out.old.items ++ failing_text_of ids.now list) }
    ensures err { OnErr result (out.new.items ≡ out.old.items) }
{
    let before = out.len();
    let done = write_ids(ids.list(), list, out);
    if done.is_err() {
        out.truncate(before);
    }
    done
}
