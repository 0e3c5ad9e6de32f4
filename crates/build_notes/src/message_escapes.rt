// Bytes that cannot stand as they are.

ghost use Rattle.std.specs.Prelude.{◌≡◌, ◌++◌, take, length, OnOk, option_map};
ghost use Rattle.std.specs.List.{flat_map};
ghost use Rattle.build_notes.specs.Notes as spec;

use sub_number::NoMemory;

// What stands for a byte of a text that is not written as it is.
fn text_escape(byte: u8) -> Option<&'static [u8]>
    ensures { spec.byte_or byte (option_map (λ bytes. bytes.now) result) ≡ spec.text_byte byte }
{
    match byte {
        b'%' => Some(b"%25"),
        b'\r' => Some(b"%0D"),
        b'\n' => Some(b"%0A"),
        _ => None,
    }
}

// What stands for a byte of a value that is not written as it is.
fn value_escape(byte: u8) -> Option<&'static [u8]>
    ensures { spec.byte_or byte (option_map (λ bytes. bytes.now) result) ≡ spec.value_byte byte }
{
    match byte {
        b':' => Some(b"%3A"),
        b',' => Some(b"%2C"),
        _ => text_escape(byte),
    }
}

/// Appends the bytes as those of a text. What stands in the text stays, also where there is not enough memory.
pub(crate) fn put_text(bytes: &[u8], text: &mut Vec<u8>) -> Result<(), NoMemory>
    ensures ok { OnOk result (text.new.items ≡ text.old.items ++ flat_map spec.text_byte bytes.now) }
    ensures kept { take (length text.old.items) text.new.items ≡ text.old.items }
{
    for byte in bytes {
        put_byte(*byte, text_escape(*byte), text)?;
    }
    Ok(())
}

/// Appends the bytes as those of a value. What stands in the text stays, also where there is not enough memory.
pub(crate) fn put_value(bytes: &[u8], text: &mut Vec<u8>) -> Result<(), NoMemory>
    ensures ok { OnOk result (text.new.items ≡ text.old.items ++ flat_map spec.value_byte bytes.now) }
    ensures kept { take (length text.old.items) text.new.items ≡ text.old.items }
{
    for byte in bytes {
        put_byte(*byte, value_escape(*byte), text)?;
    }
    Ok(())
}

// Appends the byte, or what stands for it.
fn put_byte(byte: u8, escape: Option<&'static [u8]>, text: &mut Vec<u8>) -> Result<(), NoMemory>
    ensures ok { OnOk result (text.new.items ≡ text.old.items ++ spec.byte_or byte (option_map (λ bytes. bytes.now) escape.entry)) }
    ensures kept { take (length text.old.items) text.new.items ≡ text.old.items }
{
    match escape {
        Some(escape) => text.extend_from_slice(escape)?,
        None => text.push(byte)?,
    }
    Ok(())
}
