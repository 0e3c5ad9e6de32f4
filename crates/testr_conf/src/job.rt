//! The parts of a job.

ghost use Rattle.std.specs.Prelude.{◌≡◌, ◌<◌, ◌∷◌, ◌++◌, true, IfOk, OnOk};
ghost use Rattle.std.specs.Fmt.{decimal};
ghost use Rattle.std.specs.List.{flat_map, list_all};
ghost use Rattle.sub_number.specs.Texts.{IsText};
ghost use Rattle.testr_conf.specs.Jobs.{plain_job, id_file_name, id_lines, id_list_of, id_file_of, is_plain_byte, is_plain_path, path_in, files_value, quoted_byte, single_quoted, arguments_text, followed_by};

use edge_io::{IdFile, Job};
use itoa::Buffer;
use std::alloc::Global;
use sub_number::{Bytes, IdList, NoMemory, Text, TextFault};

// A command that reads no id file.
pub(crate) fn plain_job(command: Vec<u8>) -> Job
    ensures { result ≡ plain_job command.items }
{
    Job {
        command: Bytes::from_vec(command),
        id_file: None,
    }
}

// The name of a lane's id file.
fn id_file_name(alloc: Global, lane: u32) -> Result<Text, NoMemory>
    requires { lane < 64 }
    ensures { IfOk result (λ name. name ≡ id_file_name lane) }
{
    let mut name = Vec::from_slice(alloc, b".testr-ids.")?;
    name.extend_from_slice(Buffer::new().format(lane).as_bytes())?;
    match Text::new(alloc, &name) {
        Ok(name) => Ok(name),
        Err(TextFault::NotText) => unreachable!(),
        Err(TextFault::NoMemory) => Err(NoMemory),
    }
}

/// The ids in their order, each on a line.
pub fn id_lines(alloc: Global, ids: &[Text]) -> Result<Vec<u8>, NoMemory>
    ensures { IfOk result (λ lines. lines.items ≡ id_lines ids.now) }
{
    let mut lines = Vec::new(alloc);
    for id in ids {
        lines.extend_from_slice(id.bytes())?;
        lines.push(b'\n')?;
    }
    Ok(lines)
}

// The id file of a lane.
pub(crate) fn id_file(alloc: Global, ids: &IdList, lane: u32) -> Result<IdFile, NoMemory>
    requires { lane < 64 }
    ensures { IfOk result (λ file. file ≡ id_file_of ids.now lane) }
{
    Ok(IdFile {
        name: id_file_name(alloc, lane)?,
        bytes: Bytes::from_vec(id_lines(alloc, ids.list())?),
    })
}

// Whether no shell reads the byte.
fn is_plain_byte(byte: u8) -> bool
    ensures { result ≡ is_plain_byte byte }
{
    byte.is_ascii_alphanumeric()
        || matches!(
            byte,
            b'/' | b'.' | b'_' | b'-' | b'+' | b'@' | b'%' | b',' | b':' | b'='
        )
}

// Whether no shell reads any of the bytes.
fn are_plain(bytes: &[u8]) -> bool
    ensures { result ≡ list_all is_plain_byte bytes.now }
{
    bytes.iter().all(|byte| is_plain_byte(*byte))
}

fn is_plain_path(path: &[u8]) -> bool
    ensures { result ≡ is_plain_path path.now }
{
    !path.is_empty() && are_plain(path)
}

// What stands for the id file of this name in a command, where the project is in this folder.
pub(crate) fn id_path(alloc: Global, folder: &str, name: &Text) -> Result<Vec<u8>, NoMemory>
    ensures value { IfOk result (λ path. path.items ≡ path_in folder.now name.now) }
    ensures text { IfOk result (λ path. IsText path.items) }
{
    if is_plain_path(folder.as_bytes()) {
        join_path(alloc, folder.as_bytes(), name)
    } else {
        Ok(Vec::from_slice(alloc, name.bytes())?)
    }
}

// The path of the id file that a job reads, where the project is in this folder; nothing, where it reads none.
pub(crate) fn files_value(
    alloc: Global,
    folder: &str,
    file: &Option<IdFile>,
) -> Result<Vec<u8>, NoMemory>
    ensures value { IfOk result (λ files. files.items ≡ files_value folder.now file.now) }
    ensures text { IfOk result (λ files. IsText files.items) }
{
    match file {
        Some(file) => id_path(alloc, folder, &file.name),
        None => Ok(Vec::new(alloc)),
    }
}

// The number in decimal.
pub(crate) fn decimal_text(alloc: Global, number: u32) -> Result<Vec<u8>, NoMemory>
    ensures value { IfOk result (λ text. text.items ≡ decimal number) }
    ensures text { IfOk result (λ text. IsText text.items) }
{
    Ok(Vec::from_slice(alloc, Buffer::new().format(number).as_bytes())?)
}

// The folder, a slash, and the name.
fn join_path(alloc: Global, folder: &[u8], name: &Text) -> Result<Vec<u8>, NoMemory>
    requires { is_plain_path folder.now ≡ true }
    ensures value { IfOk result (λ path. path.items ≡ folder.now ++ 47 ∷ name.now) }
    ensures text { IfOk result (λ path. IsText path.items) }
{
    let mut path = Vec::from_slice(alloc, folder)?;
    path.push(b'/')?;
    path.extend_from_slice(name.bytes())?;
    Ok(path)
}

// Adds each id behind a space.
fn add_ids(ids: &[Text], list: &mut Vec<u8>) -> Result<(), NoMemory>
    requires { IsText list.old.items }
    ensures value { OnOk result (list.new.items ≡ list.old.items ++ flat_map (λ id. 32 ∷ id) ids.now) }
    ensures text { OnOk result (IsText list.new.items) }
{
    for id in ids {
        list.push(b' ')?;
        list.extend_from_slice(id.bytes())?;
    }
    Ok(())
}

// The ids, with a space between each two.
pub(crate) fn join_ids(alloc: Global, ids: &[Text]) -> Result<Vec<u8>, NoMemory>
    ensures value { IfOk result (λ list. list.items ≡ id_list_of ids.now) }
    ensures text { IfOk result (λ list. IsText list.items) }
{
    let Some((first, others)) = ids.split_first() else {
        return Ok(Vec::new(alloc));
    };
    let mut list = Vec::from_slice(alloc, first.bytes())?;
    add_ids(others, &mut list)?;
    Ok(list)
}

// Adds a word's byte as it stands between single quotes.
fn add_quoted_byte(byte: u8, command: &mut Vec<u8>) -> Result<(), NoMemory>
    ensures { OnOk result (command.new.items ≡ command.old.items ++ quoted_byte byte) }
{
    if byte == b'\'' {
        command.extend_from_slice(b"'\\''")?;
    } else {
        command.push(byte)?;
    }
    Ok(())
}

// Adds the word's bytes as they stand between single quotes.
fn add_quoted_bytes(word: &[u8], command: &mut Vec<u8>) -> Result<(), NoMemory>
    ensures { OnOk result (command.new.items ≡ command.old.items ++ flat_map quoted_byte word.now) }
{
    for byte in word {
        add_quoted_byte(*byte, command)?;
    }
    Ok(())
}

// Adds the word between single quotes, behind a space.
fn add_argument(word: &[u8], command: &mut Vec<u8>) -> Result<(), NoMemory>
    ensures { OnOk result (command.new.items ≡ command.old.items ++ 32 ∷ single_quoted word.now) }
{
    command.extend_from_slice(b" '")?;
    add_quoted_bytes(word, command)?;
    command.push(b'\'')?;
    Ok(())
}

// Adds each of the words between single quotes, behind a space.
fn add_arguments(words: &[Text], command: &mut Vec<u8>) -> Result<(), NoMemory>
    requires { IsText command.old.items }
    ensures value { OnOk result (command.new.items ≡ command.old.items ++ arguments_text words.now) }
    ensures text { OnOk result (IsText command.new.items) }
{
    for word in words {
        add_argument(word.bytes(), command)?;
    }
    Ok(())
}

// The job, with these words behind its command.
pub(crate) fn append_words(job: Job, words: &[Text]) -> Result<Job, NoMemory>
    requires { IsText job.command }
    ensures job { IfOk result (λ followed. followed ≡ followed_by words.now job) }
    ensures text { IfOk result (λ followed. IsText followed.command) }
{
    let mut command = job.command.into_vec();
    add_arguments(words, &mut command)?;
    Ok(Job {
        command: Bytes::from_vec(command),
        id_file: job.id_file,
    })
}
