// The files that a shelf in memory has published, in order, and the moments that it has passed.
ghost use Rattle.std.specs.Prelude.{◌≡◌, ◌∷◌, [], ◌++◌, IfOk, OnOk, OnErr, length, nat_le, if◌then◌else◌};
ghost use Rattle.std.specs.Option.{option_map};
ghost use Rattle.edge_io.specs.Kept.{lookup, mark_in_force};
ghost use Rattle.edge_io.specs.Steps.{IsPart};

use std::alloc::{AllocError, Global};

/// A published file: its name and its bytes.
#[derive(Drop)]
pub struct File {
    pub name: String,
    pub bytes: Vec<u8>,
}

/// How many files are on the disk for good, and how many are published: at most one more, whose draft was wholly
/// synced or not.
#[derive(Clone, Copy)]
pub struct Mark {
    pub settled: usize,
    pub published: usize,
    pub whole: bool,
    /// The number of the call that brought it.
    pub since: u64,
}

/// One more file, and one more moment.
pub fn keep_file(
    files: &mut Vec<File>,
    past: &mut Vec<Mark>,
    mark: Mark,
    file: File,
) -> Result<(), AllocError>
    ensures files { OnOk result (files.new.items ≡ files.old.items ++ file ∷ []) }
    ensures past { OnOk result (past.new.items ≡ past.old.items ++ mark ∷ []) }
    ensures files_err { OnErr result (files.new.items ≡ files.old.items) }
    ensures past_err { OnErr result (past.new.items ≡ past.old.items) }
{
    past.reserve(1)?;
    files.push(file)?;
    past.push(mark).unwrap();
    Ok(())
}

/// The same files once more.
pub fn copied_files(alloc: Global, files: &[File]) -> Result<Vec<File>, AllocError>
    ensures same { IfOk result (λ copies. lookup copies.items ≡ lookup files.now) }
    ensures length { IfOk result (λ copies. length copies.items ≡ length files.now) }
{
    let mut copies = Vec::new(alloc);
    for file in files {
        let name = String::from_str(alloc, file.name.as_str())?;
        let bytes = file.bytes.to_vec(alloc)?;
        copies.push(File { name, bytes })?;
    }
    Ok(copies)
}

/// The later of two marks, if it had come by then.
fn newer(found: Mark, mark: Mark, moment: u64) -> Mark
    ensures { result ≡ (if nat_le mark.since moment then mark else found) }
{
    if mark.since <= moment { mark } else { found }
}

/// The mark that was in force at a moment.
pub fn mark_at(past: &[Mark], current: Mark, moment: u64) -> Mark
    ensures { result ≡ mark_in_force (past.now ++ current ∷ []) moment }
{
    let mut found = Mark {
        settled: 0,
        published: 0,
        whole: true,
        since: 0,
    };
    for mark in past {
        found = newer(found, *mark, moment);
    }
    newer(found, current, moment)
}

/// How many files a stop at a mark leaves, with the one that is pending or without it.
pub fn file_count_at(mark: Mark, choice: bool) -> usize
    ensures { result ≡ (if choice then mark.published else mark.settled) }
{
    if choice { mark.published } else { mark.settled }
}

/// The bytes of the last file of this name.
pub fn last_bytes_of<'a>(files: &'a [File], name: &str) -> Option<&'a [u8]>
    ensures { option_map (λ bytes. bytes.now) result ≡ lookup files.now name.now }
{
    let mut found: Option<&'a [u8]> = None;
    for file in files {
        if name == file.name.as_str() {
            found = Some(&file.bytes);
        }
    }
    found
}

/// Moves what fits of the bytes, from a place on.
pub fn copy_part(bytes: &[u8], place: u64, buf: &mut [u8]) -> usize
    ensures { IsPart bytes.now place buf.new result }
{
    let start = place.min(bytes.len() as u64) as usize;
    let count = (bytes.len() - start).min(buf.len());
    buf[..count].copy_from_slice(&bytes[start..start + count]);
    count
}
