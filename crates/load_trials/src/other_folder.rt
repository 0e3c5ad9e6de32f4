//! Another folder of the original tool, and calls that upgrade from it.

use edge_io::{MapSite, MemShelf, PlanSpawner};
use std::alloc::Global;
use std::sync::Wait;
use std::test::Fail;
use std::thread::Threads;
use sub_number::{Bytes, Text};
use trial_calls::{CallOutcome, FAIL, FOO, NOTHING, call_with, has_file};

/// What the file `format` has in a folder of the original tool.
pub const OLD_FORMAT: &[u8] = b"1\n";

/// The words that upgrade from the folder `old`.
pub const FROM_OLD: &[&str] = &["testr", "upgrade", "--from=old"];

/// What is told where it becomes a repository.
pub const UPGRADED: (u8, &[u8], &[u8]) = (0, b"upgraded 3 runs\n", NOTHING);

// Three runs, of which the second was removed. `foo` failed in the first one.
const OLD_FILES: [(&[u8], &[u8]); 5] = [
    (b"old/format", OLD_FORMAT),
    (b"old/next-stream", b"3\n"),
    (b"old/0", FAIL),
    (b"old/failing", FAIL),
    (b"old/2", FOO),
];

/// Gives the files one more, in place of any of its name.
pub fn put_in(alloc: Global, site: &mut MapSite, name: &[u8], bytes: &[u8]) -> Result<(), Fail> {
    let name = Text::new(alloc, name)?;
    let bytes = Bytes::new(alloc, bytes)?;
    site.put(name, bytes)?;
    Ok(())
}

// A loop that owns nothing, so that an early end drops nothing.
fn put_files(alloc: Global, site: &mut MapSite) -> Result<(), Fail> {
    for &(name, bytes) in OLD_FILES.iter() {
        put_in(alloc, site, name, bytes)?;
    }
    Ok(())
}

/// The folder `old` of three runs, which fails at these reads.
pub fn site_of(alloc: Global, fails: &[u64]) -> Result<MapSite, Fail> {
    let mut site = MapSite::new(alloc, fails.to_vec(alloc)?);
    put_files(alloc, &mut site)?;
    Ok(site)
}

/// Calls the program over these files.
pub fn call_at<R: Threads + Wait + Sync + AllocGlobal>(
    rt: &R,
    words: &[&str],
    shelf: &mut MemShelf,
    site: &mut MapSite,
) -> Result<CallOutcome, Fail> {
    let alloc = rt.alloc();
    let mut spawner = PlanSpawner::new(alloc, Vec::new(alloc), Vec::new(alloc));
    call_with(rt, words, shelf, &mut spawner, site, &[])
}

/// Whether the program tells this over these files.
pub fn tells_at<R: Threads + Wait + Sync + AllocGlobal>(
    rt: &R,
    words: &[&str],
    shelf: &mut MemShelf,
    site: &mut MapSite,
    wanted: (u8, &[u8], &[u8]),
) -> Result<bool, Fail> {
    let (status, out, err) = wanted;
    Ok(call_at(rt, words, shelf, site)?.is(status, out, err))
}

/// Whether the folder `old` becomes a repository here.
pub fn upgrades_from<R: Threads + Wait + Sync + AllocGlobal>(
    rt: &R,
    shelf: &mut MemShelf,
) -> Result<bool, Fail> {
    let mut site = site_of(rt.alloc(), &[])?;
    tells_at(rt, FROM_OLD, shelf, &mut site, UPGRADED)
}

/// Whether the copies of that folder are here, and what an upgrade makes of them.
pub fn is_upgraded(shelf: &mut MemShelf) -> Result<bool, Fail> {
    Ok(
        has_file(shelf, "next-stream", b"3\n")?
            && has_file(shelf, "0", FAIL)?
            && has_file(shelf, "failing", FAIL)?
            && has_file(shelf, "2", FOO)?
            && has_file(shelf, "format", b"subunit-store 2\n")?
            && has_file(shelf, "base.set", b"subunit-base 1\n3\nfoo\0")?
            && has_file(shelf, "0.part", FAIL)?
            && has_file(shelf, "1.part", NOTHING)?
            && has_file(shelf, "2.part", FOO)?,
    )
}
