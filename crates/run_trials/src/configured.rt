//! The project that most tests of a run are made with.

use edge_io::{Finish, MapSite};
use std::alloc::Global;
use std::test::Fail;
use sub_number::{Bytes, Text};
use trial_calls::{NOTHING, NamedFiles, Project, project_with};

/// A configuration whose tests can be listed.
pub const CONF: &[u8] = b"[DEFAULT]\ntest_command=run $LISTOPT\ntest_list_option=--list\n";

/// The job of its listing.
pub const LISTED: [&[u8]; 3] = [b"run --list", NOTHING, NOTHING];

/// A program that ends well.
pub const ENDED: Finish = Finish::Exit(0);

/// A project of this configuration and one file more, whose programs start and give these outputs in this order.
pub fn project_beside(
    alloc: Global,
    conf: &[u8],
    outputs: &[(&[u8], Finish)],
    name: &[u8],
    bytes: &[u8],
) -> Result<Project, Fail> {
    let files = [(b".testr.conf".as_slice(), conf), (name, bytes)];
    project_with(alloc, &files, outputs, &[], &[])
}

fn put_at(alloc: Global, site: &mut MapSite, name: &[u8], bytes: &[u8]) -> Result<(), Fail> {
    let name = Text::new(alloc, name)?;
    let bytes = Bytes::new(alloc, bytes)?;
    site.put(name, bytes)?;
    Ok(())
}

// A loop that owns nothing, so that an early end drops nothing.
fn put_all(alloc: Global, site: &mut MapSite, files: NamedFiles<'_>) -> Result<(), Fail> {
    for (name, bytes) in files {
        put_at(alloc, site, name, bytes)?;
    }
    Ok(())
}

/// A site with these files.
pub fn site_with(alloc: Global, files: NamedFiles<'_>) -> Result<MapSite, Fail> {
    let mut site = MapSite::new(alloc, Vec::new(alloc));
    put_all(alloc, &mut site, files)?;
    Ok(site)
}
