//! Files of `testr run` and `testr list-tests` that are too long, or are not there.

use crate::contents::filled;
use std::alloc::Global;
use std::test::Fail;
use trial_calls::{NamedFiles, Scene, play};

const CONF: &[u8] =
    b"[DEFAULT]\ntest_command=run $LISTOPT\ntest_list_option=--list\ntest_run_concurrency=\n";

// The most bytes that such a file may have.
const MOST: usize = 16_777_216;

// Nothing is started, and nothing fails.
const BARE: Scene<'static> = Scene {
    words: &["testr", "run"],
    files: &[],
    runs: &[(b"format", b"subunit-store 1\n")],
    outputs: &[],
    reads: &[],
    calls: &[],
    starts: &[],
    writes: &[],
};

const LIST_TESTS: &[&str] = &["testr", "list-tests"];

#[test]
fn a_configuration_that_is_not_there_is_told(rt: HostRuntime) -> Result<(), Fail> {
    let line = b"testr: no .testr.conf or .stestr.conf\n";
    assert!(rt; play(&rt, &BARE)?.refuses(0, 3, line));
    assert!(rt;
        play(
            &rt,
            &Scene {
                words: LIST_TESTS,
                ..BARE
            }
        )?
        .refuses(0, 3, line)
    );
    Ok(())
}

#[test]
fn a_configuration_has_so_many_bytes_at_most(rt: HostRuntime) -> Result<(), Fail> {
    let bytes = filled(rt.alloc(), b'\n', MOST + 1)?;
    let long: NamedFiles<'_> = &[(b".testr.conf", &bytes)];
    let line = b"testr: .testr.conf is too long\n";
    assert!(rt;
        play(
            &rt,
            &Scene {
                files: long,
                ..BARE
            }
        )?
        .refuses(0, 3, line)
    );
    let scene = Scene {
        words: LIST_TESTS,
        files: long,
        ..BARE
    };
    assert!(rt; play(&rt, &scene)?.refuses(0, 3, line));
    Ok(())
}

#[test]
fn a_list_and_a_table_have_so_many_bytes_at_most(rt: HostRuntime) -> Result<(), Fail> {
    let bytes = filled(rt.alloc(), b'\n', MOST + 1)?;
    let list: NamedFiles<'_> = &[(b".testr.conf", CONF), (b"l", &bytes)];
    let words = ["testr", "run", "--load-list=l"];
    let scene = Scene {
        words: &words,
        files: list,
        ..BARE
    };
    assert!(rt; play(&rt, &scene)?.refuses(0, 3, b"testr: l is too long\n"));
    let table: NamedFiles<'_> = &[(b".testr.conf", CONF), (b"/proc/cpuinfo", &bytes)];
    let words = ["testr", "run", "--parallel"];
    let scene = Scene {
        words: &words,
        files: table,
        ..BARE
    };
    assert!(rt; play(&rt, &scene)?.refuses(0, 3, b"testr: /proc/cpuinfo is too long\n"));
    Ok(())
}

// An id of so many bytes.
fn id_of(alloc: Global, size: usize) -> Result<Vec<u8>, Fail> {
    let mut bytes = Vec::new(alloc);
    bytes.resize(size, b'a')?;
    Ok(bytes)
}

#[test]
fn an_id_has_so_many_bytes_at_most(rt: HostRuntime) -> Result<(), Fail> {
    let id = id_of(rt.alloc(), 65_537)?;
    let words = ["testr", "run", "--load-list=l"];
    let scene = Scene {
        words: &words,
        files: &[(b".testr.conf", CONF), (b"l", &id)],
        ..BARE
    };
    let line = b"testr: an id has more than 65536 bytes\n";
    assert!(rt; play(&rt, &scene)?.refuses(0, 3, line));
    Ok(())
}
