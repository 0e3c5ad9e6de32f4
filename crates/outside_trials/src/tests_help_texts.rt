// Which words ask for help, and which name the folder to work in, or the file of the output.

use help_texts::{Aimed, Parted, help_of_testr, take_folder_words, take_output_words};
use std::alloc::Global;
use std::io;
use std::process::Abort;
use std::test::Fail;

fn add_words(alloc: Global, list: &mut Vec<String>, words: &[&str]) -> io::Result<()> {
    for word in words {
        list.push(String::from_str(alloc, word)?)?;
    }
    Ok(())
}

fn has_help(rt: &HostRuntime, words: &[&str]) -> io::Result<bool> {
    let mut list = Vec::new(rt.alloc());
    add_words(rt.alloc(), &mut list, words)?;
    Ok(help_of_testr(&list).is_some())
}

const COMMANDS: [&str; 9] = [
    "init",
    "load",
    "run",
    "list-tests",
    "last",
    "failing",
    "slowest",
    "stats",
    "selftest",
];

fn check_command(rt: &impl Abort, host: &HostRuntime, word: &str) -> io::Result<()> {
    assert!(rt; has_help(host, &["testr", word, "--help"])?);
    assert!(rt; !has_help(host, &["testr", word])?);
    assert!(rt; !has_help(host, &["testr", word, "--help", "--help"])?);
    Ok(())
}

fn check_testr(rt: &impl Abort, host: &HostRuntime) -> io::Result<()> {
    assert!(rt; has_help(host, &["testr", "--help"])?);
    assert!(rt; has_help(host, &["testr", "--version"])?);
    assert!(rt; !has_help(host, &["testr"])?);
    assert!(rt; !has_help(host, &["testr", "other", "--help"])?);
    assert!(rt; has_help(host, &["stestr", "--help"])?);
    assert!(rt; has_help(host, &["stestr", "run", "--help"])?);
    assert!(rt; has_help(host, &["stestr", "list", "--help"])?);
    assert!(rt; !has_help(host, &["testr", "list", "--help"])?);
    Ok(())
}

#[test]
fn help_is_for_its_words_alone(rt: HostRuntime) -> Result<(), Fail> {
    for word in &COMMANDS {
        check_command(&rt, &rt, word)?;
    }
    check_testr(&rt, &rt)?;
    Ok(())
}

const FILTERS: [&str; 12] = [
    "subunit-filter",
    "subunit-tags",
    "subunit-ls",
    "subunit-stats",
    "tap2subunit",
    "subunit2tap",
    "subunit2csv",
    "subunit2junitxml",
    "subunit-trace",
    "subunit-output",
    "subunit-1to2",
    "subunit-2to1",
];

fn check_filter(rt: &impl Abort, host: &HostRuntime, name: &str) -> io::Result<()> {
    assert!(rt; has_help(host, &[name, "--help"])?);
    assert!(rt; !has_help(host, &[name])?);
    assert!(rt; !has_help(host, &[name, "--help", "--help"])?);
    assert!(rt; !has_help(host, &[name, "--version"])?);
    assert!(rt; has_help(host, &[name, "-h"])? == (name != "subunit-tags"));
    Ok(())
}

#[test]
fn each_filter_has_help(rt: HostRuntime) -> Result<(), Fail> {
    for name in &FILTERS {
        check_filter(&rt, &rt, name)?;
    }
    assert!(rt; !has_help(&rt, &["subunit-rm", "--help"])?);
    Ok(())
}

// Words, those of them that are handed on, and the folder that they name.
const PARTED: [(&[&str], &[&str], Option<&str>); 11] = [
    (&[], &[], None),
    (&["testr", "last"], &["testr", "last"], None),
    (&["testr", "-d", "x", "last"], &["testr", "last"], Some("x")),
    (
        &["testr", "run", "a", "-d", "x y"],
        &["testr", "run", "a"],
        Some("x y"),
    ),
    (
        &["testr", "-d", "x", "run", "-d", "y"],
        &["testr", "run"],
        Some("y"),
    ),
    (&["testr", "-d", "-d", "run"], &["testr", "run"], Some("-d")),
    (
        &["testr", "-d", "--", "run", "-d"],
        &["testr", "run", "-d"],
        Some("--"),
    ),
    (
        &["testr", "run", "--", "-d", "x"],
        &["testr", "run", "--", "-d", "x"],
        None,
    ),
    (
        &["stestr", "-d", "x", "list"],
        &["stestr", "list"],
        Some("x"),
    ),
    (&["testr", "-d=x", "-dx"], &["testr", "-d=x", "-dx"], None),
    (
        &["subunit-tags", "-d", "x"],
        &["subunit-tags", "-d", "x"],
        None,
    ),
];

fn are_words(words: &[String], wanted: &[&str]) -> bool {
    words.len() == wanted.len()
        && words
            .iter()
            .zip(wanted.iter())
            .all(|(word, other)| word.as_str() == *other)
}

fn is_value(value: &Option<String>, wanted: Option<&str>) -> bool {
    match (value, wanted) {
        (Some(value), Some(wanted)) => value.as_str() == wanted,
        (None, None) => true,
        _ => false,
    }
}

fn parted(rt: &HostRuntime, words: &[&str]) -> io::Result<Parted> {
    let mut list = Vec::new(rt.alloc());
    add_words(rt.alloc(), &mut list, words)?;
    Ok(take_folder_words(rt.alloc(), &list)?)
}

#[test]
fn a_folder_is_taken_out_of_the_words_of_testr(rt: HostRuntime) -> Result<(), Fail> {
    for row in &PARTED {
        let found = parted(&rt, row.0)?;
        assert!(rt; are_words(&found.words, row.1));
        assert!(rt; is_value(&found.folder, row.2));
    }
    Ok(())
}

// Words, those of them that are handed on, and the file that they name.
const AIMED: [(&[&str], &[&str], Option<&str>); 12] = [
    (&[], &[], None),
    (&["subunit-ls"], &["subunit-ls"], None),
    (
        &["subunit-ls", "-o", "x", "log"],
        &["subunit-ls", "log"],
        Some("x"),
    ),
    (&["subunit2csv", "-ox y"], &["subunit2csv"], Some("x y")),
    (
        &["subunit2junitxml", "log", "--output-to=x"],
        &["subunit2junitxml", "log"],
        Some("x"),
    ),
    (
        &["subunit-filter", "--output-to", "-o"],
        &["subunit-filter"],
        Some("-o"),
    ),
    (
        &["subunit-filter", "-o", "x", "--output-to=", "-s"],
        &["subunit-filter", "-s"],
        Some(""),
    ),
    (&["subunit-stats", "-o"], &["subunit-stats", "-o"], None),
    (
        &["subunit-trace", "-o", "x", "--output-to"],
        &["subunit-trace", "--output-to"],
        Some("x"),
    ),
    (
        &["subunit-tags", "-o", "x"],
        &["subunit-tags", "-o", "x"],
        None,
    ),
    (
        &["subunit-output", "--output-to=x"],
        &["subunit-output", "--output-to=x"],
        None,
    ),
    (
        &["testr", "last", "-o", "x"],
        &["testr", "last", "-o", "x"],
        None,
    ),
];

fn aimed(rt: &HostRuntime, words: &[&str]) -> io::Result<Aimed> {
    let mut list = Vec::new(rt.alloc());
    add_words(rt.alloc(), &mut list, words)?;
    Ok(take_output_words(rt.alloc(), &list)?)
}

#[test]
fn the_file_of_the_output_is_taken_out_of_the_words_of_a_filter(
    rt: HostRuntime,
) -> Result<(), Fail> {
    for row in &AIMED {
        let found = aimed(&rt, row.0)?;
        assert!(rt; are_words(&found.words, row.1));
        assert!(rt; is_value(&found.file, row.2));
    }
    Ok(())
}
