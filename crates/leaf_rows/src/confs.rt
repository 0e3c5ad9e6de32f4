//! Configurations and their jobs, and lists of ids.
//!
//! The lines of a row are the lines of a file. A line has a newline behind it, but where it ends in `\e`.

ghost use Rattle.std.specs.Prelude.{◌≤◌, IfSome, length};

use crate::fields::{field, ids_of, text_in};
use crate::told::{put_line, put_texts, put_value};
use edge_io::Job;
use row_book::{bytes_of, put_all};
use std::alloc::Global;
use stestr_conf::{read_table, settings_of_values};
use sub_number::{IdList, Text};
use testr_conf::{Conf, JobFault, StestrValues, read_ids};

fn put_file_line(alloc: Global, line: &str, text: &mut Vec<u8>) -> Option<()> {
    text.extend_from_slice(&bytes_of(alloc, line)?).ok()?;
    if line.ends_with("\\e") {
        Some(())
    } else {
        text.push(b'\n').ok()
    }
}

fn put_file_lines(alloc: Global, lines: &[&str], text: &mut Vec<u8>) -> Option<()> {
    for line in lines {
        put_file_line(alloc, line, text)?;
    }
    Some(())
}

// The text of these lines, which is as short as the crates below ask for.
fn file_of(alloc: Global, lines: &[&str]) -> Option<Vec<u8>>
    ensures { IfSome result (λ text. length text.items ≤ 16777216) }
{
    let mut text = Vec::new(alloc);
    put_file_lines(alloc, lines, &mut text)?;
    if text.len() > 16_777_216 {
        return None;
    }
    Some(text)
}

// ---- jobs

/// Appends the command of the job, and the name and the lines of its file of ids, where it has one.
pub fn put_job(job: &Job, said: &mut Vec<u8>) -> Option<()> {
    put_line(job.command.bytes(), said)?;
    match &job.id_file {
        Some(file) => put_all(
            &[b"in ", file.name.bytes(), b":\n", file.bytes.bytes()],
            said,
        ),
        None => Some(()),
    }
}

fn put_made(alloc: Global, made: &Result<Job, JobFault>, said: &mut Vec<u8>) -> Option<()> {
    match made {
        Ok(job) => put_job(job, said),
        Err(fault) => put_value(alloc, fault, said),
    }
}

// The job of these ids on a lane, as `run_job=3:a,b` says, or of all tests.
fn put_run_job(alloc: Global, conf: &Conf, words: &str, said: &mut Vec<u8>) -> Option<()> {
    let Some((lane, ids)) = words.split_once(':') else {
        return put_made(alloc, &conf.run_job(alloc, None, 0), said);
    };
    let lane: u32 = lane.parse().ok()?;
    if lane >= 64 {
        return None;
    }
    let ids = ids_of(alloc, ids, ',')?;
    put_made(alloc, &conf.run_job(alloc, Some(&ids), lane), said)
}

fn put_wanted(job: Option<Job>, said: &mut Vec<u8>) -> Option<()> {
    match job {
        Some(job) => put_job(&job, said),
        None => put_line(b"none", said),
    }
}

// The job that provisions so many instances, as `provision_job=12` says.
fn put_provision_job(alloc: Global, conf: &Conf, words: &str, said: &mut Vec<u8>) -> Option<()> {
    let count: u32 = words.parse().ok()?;
    put_wanted(conf.provision_job(alloc, count).ok()?, said)
}

fn put_asks(conf: &Conf, said: &mut Vec<u8>) -> Option<()> {
    if conf.asks_instances() {
        put_line(b"yes", said)
    } else {
        put_line(b"no", said)
    }
}

fn put_pattern(pattern: Option<&Text>, said: &mut Vec<u8>) -> Option<()> {
    match pattern {
        Some(pattern) => put_line(pattern.bytes(), said),
        None => put_line(b"none", said),
    }
}

// ---- configurations

fn put_fact(alloc: Global, conf: &Conf, name: &str, words: &str, said: &mut Vec<u8>) -> Option<()> {
    match name {
        "list_job" => put_made(alloc, &conf.list_job(alloc), said),
        "run_job" => put_run_job(alloc, conf, words, said),
        "count_job" => put_wanted(conf.count_job(alloc).ok()?, said),
        "provision_job" => put_provision_job(alloc, conf, words, said),
        "dispose_job" => put_wanted(conf.dispose_job(alloc).ok()?, said),
        "asks_instances" => put_asks(conf, said),
        "group_regex" => put_pattern(conf.group_regex(), said),
        "filter_tags" => put_texts(conf.filter_tags().list(), said),
        _ => None,
    }
}

// A word that is no fact changes the configuration, and was read before.
fn put_word(alloc: Global, conf: &Conf, word: &str, said: &mut Vec<u8>) -> Option<()> {
    let (name, words) = word.split_once('=').unwrap_or((word, ""));
    match name {
        "stand_in" | "with_arguments" | "grouped_by" | "on_instances" | "test_path" | "top_dir" => {
            Some(())
        }
        _ => {
            put_all(&[name.as_bytes(), b" -> "], said)?;
            put_fact(alloc, conf, name, words, said)
        }
    }
}

fn put_words(alloc: Global, conf: &Conf, words: &str, said: &mut Vec<u8>) -> Option<()> {
    for word in words.split(' ') {
        put_word(alloc, conf, word, said)?;
    }
    Some(())
}

fn stand_in(alloc: Global, conf: Conf, words: &str) -> Option<Conf> {
    match text_in(alloc, words, "stand_in=")? {
        Some(folder) => Some(conf.place_in(folder.into_string())),
        None => Some(conf),
    }
}

fn with_arguments(alloc: Global, conf: Conf, words: &str) -> Option<Conf> {
    match field(words, "with_arguments=") {
        Some(list) => Some(conf.with_arguments(ids_of(alloc, list, ',')?)),
        None => Some(conf),
    }
}

fn grouped_by(alloc: Global, conf: Conf, words: &str) -> Option<Conf> {
    let pattern = text_in(alloc, words, "grouped_by=")?;
    Some(conf.grouped_by(pattern))
}

fn on_instances(alloc: Global, conf: Conf, words: &str) -> Option<Conf> {
    match field(words, "on_instances=") {
        Some(list) => Some(conf.on_instances(ids_of(alloc, list, ',')?)),
        None => Some(conf),
    }
}

fn changed(alloc: Global, conf: Conf, words: &str) -> Option<Conf> {
    let conf = stand_in(alloc, conf, words)?;
    let conf = on_instances(alloc, conf, words)?;
    let conf = with_arguments(alloc, conf, words)?;
    grouped_by(alloc, conf, words)
}

fn put_conf(alloc: Global, conf: Conf, words: &str, said: &mut Vec<u8>) -> Option<()> {
    let conf = changed(alloc, conf, words)?;
    put_words(alloc, &conf, words, said)
}

/// Answers what the configuration of these lines makes, as the words ask, or why it is refused.
pub fn answer_conf(alloc: Global, words: &str, lines: &[&str], said: &mut Vec<u8>) -> Option<()> {
    let text = file_of(alloc, lines)?;
    match Conf::read(alloc, &text) {
        Ok(conf) => put_conf(alloc, conf, words, said),
        Err(fault) => put_value(alloc, &fault, said),
    }
}

// ---- configurations of stestr

fn put_settled(
    alloc: Global,
    values: &StestrValues,
    words: &str,
    said: &mut Vec<u8>,
) -> Option<()> {
    let path = text_in(alloc, words, "test_path=")?;
    let dir = text_in(alloc, words, "top_dir=")?;
    match settings_of_values(alloc, path.as_ref(), dir.as_ref(), values) {
        Ok(conf) => put_conf(alloc, conf, words, said),
        Err(fault) => put_value(alloc, &fault, said),
    }
}

/// Answers the same of the lines of a `.stestr.conf`.
pub fn answer_stestr(alloc: Global, words: &str, lines: &[&str], said: &mut Vec<u8>) -> Option<()> {
    let text = file_of(alloc, lines)?;
    match StestrValues::read(alloc, &text) {
        Ok(values) => put_settled(alloc, &values, words, said),
        Err(fault) => put_value(alloc, &fault, said),
    }
}

/// Answers the same of the table in a `pyproject.toml`.
pub fn answer_pyproject(
    alloc: Global,
    words: &str,
    lines: &[&str],
    said: &mut Vec<u8>,
) -> Option<()> {
    let text = file_of(alloc, lines)?;
    match read_table(alloc, &text) {
        Ok(Some(values)) => put_settled(alloc, &values, words, said),
        Ok(None) => put_line(b"no table", said),
        Err(fault) => put_value(alloc, &fault, said),
    }
}

// ---- lists of ids

fn put_ids(ids: &IdList, said: &mut Vec<u8>) -> Option<()> {
    for id in ids.list() {
        put_line(id.bytes(), said)?;
    }
    Some(())
}

/// Answers the ids of a list, or why it is refused.
pub fn answer_id_list(alloc: Global, lines: &[&str], said: &mut Vec<u8>) -> Option<()> {
    let text = file_of(alloc, lines)?;
    match read_ids(alloc, &text) {
        Ok(ids) => put_ids(&ids, said),
        Err(fault) => put_value(alloc, &fault, said),
    }
}
