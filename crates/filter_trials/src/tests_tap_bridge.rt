//! Lines as events, and rows as lines.

use outcome_fold::{Ended, Row};
use packet_codec::{Event, FilePart, Status, Tags};
use std::alloc::Global;
use std::process::Abort;
use sub_number::{Bytes, Text};
use tap_bridge::{TapReader, TapWriter};

fn word(status: Status) -> &'static [u8] {
    match status {
        Status::Unset => b"unset",
        Status::Exists => b"exists",
        Status::InProgress => b"inprogress",
        Status::Success => b"success",
        Status::UxSuccess => b"uxsuccess",
        Status::Skip => b"skip",
        Status::Fail => b"fail",
        Status::XFail => b"xfail",
    }
}

// The id behind a blank.
fn show_id(id: &Text, text: &mut Vec<u8>) -> Option<()> {
    text.push(b' ').ok()?;
    text.extend_from_slice(id.bytes()).ok()
}

// The file behind a `<`.
fn show_file(file: &FilePart, text: &mut Vec<u8>) -> Option<()> {
    text.extend_from_slice(b" <").ok()?;
    text.extend_from_slice(file.name.bytes()).ok()?;
    text.push(b':').ok()?;
    text.extend_from_slice(file.bytes.bytes()).ok()
}

// The event as a line: its status, its id, and its file.
fn show(event: &Event, text: &mut Vec<u8>) -> Option<()> {
    text.extend_from_slice(word(event.status)).ok()?;
    if let Some(id) = &event.id {
        show_id(id, text)?;
    }
    if let Some(file) = &event.file {
        show_file(file, text)?;
    }
    text.push(b'\n').ok()
}

fn show_all(events: &[Event], text: &mut Vec<u8>) -> Option<()> {
    for event in events {
        show(event, text)?;
    }
    Some(())
}

// Appends the events of a line.
fn hear(reader: &mut TapReader, line: &[u8], text: &mut Vec<u8>) -> Option<()> {
    if line.len() > 65_536 {
        return None;
    }
    show_all(&reader.line(line).ok()?, text)
}

// The same of lines, which have a newline between each two.
fn hear_all(reader: &mut TapReader, lines: &[u8], text: &mut Vec<u8>) -> Option<()> {
    for line in lines.split(|byte| *byte == b'\n') {
        hear(reader, line, text)?;
    }
    Some(())
}

// Appends the events that the end of the lines gives.
fn end(reader: TapReader, text: &mut Vec<u8>) -> Option<()> {
    show_all(&reader.close().ok()?, text)
}

fn show_lines(alloc: Global, lines: &[u8], text: &mut Vec<u8>) -> Option<()> {
    let mut reader = TapReader::new(alloc);
    hear_all(&mut reader, lines, text)?;
    end(reader, text)
}

// The events of these lines.
fn shown(alloc: Global, lines: &[u8]) -> Option<Vec<u8>> {
    let mut text = Vec::new(alloc);
    show_lines(alloc, lines, &mut text)?;
    Some(text)
}

fn gives(alloc: Global, lines: &[u8], text: &[u8]) -> bool {
    match shown(alloc, lines) {
        Some(shown) => shown.as_slice() == text,
        None => false,
    }
}

// Lines, and their events.
type Told = (&'static [u8], &'static [u8]);

fn gives_each<R: AllocGlobal + Abort>(rt: &R, told: &[Told]) {
    for (row, (lines, text)) in told.iter().enumerate() {
        assert!(rt; gives(rt.alloc(), lines, text), "row {row}");
    }
}

const MISSING: &[u8] =
    b"success test 1 - first\nfail test 2 <tap meta:test missing from TAP output\nxfail test 3 third <tap comment:later\n\n";

const LINES: [Told; 4] = [
    (b"1..3\nok 1 - first\nnot ok 3 third # TODO later", MISSING),
    (
        b"1..2\nok",
        b"success test 1\nfail test 2 <tap meta:test missing from TAP output\n",
    ),
    (b"1..0 # skip none", b"skip file skip\n"),
    (b"Bail out! disk full \t", b"fail Bail out! disk full\n"),
];

#[test]
fn lines_give_events(rt: HostRuntime) {
    gives_each(&rt, &LINES);
}

const CARRIAGE_RETURNS: [Told; 4] = [
    (
        b"1..1\r\nok 1 - a\r\n# why\r",
        b"success test 1 - a <tap comment:# why\n\n",
    ),
    (b"\r", b"unset <stdout:\n\n"),
    (b"a\r\r", b"unset <stdout:a\r\n\n"),
    (b"Bail out!\r", b"fail Bail out!\n"),
];

#[test]
fn a_carriage_return_ends_no_line_but_is_none_of_it(rt: HostRuntime) {
    gives_each(&rt, &CARRIAGE_RETURNS);
}

const DIRECTIVES: [Told; 8] = [
    (b"ok 1 a # SKIP", b"skip test 1 a\n"),
    (
        b"ok # skip  no disk ",
        b"skip test 1 <tap comment:no disk\n\n",
    ),
    (b"not ok 1 #\tSkIp", b"skip test 1\n"),
    (b"not ok a # todo", b"xfail test 1 a\n"),
    (
        b"ok 1 # Todo: soon",
        b"xfail test 1 <tap comment:: soon\n\n",
    ),
    (b"ok # SKIPPED now", b"skip test 1 <tap comment:PED now\n\n"),
    (
        b"ok a #SKIP # x # TODO y",
        b"xfail test 1 a #SKIP # x <tap comment:y\n\n",
    ),
    (b"ok\t# SKIP", b"success test 1 # SKIP\n"),
];

#[test]
fn directives_stand_in_each_case_of_letters(rt: HostRuntime) {
    gives_each(&rt, &DIRECTIVES);
}

const JUMPED: &[u8] =
    b"fail test 1 <tap meta:test missing from TAP output\nsuccess test 2\nsuccess test 3\nsuccess test 2\nfail test 4\n";

const NUMBERS: [Told; 4] = [
    (b"ok 2\nok\nok 2\nnot ok", JUMPED),
    (
        b"ok 0\nok 1000001\nok 12345678",
        b"unset <stdout:ok 0\n\nunset <stdout:ok 1000001\n\nunset <stdout:ok 12345678\n\n",
    ),
    (b"ok 0000001 a", b"success test 1 a\n"),
    (
        b"ok 1a\nok1\nnot  ok",
        b"unset <stdout:ok1\n\nunset <stdout:not  ok\n\nsuccess test 1 1a\n",
    ),
];

#[test]
fn numbers_jump_repeat_and_are_missing(rt: HostRuntime) {
    gives_each(&rt, &NUMBERS);
}

const BEHIND: &[u8] =
    b"success test 1\nsuccess test 2\nfail test 3 <tap meta:test missing from TAP output\n";

const PLANS: [Told; 4] = [
    (b"ok\nok\n1..3", BEHIND),
    (b"1..9\nok\n1..0\n1..1", b"success test 1\n"),
    (
        b"1..0 # SKIP\n1..0\n1..2 # skip\nok 2",
        b"skip file skip\nfail test 1 <tap meta:test missing from TAP output\nsuccess test 2\n",
    ),
    (
        b"1..1x\n1..1 # no\n1..1000001",
        b"unset <stdout:1..1x\n\nunset <stdout:1..1 # no\n\nunset <stdout:1..1000001\n\n",
    ),
];

#[test]
fn the_last_plan_stands_wherever_it_does(rt: HostRuntime) {
    gives_each(&rt, &PLANS);
}

const COMMENTS: [Told; 1] = [(
    b"# early\nnot ok 1 # TODO x\n# one\nmore\n#two\nok\n1..2\n# late",
    b"unset <stdout:# early\n\nunset <stdout:more\n\nxfail test 1 <tap comment:x\n# one\n#two\n\nsuccess test 2\nunset <stdout:# late\n\n",
)];

#[test]
fn comments_belong_to_the_test_before_them(rt: HostRuntime) {
    gives_each(&rt, &COMMENTS);
}

// The runs of the specification of the protocol.

const TODO: &[u8] =
    b"1..4\nok 1 - Input file opened\nnot ok 2 - First line of the input valid\nok 3 - Read the rest of the file\nnot ok 4 - Summarized correctly # TODO Not written yet";

const TODO_EVENTS: &[u8] =
    b"success test 1 - Input file opened\nfail test 2 - First line of the input valid\nsuccess test 3 - Read the rest of the file\nxfail test 4 - Summarized correctly <tap comment:Not written yet\n\n";

const SKIPPING: &[u8] =
    b"1..3\nok 1 - approved operating system\n# $^0 is solaris\nok 2 - # SKIP no /sys directory\nok 3 - # SKIP no /sys directory";

const SKIPPING_EVENTS: &[u8] =
    b"success test 1 - approved operating system <tap comment:# $^0 is solaris\n\nskip test 2 - <tap comment:no /sys directory\n\nskip test 3 - <tap comment:no /sys directory\n\n";

const GIVING_UP: &[u8] =
    b"1..3\nnot ok 1 - database handle\nBail out! Couldn't connect to database.";

const GIVING_UP_EVENTS: &[u8] =
    b"fail test 1 - database handle\nfail Bail out! Couldn't connect to database.\nfail test 2 <tap meta:test missing from TAP output\nfail test 3 <tap meta:test missing from TAP output\n";

const SPECIFIED: [Told; 3] = [
    (TODO, TODO_EVENTS),
    (SKIPPING, SKIPPING_EVENTS),
    (GIVING_UP, GIVING_UP_EVENTS),
];

#[test]
fn runs_of_the_specification_give_events(rt: HostRuntime) {
    gives_each(&rt, &SPECIFIED);
}

const NO_TEXTS: [Told; 2] = [
    (
        b"ok a\xFFb\0c\xE2\x82 # SKIP \xFF",
        b"skip test 1 a\xEF\xBF\xBDb\xEF\xBF\xBDc\xEF\xBF\xBD <tap comment:\xFF\n\n",
    ),
    (b"\xFF\0", b"unset <stdout:\xFF\0\n\n"),
];

#[test]
fn ids_alone_are_made_texts(rt: HostRuntime) {
    gives_each(&rt, &NO_TEXTS);
}

// How many bytes the file of an event has; none where there is no file.
fn size_of_file(event: &Event) -> usize {
    match &event.file {
        Some(file) => file.bytes.bytes().len(),
        None => 0,
    }
}

fn has_type(event: &Event, mime: &[u8]) -> bool {
    match &event.mime {
        Some(text) => text.bytes() == mime,
        None => false,
    }
}

// Takes a line, whatever it gives.
fn take(reader: &mut TapReader, line: &[u8]) -> Option<()> {
    if line.len() > 65_536 {
        return None;
    }
    reader.line(line).ok()?;
    Some(())
}

// How many bytes the file of the first event of a line has.
fn size_of_first(reader: &mut TapReader, line: &[u8]) -> Option<usize> {
    if line.len() > 65_536 {
        return None;
    }
    let events = reader.line(line).ok()?;
    Some(size_of_file(events.first()?))
}

// How many bytes the file of a longest line has that is no comment of a test. Two more are comments of one.
fn hear_longest(reader: &mut TapReader, line: &[u8]) -> Option<usize> {
    let size = size_of_first(reader, line)?;
    take(reader, b"ok")?;
    take(reader, line)?;
    take(reader, line)?;
    Some(size)
}

// Whether the first event is one of a test with a text of 65,536 bytes.
fn has_longest_text(events: &[Event]) -> bool {
    match events.first() {
        Some(test) => size_of_file(test) == 65_536
            && has_type(test, b"text/plain; charset=UTF8")
            && test.runnable
            && !test.eof,
        None => false,
    }
}

fn ends_with_longest_text(reader: TapReader) -> Option<bool> {
    Some(has_longest_text(&reader.close().ok()?))
}

fn longest_are_kept(alloc: Global, line: &[u8]) -> Option<bool> {
    let mut reader = TapReader::new(alloc);
    let size = hear_longest(&mut reader, line)?;
    Some(size == 65_537 && ends_with_longest_text(reader)?)
}

fn longest_lines(alloc: Global) -> Option<bool> {
    let line = vec![in alloc; b'#'; 65_536].ok()?;
    longest_are_kept(alloc, &line)
}

#[test]
fn a_comment_keeps_its_first_bytes(rt: HostRuntime) {
    assert_eq!(rt; longest_lines(rt.alloc()), Some(true));
}

// Appends the events of a line, by a reader that is asked first whether it is a comment of the waiting test, and else gives
// into a list that is kept.
fn hear_kept(
    reader: &mut TapReader,
    line: &[u8],
    events: &mut Vec<Event>,
    text: &mut Vec<u8>,
) -> Option<()> {
    if line.len() > 65_536 {
        return None;
    }
    if !reader.comment(line).ok()? {
        events.clear();
        reader.line_into(line, events).ok()?;
        show_all(events, text)?;
    }
    Some(())
}

fn hear_all_kept(
    reader: &mut TapReader,
    lines: &[u8],
    events: &mut Vec<Event>,
    text: &mut Vec<u8>,
) -> Option<()> {
    for line in lines.split(|byte| *byte == b'\n') {
        hear_kept(reader, line, events, text)?;
    }
    Some(())
}

fn show_lines_kept(
    alloc: Global,
    lines: &[u8],
    events: &mut Vec<Event>,
    text: &mut Vec<u8>,
) -> Option<()> {
    let mut reader = TapReader::new(alloc);
    hear_all_kept(&mut reader, lines, events, text)?;
    end(reader, text)
}

// The events of these lines, by such a reader.
fn shown_kept(alloc: Global, lines: &[u8]) -> Option<Vec<u8>> {
    let mut text = Vec::new(alloc);
    let mut events = Vec::new(alloc);
    show_lines_kept(alloc, lines, &mut events, &mut text)?;
    Some(text)
}

// Whether the lines give these events both ways.
fn gives_both(alloc: Global, lines: &[u8], text: &[u8]) -> bool {
    match shown_kept(alloc, lines) {
        Some(shown) => shown.as_slice() == text && gives(alloc, lines, text),
        None => false,
    }
}

const BLOCK: &[u8] =
    b"1..2\nnot ok 1 - a\n# ---\n# at: b\r\n#\n#\r\n# ...\nok 2\n  ---\n  at: c\n# d";

const BLOCK_EVENTS: &[u8] =
    b"fail test 1 - a <tap comment:# ---\n# at: b\n#\n#\n# ...\n\nunset <stdout:  ---\n\nunset <stdout:  at: c\n\nsuccess test 2 <tap comment:# d\n\n";

const ON_THEIR_OWN: [Told; 3] = [
    (BLOCK, BLOCK_EVENTS),
    (
        b"# early\nok # SKIP x\n# one\nmore\n # no\n#two",
        b"unset <stdout:# early\n\nunset <stdout:more\n\nunset <stdout: # no\n\nskip test 1 <tap comment:x\n# one\n#two\n\n",
    ),
    (
        b"ok\n1..1\n# late\nBail out!\n# later",
        b"success test 1\nunset <stdout:# late\n\nfail Bail out!\nunset <stdout:# later\n\n",
    ),
];

#[test]
fn comments_are_taken_on_their_own(rt: HostRuntime) {
    for (row, (lines, text)) in ON_THEIR_OWN.iter().enumerate() {
        assert!(rt; gives_both(rt.alloc(), lines, text), "row {row}");
    }
}

// Takes a line as a comment of the waiting test, by either call.
fn add(reader: &mut TapReader, line: &[u8], on_its_own: bool) -> Option<()> {
    if !on_its_own {
        return take(reader, line);
    }
    if line.len() > 65_536 || !reader.comment(line).ok()? {
        return None;
    }
    Some(())
}

// A test, and its comment of three such lines.
fn add_three(reader: &mut TapReader, line: &[u8], on_its_own: bool) -> Option<()> {
    take(reader, b"ok")?;
    for _ in 0..3 {
        add(reader, line, on_its_own)?;
    }
    Some(())
}

fn copy_file(event: &Event, text: &mut Vec<u8>) -> Option<()> {
    if let Some(file) = &event.file {
        text.extend_from_slice(file.bytes.bytes()).ok()?;
    }
    Some(())
}

// Appends the file of the first event that the end of the lines gives.
fn end_with_file(reader: TapReader, text: &mut Vec<u8>) -> Option<()> {
    let events = reader.close().ok()?;
    copy_file(events.first()?, text)
}

fn keep_three(alloc: Global, line: &[u8], on_its_own: bool, text: &mut Vec<u8>) -> Option<()> {
    let mut reader = TapReader::new(alloc);
    add_three(&mut reader, line, on_its_own)?;
    end_with_file(reader, text)
}

// What is kept of a test's comment of three such lines.
fn kept_of(alloc: Global, line: &[u8], on_its_own: bool) -> Option<Vec<u8>> {
    let mut text = Vec::new(alloc);
    keep_three(alloc, line, on_its_own, &mut text)?;
    Some(text)
}

fn push_three(whole: &mut Vec<u8>, line: &[u8]) -> Option<()> {
    for _ in 0..3 {
        whole.extend_from_slice(line).ok()?;
        whole.push(b'\n').ok()?;
    }
    Some(())
}

// The first bytes of three such lines.
fn first_bytes(alloc: Global, line: &[u8]) -> Option<Vec<u8>> {
    let mut whole = Vec::new(alloc);
    push_three(&mut whole, line)?;
    whole.truncate(65_536);
    Some(whole)
}

fn keeps(alloc: Global, line: &[u8], on_its_own: bool, wanted: &[u8]) -> Option<bool> {
    Some(kept_of(alloc, line, on_its_own)?.as_slice() == wanted)
}

fn keeps_both(alloc: Global, line: &[u8]) -> Option<bool> {
    let whole = first_bytes(alloc, line)?;
    Some(keeps(alloc, line, true, &whole)? && keeps(alloc, line, false, &whole)?)
}

// The first bytes of three such lines are kept, both ways.
fn keeps_first_bytes(alloc: Global) -> Option<bool> {
    let line = vec![in alloc; b'#'; 30_000].ok()?;
    keeps_both(alloc, &line)
}

#[test]
fn a_comment_taken_on_its_own_keeps_its_first_bytes(rt: HostRuntime) {
    assert_eq!(rt; keeps_first_bytes(rt.alloc()), Some(true));
}

fn row(alloc: Global, id: &[u8], ended: Ended) -> Option<Row> {
    let id = Text::new(alloc, id).ok()?;
    Some(Row {
        id,
        route: None,
        ended,
        tags: Tags::new(alloc),
        nanos: None,
        text: Bytes::from_vec(Vec::new(alloc)),
        reason: Bytes::from_vec(Vec::new(alloc)),
    })
}

// A row, told by its id and by how its test ended.
type Part = (&'static [u8], Ended);

fn write_row(alloc: Global, writer: &mut TapWriter, part: &Part, out: &mut Vec<u8>) -> Option<()> {
    let row = row(alloc, part.0, part.1)?;
    writer.row(&row, out).ok()
}

fn write_all(alloc: Global, parts: &[Part], out: &mut Vec<u8>) -> Option<()> {
    let mut writer = TapWriter::new();
    for part in parts {
        write_row(alloc, &mut writer, part, out)?;
    }
    writer.close(out).ok()
}

fn written(alloc: Global, parts: &[Part]) -> Option<Vec<u8>> {
    let mut out = Vec::new(alloc);
    write_all(alloc, parts, &mut out)?;
    Some(out)
}

fn writes(alloc: Global, parts: &[Part], text: &[u8]) -> bool {
    match written(alloc, parts) {
        Some(out) => out.as_slice() == text,
        None => false,
    }
}

const THREE: [Part; 3] = [
    (b"test 1 - first", Ended::Success),
    (b"test 2", Ended::Fail),
    (b"test 3 third", Ended::XFail),
];

const KINDS: [Part; 7] = [
    (b"a", Ended::Success),
    (b"z", Ended::Exists),
    (b"b", Ended::UxSuccess),
    (b"c", Ended::Skip),
    (b"d", Ended::Fail),
    (b"e", Ended::XFail),
    (b"f", Ended::Open),
];

const HIDDEN: [Part; 1] = [(b"a\nb#\tc\x7F", Ended::Success)];

const WRITTEN: [(&[Part], &[u8]); 4] = [
    (
        &THREE,
        b"ok 1 test 1 - first\nnot ok 2 test 2\nnot ok 3 test 3 third # TODO\n1..3\n",
    ),
    (
        &KINDS,
        b"ok 1 a\nnot ok 2 b\nok 3 c # SKIP\nnot ok 4 d\nnot ok 5 e # TODO\nnot ok 6 f\n1..6\n",
    ),
    (&HIDDEN, b"ok 1 a?b??c\x7F\n1..1\n"),
    (&[], b"1..0\n"),
];

#[test]
fn rows_are_written_as_lines(rt: HostRuntime) {
    for (row, (parts, text)) in WRITTEN.iter().enumerate() {
        assert!(rt; writes(rt.alloc(), parts, text), "row {row}");
    }
}
