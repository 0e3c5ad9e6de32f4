//! Listings and called-out numbers, over children in memory.

ghost use Rattle.std.specs.Prelude.{◌≤◌, length};

use edge_io::{Finish, Plan, PlanSpawner};
use std::alloc::Global;
use sub_number::{Bytes, IdList, Text};
use suite_plan::{CallRefusal, ListingRefusal, first_of_each, list_tests, run_count_command};
use testr_conf::Conf;

const CONF: &[u8] =
    b"[DEFAULT]\ntest_command=run $LISTOPT\ntest_list_option=--list\ntest_run_concurrency=echo 3\n";

const NOT_LISTED: &[u8] = b"[DEFAULT]\ntest_command=run $LISTOPT\n";

const NOT_ASKED: &[u8] = b"[DEFAULT]\ntest_command=run\ntest_list_option=--list\n";

// The tests a, b and a once more are there, with foreign bytes between them.
const TWO: &[u8] =
    b"x\n\xb3\x29\x01\x0a\x01a\x77\xc8\x0f\x31yz\xb3\x29\x01\x0a\x01b\xee\xc1\x5e\x8b\xb3\x29\x01\x0a\x01a\x77\xc8\x0f\x31\n";

// c is running, c passed, a test without id is there, and a is there.
const OTHERS: &[u8] =
    b"\xb3\x29\x02\x0a\x01c\x8b\x73\xc1\xf3\xb3\x29\x03\x0a\x01c\x33\xcf\xa6\x96\xb3\x21\x01\x08\x00\xcc\xab\xcc\xb3\x29\x01\x0a\x01a\x77\xc8\x0f\x31";

// a is there, and the packet of b is cut at its end.
const CUT: &[u8] = b"\xb3\x29\x01\x0a\x01a\x77\xc8\x0f\x31\xb3\x29\x01\x0a\x01b\xee\xc1\x5e";

fn conf_of(alloc: Global, text: &[u8]) -> Option<Conf> {
    if text.len() > 16_777_216 {
        return None;
    }
    Conf::read(alloc, text).ok()
}

// A spawner of one child.
fn one_child(alloc: Global, output: &[u8], piece: usize, finish: Finish) -> Option<PlanSpawner> {
    if piece == 0 {
        return None;
    }
    let output = Bytes::new(alloc, output).ok()?;
    let mut plans = Vec::new(alloc);
    plans
        .push(Plan {
            output,
            piece,
            finish,
        })
        .ok()?;
    Some(PlanSpawner::new(alloc, plans, Vec::new(alloc)))
}

// Whether this command alone was started, without id file.
fn started(spawner: &PlanSpawner, command: &[u8]) -> bool {
    match spawner.started() {
        [job] => job.command.bytes() == command && job.id_file.is_none(),
        _ => false,
    }
}

// The ids, each with a space behind it.
fn spaced(alloc: Global, ids: &IdList) -> Option<Vec<u8>> {
    let mut text = Vec::new(alloc);
    for id in ids.list() {
        text.extend_from_slice(id.bytes()).ok()?;
        text.push(b' ').ok()?;
    }
    Some(text)
}

// Whether these are the ids that the child lists.
fn lists(alloc: Global, spawner: &mut PlanSpawner, wanted: &[u8]) -> Option<bool> {
    let conf = conf_of(alloc, CONF)?;
    let ids = list_tests(alloc, &conf, spawner).ok()?;
    let text = spaced(alloc, &ids)?;
    Some(text.as_slice() == wanted)
}

fn is_listed(alloc: Global, output: &[u8], piece: usize, wanted: &[u8]) -> Option<bool> {
    let mut spawner = one_child(alloc, output, piece, Finish::Exit(0))?;
    let same = lists(alloc, &mut spawner, wanted)?;
    Some(same && started(&spawner, b"run --list"))
}

// Why no tests are listed, or no number is told, without what is told of the child.
#[derive(Clone, Copy, Debug, PartialEq, Eq)]
enum Why {
    NoListOption,
    Spawn,
    Child,
    Failed(i32),
    NoNumber,
    NoMemory,
}

fn why_unlisted(refusal: &ListingRefusal) -> Why {
    match refusal {
        ListingRefusal::NoListOption => Why::NoListOption,
        ListingRefusal::Spawn => Why::Spawn,
        ListingRefusal::Child => Why::Child,
        ListingRefusal::Failed(status, _) => Why::Failed(*status),
        ListingRefusal::NoMemory => Why::NoMemory,
    }
}

fn why_uncalled(refusal: &CallRefusal) -> Why {
    match refusal {
        CallRefusal::Spawn => Why::Spawn,
        CallRefusal::Child => Why::Child,
        CallRefusal::NoNumber(_) => Why::NoNumber,
        CallRefusal::NoMemory => Why::NoMemory,
    }
}

fn refusal_of(alloc: Global, conf: &[u8], spawner: &mut PlanSpawner) -> Option<ListingRefusal> {
    let conf = conf_of(alloc, conf)?;
    list_tests(alloc, &conf, spawner).err()
}

// Why the child's tests are not listed; the list job was started.
fn refused(alloc: Global, output: &[u8], finish: Finish) -> Option<Why> {
    let mut spawner = one_child(alloc, output, 5, finish)?;
    let refusal = refusal_of(alloc, CONF, &mut spawner)?;
    if started(&spawner, b"run --list") {
        Some(why_unlisted(&refusal))
    } else {
        None
    }
}

// Why nothing is started.
fn not_started(alloc: Global, text: &[u8], fails: &[u64]) -> Option<Why> {
    let fails = Vec::from_slice(alloc, fails).ok()?;
    let mut spawner = PlanSpawner::new(alloc, Vec::new(alloc), fails);
    let refusal = refusal_of(alloc, text, &mut spawner)?;
    if spawner.started().is_empty() {
        Some(why_unlisted(&refusal))
    } else {
        None
    }
}

// What a child writes, and the ids that it lists.
const LISTINGS: [(&[u8], &[u8]); 5] = [
    (TWO, b"a b "),
    (OTHERS, b"a "),
    (CUT, b"a "),
    (b"", b""),
    (b"a\nb\n", b""),
];

fn are_listed(alloc: Global, piece: usize) -> bool {
    let mut same = true;
    for row in &LISTINGS {
        same = same && is_listed(alloc, row.0, piece, row.1) == Some(true);
    }
    same
}

#[test]
fn ids_of_existing_tests_are_listed_once_in_pieces_of_every_size(rt: HostRuntime) {
    assert!(rt; are_listed(rt.alloc(), 1));
    assert!(rt; are_listed(rt.alloc(), 5));
    assert!(rt; are_listed(rt.alloc(), 100));
}

#[test]
fn an_ending_of_another_kind_is_no_listing(rt: HostRuntime) {
    let alloc = rt.alloc();
    for output in [TWO, b"".as_slice(), CUT] {
        assert!(rt; refused(alloc, output, Finish::Exit(3)) == Some(Why::Failed(3)));
        assert!(rt; refused(alloc, output, Finish::Exit(-9)) == Some(Why::Failed(-9)));
        assert!(rt; refused(alloc, output, Finish::ReadFault) == Some(Why::Child));
        assert!(rt; refused(alloc, output, Finish::WaitFault) == Some(Why::Child));
    }
}

#[test]
fn a_listing_that_is_not_started(rt: HostRuntime) {
    let alloc = rt.alloc();
    assert!(rt; not_started(alloc, NOT_LISTED, &[]) == Some(Why::NoListOption));
    assert!(rt; not_started(alloc, NOT_ASKED, &[]) == Some(Why::NoListOption));
    // No output is left, and the start is to fail.
    assert!(rt; not_started(alloc, CONF, &[]) == Some(Why::Spawn));
    assert!(rt; not_started(alloc, CONF, &[0]) == Some(Why::Spawn));
}

fn call(alloc: Global, spawner: &mut PlanSpawner) -> Option<Result<u32, Why>> {
    let conf = conf_of(alloc, CONF)?;
    match run_count_command(alloc, &conf, spawner) {
        Ok(Some(number)) => Some(Ok(number)),
        Ok(None) => None,
        Err(refusal) => Some(Err(why_uncalled(&refusal))),
    }
}

// The number that the child tells; the count job was started.
fn told(alloc: Global, output: &[u8], piece: usize, finish: Finish) -> Option<Result<u32, Why>> {
    let mut spawner = one_child(alloc, output, piece, finish)?;
    let answer = call(alloc, &mut spawner);
    if started(&spawner, b"echo 3") {
        answer
    } else {
        None
    }
}

// A 7 among so many newlines in all.
fn seven(alloc: Global, size: usize) -> Option<Vec<u8>> {
    let mut output = Vec::new(alloc);
    output.push(b'7').ok()?;
    for _ in 1..size {
        output.push(b'\n').ok()?;
    }
    Some(output)
}

fn seven_told(alloc: Global, size: usize) -> Option<Result<u32, Why>> {
    told(alloc, &seven(alloc, size)?, 7, Finish::Exit(0))
}

// What a child writes, and the number that it tells.
const NUMBERS: [(&[u8], Result<u32, Why>); 12] = [
    (b"3\n", Ok(3)),
    (b" 12 \r\n", Ok(12)),
    (b"\n\t\x0b\x0c 007", Ok(7)),
    (b"0", Ok(0)),
    (b"999999999", Ok(999_999_999)),
    (b"1000000000", Err(Why::NoNumber)),
    (b"0000000001", Err(Why::NoNumber)),
    (b"x", Err(Why::NoNumber)),
    (b"-1", Err(Why::NoNumber)),
    (b"1 2", Err(Why::NoNumber)),
    (b"", Err(Why::NoNumber)),
    (b" \n", Err(Why::NoNumber)),
];

fn are_told(alloc: Global, piece: usize) -> bool {
    let mut same = true;
    for row in &NUMBERS {
        same = same && told(alloc, row.0, piece, Finish::Exit(0)) == Some(row.1);
    }
    same
}

#[test]
fn numbers_that_are_called_out(rt: HostRuntime) {
    assert!(rt; are_told(rt.alloc(), 1));
    assert!(rt; are_told(rt.alloc(), 100));
}

#[test]
fn the_whole_output_of_a_number_has_64_bytes_at_most(rt: HostRuntime) {
    assert!(rt; seven_told(rt.alloc(), 64) == Some(Ok(7)));
    assert!(rt; seven_told(rt.alloc(), 65) == Some(Err(Why::NoNumber)));
    assert!(rt; seven_told(rt.alloc(), 1000) == Some(Err(Why::NoNumber)));
}

#[test]
fn an_ending_of_another_kind_is_no_number(rt: HostRuntime) {
    let alloc = rt.alloc();
    for output in [b"3\n".as_slice(), b"".as_slice()] {
        assert!(rt; told(alloc, output, 1, Finish::Exit(1)) == Some(Err(Why::NoNumber)));
        assert!(rt; told(alloc, output, 1, Finish::ReadFault) == Some(Err(Why::Child)));
        assert!(rt; told(alloc, output, 1, Finish::WaitFault) == Some(Err(Why::Child)));
    }
}

// What is answered where no child is there, and whether nothing was started.
fn called_without_child(alloc: Global, text: &[u8]) -> Option<Result<Option<u32>, Why>> {
    let conf = conf_of(alloc, text)?;
    let mut spawner = PlanSpawner::new(alloc, Vec::new(alloc), Vec::new(alloc));
    let answer = run_count_command(alloc, &conf, &mut spawner);
    if !spawner.started().is_empty() {
        return None;
    }
    match answer {
        Ok(number) => Some(Ok(number)),
        Err(refusal) => Some(Err(why_uncalled(&refusal))),
    }
}

#[test]
fn a_call_that_is_not_started(rt: HostRuntime) {
    assert!(rt; called_without_child(rt.alloc(), NOT_LISTED) == Some(Ok(None)));
    assert!(rt; called_without_child(rt.alloc(), CONF) == Some(Err(Why::Spawn)));
}

fn letters_of(alloc: Global, letters: &[u8]) -> Option<IdList> {
    let mut ids = IdList::new(alloc);
    for letter in letters {
        ids.push(Text::new(alloc, &[*letter]).ok()?).ok()?;
    }
    Some(ids)
}

// The first of the ids, which are letters.
fn firsts_of(alloc: Global, letters: &[u8]) -> Option<Vec<u8>> {
    let ids = letters_of(alloc, letters)?;
    let firsts = first_of_each(alloc, ids).ok()?;
    spaced(alloc, &firsts)
}

fn are_firsts(alloc: Global, letters: &[u8], wanted: &[u8]) -> Option<bool> {
    let text = firsts_of(alloc, letters)?;
    Some(text.as_slice() == wanted)
}

// Letters, and the first ones of them.
const FIRSTS: [(&[u8], &[u8]); 5] = [
    (b"", b""),
    (b"a", b"a "),
    (b"baab", b"b a "),
    (b"abcabcd", b"a b c d "),
    (b"aaaa", b"a "),
];

#[test]
fn of_repeated_ids_the_first_is_kept(rt: HostRuntime) {
    for row in &FIRSTS {
        assert!(rt; are_firsts(rt.alloc(), row.0, row.1) == Some(true));
    }
}
