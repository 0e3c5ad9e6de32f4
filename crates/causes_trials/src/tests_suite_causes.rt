//! Searches over children in memory, the lines that tell of them, and the tests that are searched.

use crate::lines::joined;
use edge_io::{Finish, Plan, PlanSpawner};
use outcome_fold::{Ended, Row};
use packet_codec::{Status, Tags};
use std::alloc::Global;
use sub_number::{Bytes, IdList, Text};
use suite_causes::{
    SearchFault, Suspect, can_hand_ids, cause_line, count_before, search_cause, suspects_of,
};
use testr_conf::{Conf, JobFault, Key};
use trial_events::{says, spelled, text};

const CONF: &[u8] = b"[DEFAULT]\ntest_command=run $IDOPTION\ntest_id_option=--load-list $IDFILE\n";

fn conf_of(alloc: Global) -> Option<Conf> {
    Conf::read(alloc, CONF).ok()
}

fn ids_of(alloc: Global, names: &[&str]) -> Option<IdList> {
    let mut ids = IdList::new(alloc);
    for name in names {
        ids.push(text(alloc, name.as_bytes())?).ok()?;
    }
    Some(ids)
}

// A child that says that c ended so, and then ends so.
type Said = (Status, Finish);

fn packet(alloc: Global, status: Status) -> Option<Bytes> {
    let event = says(alloc, b"", b"c", status);
    Some(Bytes::from_vec(spelled(alloc, &event)?))
}

fn add_plan(alloc: Global, said: &Said, plans: &mut Vec<Plan>) -> Option<()> {
    let output = packet(alloc, said.0)?;
    let finish = said.1;
    plans
        .push(Plan {
            output,
            piece: 3,
            finish,
        })
        .ok()
}

fn spawner_of(alloc: Global, children: &[Said], fails: &[u64]) -> Option<PlanSpawner> {
    let mut plans = Vec::new(alloc);
    for said in children {
        add_plan(alloc, said, &mut plans)?;
    }
    Some(PlanSpawner::new(alloc, plans, Vec::from_slice(alloc, fails).ok()?))
}

// The files of ids of the jobs that were started, each with a bar behind it.
fn started(alloc: Global, spawner: &PlanSpawner) -> Option<Vec<u8>> {
    let mut files = Vec::new(alloc);
    for job in spawner.started() {
        files
            .extend_from_slice(job.id_file.as_ref()?.bytes.bytes())
            .ok()?;
        files.push(b'|').ok()?;
    }
    Some(files)
}

// The line of the test, or why there is none.
fn told(
    alloc: Global,
    conf: &Conf,
    spawner: &mut PlanSpawner,
    ids: &IdList,
    test: &Text,
) -> Option<Result<Vec<u8>, SearchFault>> {
    can_hand_ids(alloc, conf).ok()?;
    let count = count_before(ids, test);
    match search_cause(alloc, conf, spawner, ids, count, test) {
        Ok(found) => Some(Ok(joined(alloc, &cause_line(test, ids, count, found))?)),
        Err(fault) => Some(Err(fault)),
    }
}

// A search: what its children say, the starts that fail, what is said of the test, or why nothing is, and the files of ids of
// the jobs that were started.
type Searching = (
    &'static [Said],
    &'static [u64],
    Result<&'static [u8], SearchFault>,
    &'static [u8],
);

fn is_same(answer: &Result<Vec<u8>, SearchFault>, wanted: &Result<&[u8], SearchFault>) -> bool {
    match (answer, wanted) {
        (Ok(line), Ok(other)) => line.as_slice() == *other,
        (Err(fault), Err(other)) => fault == other,
        _ => false,
    }
}

fn is_searched(
    alloc: Global,
    conf: &Conf,
    ids: &IdList,
    test: &Text,
    row: &Searching,
) -> Option<bool> {
    let mut spawner = spawner_of(alloc, row.0, row.1)?;
    let answer = told(alloc, conf, &mut spawner, ids, test)?;
    let files = started(alloc, &spawner)?;
    Some(is_same(&answer, &row.2) && files.as_slice() == row.3)
}

const PASSED: Said = (Status::Success, Finish::Exit(0));

const FAILED: Said = (Status::Fail, Finish::Exit(0));

const LOST: Said = (Status::Exists, Finish::Exit(7));

const SEARCHES: [Searching; 13] = [
    // c fails exactly behind b.
    (
        &[PASSED, FAILED, PASSED, FAILED],
        &[],
        Ok(b"c: caused by b"),
        b"c\n|a\nb\nc\n|a\nc\n|b\nc\n|",
    ),
    (
        &[PASSED, FAILED, FAILED],
        &[],
        Ok(b"c: caused by a"),
        b"c\n|a\nb\nc\n|a\nc\n|",
    ),
    (&[FAILED], &[], Ok(b"c: fails alone"), b"c\n|"),
    (
        &[PASSED, PASSED],
        &[],
        Ok(b"c: not reproduced"),
        b"c\n|a\nb\nc\n|",
    ),
    (
        &[PASSED, FAILED, PASSED, PASSED],
        &[],
        Ok(b"c: several tests together"),
        b"c\n|a\nb\nc\n|a\nc\n|b\nc\n|",
    ),
    // The test is open, so it failed.
    (
        &[(Status::InProgress, Finish::Exit(0))],
        &[],
        Ok(b"c: fails alone"),
        b"c\n|",
    ),
    // A child that ends with 7, or by a signal, and whose test passed: the row that tells of its end is none of the test's.
    (
        &[
            (Status::Success, Finish::Exit(7)),
            (Status::Success, Finish::Exit(-9)),
        ],
        &[],
        Ok(b"c: not reproduced"),
        b"c\n|a\nb\nc\n|",
    ),
    // A child that ends with 7 and says no more of the test than that it exists has lost it, so it failed.
    (&[LOST], &[], Ok(b"c: fails alone"), b"c\n|"),
    (
        &[PASSED, LOST, PASSED, LOST],
        &[],
        Ok(b"c: caused by b"),
        b"c\n|a\nb\nc\n|a\nc\n|b\nc\n|",
    ),
    // One that ends with 0 lost none.
    (
        &[
            (Status::Exists, Finish::Exit(0)),
            (Status::Exists, Finish::Exit(0)),
        ],
        &[],
        Ok(b"c: not reproduced"),
        b"c\n|a\nb\nc\n|",
    ),
    // A child that is not read to its end, or not waited for.
    (
        &[(Status::Fail, Finish::ReadFault)],
        &[],
        Err(SearchFault::Child),
        b"c\n|",
    ),
    (
        &[PASSED, (Status::Fail, Finish::WaitFault)],
        &[],
        Err(SearchFault::Child),
        b"c\n|a\nb\nc\n|",
    ),
    // The second start fails.
    (&[PASSED, FAILED], &[1], Err(SearchFault::Spawn), b"c\n|"),
];

// Whether each of the searches comes to what is said.
fn are_searched(alloc: Global) -> Option<bool> {
    let conf = conf_of(alloc)?;
    let ids = ids_of(alloc, &["a", "b", "c", "d"])?;
    let test = text(alloc, b"c")?;
    let mut same = true;
    for row in &SEARCHES {
        same = same && is_searched(alloc, &conf, &ids, &test, row) == Some(true);
    }
    Some(same)
}

#[test]
fn searches_start_their_probes_and_name_the_cause(rt: HostRuntime) {
    assert!(rt; are_searched(rt.alloc()) == Some(true));
}

// Sixty-four candidates and the test behind them.
fn many_ids(alloc: Global) -> Option<IdList> {
    let mut ids = IdList::new(alloc);
    for number in 0..64u8 {
        let name = [b'a' + number / 16, b'a' + number % 16];
        ids.push(text(alloc, &name)?).ok()?;
    }
    ids.push(text(alloc, b"c")?).ok()?;
    Some(ids)
}

// The children of the search whose cause is of this number: by itself the test passes, behind all it fails, and then the half
// with the cause is looked for six times.
fn add_search(alloc: Global, cause: u32, plans: &mut Vec<Plan>) -> Option<()> {
    add_plan(alloc, &PASSED, plans)?;
    add_plan(alloc, &FAILED, plans)?;
    let mut from: u32 = 0;
    for width in [32u32, 16, 8, 4, 2, 1] {
        if cause >= from.saturating_add(width) {
            add_plan(alloc, &PASSED, plans)?;
            from = from.saturating_add(width);
        }
        add_plan(alloc, &FAILED, plans)?;
    }
    Some(())
}

fn names(answer: &Result<Vec<u8>, SearchFault>, cause: &Text) -> bool {
    match answer {
        Ok(line) => line.as_slice().strip_prefix(b"c: caused by ") == Some(cause.bytes()),
        Err(_) => false,
    }
}

// Whether the candidate of this number is named, by no more than two probes for each of seven binary digits, and two more.
fn is_named(alloc: Global, conf: &Conf, ids: &IdList, test: &Text, cause: u32) -> Option<bool> {
    let mut plans = Vec::new(alloc);
    add_search(alloc, cause, &mut plans)?;
    let asked = plans.len();
    let mut spawner = PlanSpawner::new(alloc, plans, Vec::new(alloc));
    let answer = told(alloc, conf, &mut spawner, ids, test)?;
    let name = ids.list().get(cause as usize)?;
    Some(asked <= 16 && spawner.started().len() == asked && names(&answer, name))
}

// Whether each of them is named, where it is the cause.
fn are_named(alloc: Global) -> Option<bool> {
    let conf = conf_of(alloc)?;
    let ids = many_ids(alloc)?;
    let test = text(alloc, b"c")?;
    let mut same = true;
    for cause in 0..64u32 {
        same = same && is_named(alloc, &conf, &ids, &test, cause) == Some(true);
    }
    Some(same)
}

#[test]
fn each_of_many_candidates_is_named_where_it_is_the_cause(rt: HostRuntime) {
    assert!(rt; are_named(rt.alloc()) == Some(true));
}

const NO_OPTION: &[u8] = b"[DEFAULT]\ntest_command=run $IDOPTION\n";

const TAKES_NONE: &[u8] = b"[DEFAULT]\ntest_command=run\n";

fn hands(alloc: Global, conf: &[u8]) -> Option<Result<(), JobFault>> {
    if conf.len() > 4_096 {
        return None;
    }
    let conf = Conf::read(alloc, conf).ok()?;
    Some(can_hand_ids(alloc, &conf))
}

#[test]
fn an_option_of_ids_that_is_wanted_and_missing_is_told(rt: HostRuntime) {
    let missing = JobFault::NoOption(Key::IdOption);
    assert!(rt; hands(rt.alloc(), NO_OPTION) == Some(Err(missing)));
    assert!(rt; hands(rt.alloc(), TAKES_NONE) == Some(Ok(())));
    assert!(rt; hands(rt.alloc(), CONF) == Some(Ok(())));
}

// A row that fails: its route, which is none where it is empty, and its id.
const FAILING: [(&[u8], &[u8]); 8] = [
    (b"", b"a"),
    (b"0", b"c"),
    (b"0", b"process-returncode"),
    (b"0/x", b"c"),
    (b"1", b"c"),
    (b"63/1", b"d"),
    (b"64", b"d"),
    (b"01", b"d"),
];

// A test that is searched: its id and its lane.
const SEARCHED: [(&[u8], u32); 3] = [(b"c", 0), (b"c", 1), (b"d", 63)];

fn row_of(alloc: Global, route: &[u8], id: &[u8]) -> Option<Row> {
    let route = if route.is_empty() {
        None
    } else {
        Some(text(alloc, route)?)
    };
    Some(Row {
        id: text(alloc, id)?,
        route,
        ended: Ended::Fail,
        tags: Tags::new(alloc),
        nanos: None,
        text: Bytes::new(alloc, b"").ok()?,
        reason: Bytes::new(alloc, b"").ok()?,
    })
}

fn rows_of(alloc: Global) -> Option<Vec<Row>> {
    let mut rows = Vec::new(alloc);
    for (route, id) in &FAILING {
        rows.push(row_of(alloc, route, id)?).ok()?;
    }
    Some(rows)
}

fn are_these(found: &[Suspect]) -> bool {
    found.len() == SEARCHED.len()
        && found
            .iter()
            .zip(SEARCHED.iter())
            .all(|(one, row)| one.id.bytes() == row.0 && one.lane == row.1)
}

fn are_suspects(alloc: Global) -> Option<bool> {
    let rows = rows_of(alloc)?;
    let found = suspects_of(alloc, &rows).ok()?;
    Some(are_these(&found))
}

#[test]
fn tests_are_searched_once_on_each_lane(rt: HostRuntime) {
    assert!(rt; are_suspects(rt.alloc()) == Some(true));
}

// How many of the ids stand before the test.
const COUNTS: [(&[u8], u32); 4] = [(b"a", 0), (b"c", 2), (b"d", 3), (b"x", 4)];

fn are_counted(alloc: Global) -> Option<bool> {
    let ids = ids_of(alloc, &["a", "b", "c", "d"])?;
    let mut same = true;
    for (test, count) in &COUNTS {
        let test = text(alloc, test)?;
        same = same && count_before(&ids, &test) == *count;
    }
    Some(same)
}

#[test]
fn candidates_stand_before_the_test(rt: HostRuntime) {
    assert!(rt; are_counted(rt.alloc()) == Some(true));
}
