//! Which tests run, in which shares, and what their workers are started with.

ghost use Rattle.std.specs.Prelude.{◌≤◌, IfSome};
ghost use Rattle.std.specs.List.{IsDistinct};
ghost use Rattle.std.specs.Str.{bytes_eq};
ghost use Rattle.suite_plan.specs.declared.worker_shares.TheConstants.{MOST_WORKERS};

use edge_io::Job;
use partition_times::{Filters, Groups};
use std::alloc::Global;
use std::test::Fail;
use sub_number::{IdList, Text, TimeMap};
use suite_plan::{
    FurtherPicks, PatternRefusal, Picks, chosen_ids, compile_picks, first_of_each, ids_of_shard,
    jobs_of_lanes, share_out_ids,
};
use testr_conf::{Conf, JobFault, Key};
use testr_words::Shard;

const WHOLE: &[u8] =
    b"[DEFAULT]\ntest_command=OS_STDOUT_CAPTURE=${OS_STDOUT_CAPTURE:-1} \\\n             ${PYTHON:-python} -m subunit.run discover -t ./ . $LISTOPT $IDOPTION\ntest_id_option=--load-list $IDFILE\ntest_list_option=--list\n";

const FIRST: &[u8] =
    b"OS_STDOUT_CAPTURE=${OS_STDOUT_CAPTURE:-1} \\\n${PYTHON:-python} -m subunit.run discover -t ./ .  --load-list .testr-ids.0";

const SECOND: &[u8] =
    b"OS_STDOUT_CAPTURE=${OS_STDOUT_CAPTURE:-1} \\\n${PYTHON:-python} -m subunit.run discover -t ./ .  --load-list .testr-ids.1";

const NO_OPTION: &[u8] = b"[DEFAULT]\ntest_command=run $IDOPTION\n";

// Ids with white space between them.
fn ids_of(alloc: Global, texts: &str) -> Option<IdList> {
    let mut ids = IdList::new(alloc);
    for text in texts.split_whitespace() {
        ids.push(Text::new(alloc, text.as_bytes()).ok()?).ok()?;
    }
    Some(ids)
}

fn are_ids(ids: &IdList, wanted: &str) -> bool {
    let mut same = true;
    let mut left = wanted.split_whitespace();
    for id in ids.list() {
        same = same
            && left
                .next()
                .is_some_and(|text| text.as_bytes() == id.bytes());
    }
    same && left.next().is_none()
}

// Times in seconds.
fn times_of(alloc: Global, rows: &[(&str, u64)]) -> Option<TimeMap> {
    let mut times = TimeMap::new(alloc);
    for (text, seconds) in rows {
        let id = Text::new(alloc, text.as_bytes()).ok()?;
        times.put(&id, seconds.wrapping_mul(1_000_000_000)).ok()?;
    }
    Some(times)
}

// The groups by a regex, where the empty one stands for none.
fn groups_of(alloc: Global, regex: &str) -> Option<Groups> {
    if regex.is_empty() {
        return Groups::new(alloc, None).ok();
    }
    let text = Text::new(alloc, regex.as_bytes()).ok()?;
    Groups::new(alloc, Some(&text)).ok()
}

fn shares_of(
    alloc: Global,
    ids: &str,
    times: &[(&str, u64)],
    regex: &str,
    workers: u32,
) -> Option<Vec<IdList>>
    requires some { 1 ≤ workers }
    requires most { workers ≤ MOST_WORKERS }
{
    let ids = ids_of(alloc, ids)?;
    let times = times_of(alloc, times)?;
    let groups = groups_of(alloc, regex)?;
    share_out_ids(alloc, ids, &times, &groups, workers).ok()
}

fn are_shares(shares: &Option<Vec<IdList>>, wanted: &[&str]) -> bool {
    let Some(shares) = shares else {
        return false;
    };
    let mut same = shares.len() == wanted.len();
    for (share, wanted) in shares.iter().zip(wanted.iter()) {
        same = same && are_ids(share, wanted);
    }
    same
}

fn shares_are(
    alloc: Global,
    ids: &str,
    times: &[(&str, u64)],
    regex: &str,
    workers: u32,
    wanted: &[&str],
) -> bool
    requires some { 1 ≤ workers }
    requires most { workers ≤ MOST_WORKERS }
{
    let shares = shares_of(alloc, ids, times, regex, workers);
    are_shares(&shares, wanted)
}

fn conf_of(alloc: Global, text: &[u8]) -> Option<Conf> {
    if text.len() > 16_777_216 {
        return None;
    }
    Conf::read(alloc, text).ok()
}

fn jobs_of(alloc: Global, conf: &[u8], shares: &Option<Vec<IdList>>) -> Option<Vec<Job>> {
    let conf = conf_of(alloc, conf)?;
    match shares {
        Some(shares) if shares.len() <= 64 => jobs_of_lanes(
            alloc,
            &conf,
            Some(shares.as_slice()),
        ).ok(),
        Some(_) => None,
        None => jobs_of_lanes(alloc, &conf, None).ok(),
    }
}

// The command, and the name and the bytes of the id file.
type Wanted = (&'static [u8], &'static [u8], &'static [u8]);

fn is_job(job: &Job, wanted: &Wanted) -> bool {
    let file = match &job.id_file {
        Some(file) => file.name.bytes() == wanted.1 && file.bytes.bytes() == wanted.2,
        None => wanted.1.is_empty() && wanted.2.is_empty(),
    };
    job.command.bytes() == wanted.0 && file
}

fn are_jobs(jobs: &Option<Vec<Job>>, wanted: &[Wanted]) -> bool {
    let Some(jobs) = jobs else {
        return false;
    };
    let mut same = jobs.len() == wanted.len();
    for (job, wanted) in jobs.iter().zip(wanted.iter()) {
        same = same && is_job(job, wanted);
    }
    same
}

#[test]
fn the_jobs_of_two_workers_to_the_byte(rt: HostRuntime) -> Result<(), Fail> {
    let alloc = rt.alloc();
    let shares = shares_of(alloc, "a b", &[], "", 2);
    assert!(rt; are_shares(&shares, &["a", "b"]));
    let first = (FIRST, b".testr-ids.0".as_slice(), b"a\n".as_slice());
    let second = (SECOND, b".testr-ids.1".as_slice(), b"b\n".as_slice());
    assert!(rt; are_jobs(&jobs_of(alloc, WHOLE, &shares), &[first, second]));
    Ok(())
}

#[test]
fn no_ids_are_one_job_and_no_share_is_none(rt: HostRuntime) -> Result<(), Fail> {
    let alloc = rt.alloc();
    let all: Wanted = (b"run ", b"", b"");
    assert!(rt; are_jobs(&jobs_of(alloc, NO_OPTION, &None), &[all]));
    let none = shares_of(alloc, "", &[], "", 2);
    assert!(rt; are_shares(&none, &[]));
    assert!(rt; are_jobs(&jobs_of(alloc, NO_OPTION, &none), &[]));
    assert!(rt; are_shares(&shares_of(alloc, "", &[], "", 1), &[]));
    Ok(())
}

fn refusal_of(alloc: Global, conf: &[u8], shares: &Option<Vec<IdList>>) -> Option<JobFault> {
    let conf = conf_of(alloc, conf)?;
    match shares {
        Some(shares) if shares.len() <= 64 => jobs_of_lanes(
            alloc,
            &conf,
            Some(shares.as_slice()),
        ).err(),
        _ => None,
    }
}

#[test]
fn a_share_needs_the_option_for_ids(rt: HostRuntime) -> Result<(), Fail> {
    let alloc = rt.alloc();
    let shares = shares_of(alloc, "a", &[], "", 1);
    let refusal = Some(JobFault::NoOption(Key::IdOption));
    assert_eq!(rt; refusal_of(alloc, NO_OPTION, &shares), refusal);
    Ok(())
}

const TIMES: [(&str, u64); 4] = [("a", 5), ("b", 4), ("c", 3), ("d", 3)];

#[test]
fn shares_by_times_by_groups_and_none_that_is_empty(rt: HostRuntime) -> Result<(), Fail> {
    let alloc = rt.alloc();
    assert!(rt; shares_are(alloc, "a b c d e", &TIMES, "", 2, &["a d e", "b c"]));
    assert!(rt; shares_are(alloc, "a.x a.y b.x", &[], "^[^.]+", 2, &["a.x a.y", "b.x"]));
    assert!(rt; shares_are(alloc, "c a b", &[], "", 64, &["a", "b", "c"]));
    assert!(rt; shares_are(alloc, "c a b", &TIMES, "", 1, &["c a b"]));
    Ok(())
}

// Whether the shard of this number of so many has these ids.
fn shard_is(
    alloc: Global,
    ids: &str,
    times: &[(&str, u64)],
    regex: &str,
    part: (u32, u32),
    wanted: &str,
) -> bool {
    match shard_of(alloc, ids, times, regex, part) {
        Some(kept) => are_ids(&kept, wanted),
        None => false,
    }
}

fn shard_of(
    alloc: Global,
    ids: &str,
    times: &[(&str, u64)],
    regex: &str,
    part: (u32, u32),
) -> Option<IdList> {
    let shard = Shard::new(part.0, part.1)?;
    let ids = ids_of(alloc, ids)?;
    let times = times_of(alloc, times)?;
    let groups = groups_of(alloc, regex)?;
    ids_of_shard(alloc, ids, &times, &groups, Some(shard)).ok()
}

#[test]
fn shards_are_the_shares_in_their_order(rt: HostRuntime) -> Result<(), Fail> {
    let alloc = rt.alloc();
    assert!(rt; shard_is(alloc, "a b c d e", &TIMES, "", (1, 2), "a d e"));
    assert!(rt; shard_is(alloc, "a b c d e", &TIMES, "", (2, 2), "b c"));
    assert!(rt; shard_is(alloc, "e d c b a", &TIMES, "", (1, 1), "e d c b a"));
    assert!(rt; shard_is(alloc, "a.x b.x a.y", &[], "^[^.]+", (1, 2), "a.x a.y"));
    assert!(rt; shard_is(alloc, "b a", &[], "", (1024, 1024), ""));
    Ok(())
}

// Where ids are given: those of the failing set, of a load list and of a listing.
type Given = (
    Option<&'static str>,
    Option<&'static str>,
    Option<&'static str>,
);

fn maybe_ids(alloc: Global, texts: Option<&str>) -> Option<Option<IdList>> {
    match texts {
        Some(texts) => Some(Some(ids_of(alloc, texts)?)),
        None => Some(None),
    }
}

// The including patterns, the further ones of a list, the excluding ones, and the further ones.
type Patterns = (
    &'static str,
    Option<&'static str>,
    &'static str,
    Option<&'static str>,
);

const NO_PATTERNS: Patterns = ("", None, "", None);

fn filters_of(alloc: Global, patterns: &str) -> Option<Filters> {
    Filters::new(alloc, ids_of(alloc, patterns)?.list()).ok()
}

fn picks_of(alloc: Global, patterns: &Patterns) -> Option<Picks> {
    let including = filters_of(alloc, patterns.0)?;
    let excluding = filters_of(alloc, patterns.2)?;
    Some(Picks {
        including,
        excluding,
    })
}

fn maybe_filters(alloc: Global, patterns: Option<&str>) -> Option<Option<Filters>> {
    match patterns {
        Some(patterns) => Some(Some(filters_of(alloc, patterns)?)),
        None => Some(None),
    }
}

fn further_of(alloc: Global, patterns: &Patterns) -> Option<FurtherPicks> {
    let including = maybe_filters(alloc, patterns.1)?;
    let excluding = maybe_filters(alloc, patterns.3)?;
    Some(FurtherPicks {
        including,
        excluding,
    })
}

// The ids of a listing, each once, where there is one.
fn listing_of(alloc: Global, texts: Option<&str>) -> Option<Option<IdList>>
    ensures { IfSome result (λ ids. IfSome ids (IsDistinct bytes_eq)) }
{
    match texts {
        Some(texts) => Some(Some(first_of_each(alloc, ids_of(alloc, texts)?).ok()?)),
        None => Some(None),
    }
}

fn chosen_of(alloc: Global, given: &Given, patterns: &Patterns) -> Option<Option<IdList>> {
    let picks = picks_of(alloc, patterns)?;
    let further = further_of(alloc, patterns)?;
    chosen_by(alloc, given, &picks, &further)
}

fn chosen_by(
    alloc: Global,
    given: &Given,
    picks: &Picks,
    further: &FurtherPicks,
) -> Option<Option<IdList>> {
    let failing = maybe_ids(alloc, given.0)?;
    let listed = maybe_ids(alloc, given.1)?;
    let listing = listing_of(alloc, given.2)?;
    chosen_ids(alloc, failing, listed, listing, picks, further).ok()
}

// Whether these ids are chosen, and are given at all.
fn are_chosen(alloc: Global, given: &Given, patterns: &Patterns, wanted: &str) -> bool {
    match chosen_of(alloc, given, patterns) {
        Some(Some(ids)) => are_ids(&ids, wanted),
        _ => false,
    }
}

fn is_nothing_given(alloc: Global, patterns: &Patterns) -> bool {
    matches!(chosen_of(alloc, &(None, None, None), patterns), Some(None))
}

#[test]
fn which_ids_a_run_has(rt: HostRuntime) -> Result<(), Fail> {
    let alloc = rt.alloc();
    let both = (Some("a b c"), Some("c d a c"), None);
    assert!(rt; are_chosen(alloc, &both, &NO_PATTERNS, "a c"));
    assert!(rt; are_chosen(alloc, &(Some("a b"), None, None), &NO_PATTERNS, "a b"));
    let repeated = (None, Some("c a c b a"), None);
    assert!(rt; are_chosen(alloc, &repeated, &NO_PATTERNS, "c a b"));
    assert!(rt; is_nothing_given(alloc, &("a", None, "b", None)));
    Ok(())
}

const LISTED: Given = (None, None, Some("b.x a.y b.z c.x"));

const REPEATED: Given = (None, Some("c a c b a"), None);

// The given ids, the patterns, and the ids that are wanted by them.
const WANTED: [(Given, Patterns, &str); 9] = [
    (REPEATED, ("z", None, "", None), ""),
    (REPEATED, ("", None, "a", None), "c b"),
    (LISTED, ("^b x$", None, "", None), "b.x b.z c.x"),
    (LISTED, ("^b x$", None, "z ^c", None), "b.x"),
    (LISTED, ("^b", Some("^a"), "", None), "b.x a.y b.z"),
    (LISTED, ("", Some("x$"), "", Some("^b")), "c.x"),
    (LISTED, ("", Some(""), "", Some("")), "b.x a.y b.z c.x"),
    (LISTED, ("", None, "y", Some("^b z")), "c.x"),
    (LISTED, ("x", None, "x", None), ""),
];

#[test]
fn which_of_them_patterns_want(rt: HostRuntime) -> Result<(), Fail> {
    let alloc = rt.alloc();
    for row in &WANTED {
        assert!(rt; are_chosen(alloc, &row.0, &row.1, row.2));
    }
    Ok(())
}

fn are_same(one: &str, other: &str) -> bool {
    one == other
}

// Whether this is the bad pattern that is named, where the empty text stands for none.
fn is_bad(
    alloc: Global,
    including: &str,
    excluding: &str,
    regex: Option<&Text>,
    wanted: &str,
) -> Option<bool> {
    let including = ids_of(alloc, including)?;
    let excluding = ids_of(alloc, excluding)?;
    match compile_picks(alloc, &including, &excluding, regex) {
        Ok(_) => Some(wanted.is_empty()),
        Err(PatternRefusal::Bad(text)) => Some(are_same(text, wanted)),
        Err(PatternRefusal::NoMemory) => None,
    }
}

#[test]
fn the_first_bad_pattern_is_named(rt: HostRuntime) -> Result<(), Fail> {
    let alloc = rt.alloc();
    let bad = Text::new(alloc, b"[x")?;
    let good = Text::new(alloc, b"^x")?;
    assert_eq!(rt; is_bad(alloc, "a ( )", "[y", Some(&bad), "("), Some(true));
    assert_eq!(rt; is_bad(alloc, "a", "b [y (", Some(&bad), "[y"), Some(true));
    assert_eq!(rt; is_bad(alloc, "a b", "c", Some(&bad), "[x"), Some(true));
    assert_eq!(rt; is_bad(alloc, "a b", "c", Some(&good), ""), Some(true));
    assert_eq!(rt; is_bad(alloc, "", "", None, ""), Some(true));
    Ok(())
}
