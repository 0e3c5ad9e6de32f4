//! Instances that are provisioned and disposed of, over children in memory.

ghost use Rattle.std.specs.Prelude.{◌≤◌, length};

use edge_io::{Finish, Plan, PlanSpawner};
use std::alloc::Global;
use sub_number::{Bytes, IdList, Text};
use suite_plan::{Disposal, DisposeFault, ProvisionRefusal, provision, workers_on};
use testr_conf::Conf;

const CONF: &[u8] =
    b"[DEFAULT]\ntest_command=run\ninstance_provision=make $INSTANCE_COUNT\ninstance_dispose=drop $INSTANCE_IDS\n";

const NO_KEYS: &[u8] = b"[DEFAULT]\ntest_command=run\n";

fn conf_of(alloc: Global, text: &[u8]) -> Option<Conf> {
    if text.len() > 16_777_216 {
        return None;
    }
    Conf::read(alloc, text).ok()
}

// A spawner of one child.
fn one_child(alloc: Global, output: &[u8], piece: usize, finish: Finish) -> Option<PlanSpawner> {
    if piece == 0 {
        return None;
    }
    let output = Bytes::new(alloc, output).ok()?;
    let mut plans = Vec::new(alloc);
    plans
        .push(Plan {
            output,
            piece,
            finish,
        })
        .ok()?;
    Some(PlanSpawner::new(alloc, plans, Vec::new(alloc)))
}

// Whether this command alone was started, without id file.
fn started(spawner: &PlanSpawner, command: &[u8]) -> bool {
    match spawner.started() {
        [job] => job.command.bytes() == command && job.id_file.is_none(),
        _ => false,
    }
}

// The instances, each with a space behind it.
fn spaced(alloc: Global, instances: &IdList) -> Option<Vec<u8>> {
    let mut text = Vec::new(alloc);
    for instance in instances.list() {
        text.extend_from_slice(instance.bytes()).ok()?;
        text.push(b' ').ok()?;
    }
    Some(text)
}

// Whether these are the instances that the child names, for four workers.
fn names(alloc: Global, output: &[u8], piece: usize, wanted: &[u8]) -> Option<bool> {
    let conf = conf_of(alloc, CONF)?;
    let mut spawner = one_child(alloc, output, piece, Finish::Exit(0))?;
    let instances = provision(alloc, &conf, 4, &mut spawner).ok()??;
    let text = spaced(alloc, &instances)?;
    Some(text.as_slice() == wanted && started(&spawner, b"make 4"))
}

// What the child prints, and the instances that it names.
const NAMED: [(&[u8], &[u8]); 6] = [
    (b"a\n", b"a "),
    (b"c b\ta\r\n", b"a b c "),
    (b"b a b\n\na", b"a b "),
    (b" 10 9 \x0b\x0c\n", b"10 9 "),
    (b"\xc3\xa4 z", b"z \xc3\xa4 "),
    (
        b"a\x1cb \xc2\x85c d\xc2\xa0e",
        b"a\x1cb d\xc2\xa0e \xc2\x85c ",
    ),
];

fn are_named(alloc: Global, piece: usize) -> bool {
    let mut same = true;
    for row in &NAMED {
        same = same && names(alloc, row.0, piece, row.1) == Some(true);
    }
    same
}

#[test]
fn instances_are_the_words_of_an_output_in_byte_order(rt: HostRuntime) {
    assert!(rt; are_named(rt.alloc(), 1));
    assert!(rt; are_named(rt.alloc(), 100));
}

// Why there are no instances, without what is told of the child.
#[derive(Clone, Copy, Debug, PartialEq, Eq)]
enum Why {
    Spawn,
    Child,
    Failed(i32),
    NoneNamed,
    NamesLost,
    NoMemory,
}

fn why_of(refusal: &ProvisionRefusal) -> Why {
    match refusal {
        ProvisionRefusal::Spawn => Why::Spawn,
        ProvisionRefusal::Child => Why::Child,
        ProvisionRefusal::Failed(status, _) => Why::Failed(*status),
        ProvisionRefusal::NoneNamed => Why::NoneNamed,
        ProvisionRefusal::NamesLost => Why::NamesLost,
        ProvisionRefusal::NoMemory => Why::NoMemory,
    }
}

fn refused(alloc: Global, output: &[u8], finish: Finish) -> Option<Why> {
    let conf = conf_of(alloc, CONF)?;
    let mut spawner = one_child(alloc, output, 5, finish)?;
    let refusal = provision(alloc, &conf, 4, &mut spawner).err()?;
    if started(&spawner, b"make 4") {
        Some(why_of(&refusal))
    } else {
        None
    }
}

#[test]
fn a_provisioning_that_gives_no_instances(rt: HostRuntime) {
    let alloc = rt.alloc();
    for output in [
        b"".as_slice(),
        b" \n\t".as_slice(),
        b"a\xff".as_slice(),
        b"a\0".as_slice(),
    ] {
        assert!(rt; refused(alloc, output, Finish::Exit(0)) == Some(Why::NoneNamed));
    }
    for output in [b"".as_slice(), b"a b\n".as_slice()] {
        assert!(rt; refused(alloc, output, Finish::Exit(1)) == Some(Why::Failed(1)));
        assert!(rt; refused(alloc, output, Finish::Exit(-9)) == Some(Why::Failed(-9)));
        assert!(rt; refused(alloc, output, Finish::ReadFault) == Some(Why::Child));
        assert!(rt; refused(alloc, output, Finish::WaitFault) == Some(Why::Child));
    }
}

// So many letters.
fn letters(alloc: Global, count: usize) -> Option<Vec<u8>> {
    let mut bytes = Vec::new(alloc);
    bytes.resize(count, b'a').ok()?;
    Some(bytes)
}

// Whether an output of so many letters names the one instance that they are.
fn names_one(alloc: Global, count: usize) -> Option<bool> {
    let conf = conf_of(alloc, CONF)?;
    let output = letters(alloc, count)?;
    let mut spawner = one_child(alloc, &output, 40_000, Finish::Exit(0))?;
    let instances = provision(alloc, &conf, 4, &mut spawner).ok()??;
    match instances.list() {
        [one] => Some(one.bytes() == output.as_slice()),
        _ => Some(false),
    }
}

fn long_refused(alloc: Global, count: usize) -> Option<Why> {
    let output = letters(alloc, count)?;
    refused(alloc, &output, Finish::Exit(0))
}

#[test]
fn an_output_of_65536_bytes_names_no_instances(rt: HostRuntime) {
    assert!(rt; names_one(rt.alloc(), 65_535) == Some(true));
    assert!(rt; long_refused(rt.alloc(), 65_536) == Some(Why::NoneNamed));
}

// Whether this is told of the output of a provisioning that ended with 1.
fn tells(alloc: Global, output: &[u8], wanted: &[u8]) -> Option<bool> {
    let conf = conf_of(alloc, CONF)?;
    let mut spawner = one_child(alloc, output, 5, Finish::Exit(1))?;
    match provision(alloc, &conf, 4, &mut spawner).err()? {
        ProvisionRefusal::Failed(1, told) => Some(told.bytes() == wanted),
        _ => None,
    }
}

#[test]
fn what_a_failed_provisioning_printed_is_told(rt: HostRuntime) {
    assert!(rt; tells(rt.alloc(), b"no more\n", b"no more\n") == Some(true));
    assert!(rt; tells(rt.alloc(), b"no\nmore", b"no\nmore\n") == Some(true));
    assert!(rt; tells(rt.alloc(), b"", b"") == Some(true));
}

// What is answered where no child is there, and nothing was started.
fn without_child(alloc: Global, text: &[u8]) -> Option<Result<bool, Why>> {
    let conf = conf_of(alloc, text)?;
    let mut spawner = PlanSpawner::new(alloc, Vec::new(alloc), Vec::new(alloc));
    let answer = provision(alloc, &conf, 4, &mut spawner);
    if !spawner.started().is_empty() {
        return None;
    }
    match answer {
        Ok(instances) => Some(Ok(instances.is_some())),
        Err(refusal) => Some(Err(why_of(&refusal))),
    }
}

#[test]
fn a_provisioning_that_is_not_started(rt: HostRuntime) {
    assert!(rt; without_child(rt.alloc(), NO_KEYS) == Some(Ok(false)));
    assert!(rt; without_child(rt.alloc(), CONF) == Some(Err(Why::Spawn)));
}

fn three(alloc: Global) -> Option<IdList> {
    let mut instances = IdList::new(alloc);
    for name in [b"a".as_slice(), b"b".as_slice(), b"c".as_slice()] {
        instances.push(Text::new(alloc, name).ok()?).ok()?;
    }
    Some(instances)
}

fn workers_on_three(alloc: Global, workers: u32) -> Option<u32> {
    Some(workers_on(workers, &three(alloc)?))
}

#[test]
fn no_more_workers_run_than_there_are_instances(rt: HostRuntime) {
    assert_eq!(rt; workers_on_three(rt.alloc(), 4), Some(3));
    assert_eq!(rt; workers_on_three(rt.alloc(), 3), Some(3));
    assert_eq!(rt; workers_on_three(rt.alloc(), 1), Some(1));
}

fn disposal(alloc: Global, text: &[u8], instances: IdList) -> Option<Disposal> {
    let conf = conf_of(alloc, text)?.on_instances(instances);
    Disposal::of(alloc, &conf).ok()?
}

// How these instances were disposed of by this command, which was started once; a child is there.
fn disposed_by(
    alloc: Global,
    instances: IdList,
    child: (&[u8], Finish),
    command: &[u8],
) -> Option<Result<(), DisposeFault>> {
    let mut spawner = one_child(alloc, child.0, 5, child.1)?;
    let answer = disposal(alloc, CONF, instances)?.run(&mut spawner);
    if started(&spawner, command) {
        Some(answer)
    } else {
        None
    }
}

// The same of three instances.
fn disposed(alloc: Global, output: &[u8], finish: Finish) -> Option<Result<(), DisposeFault>> {
    disposed_by(alloc, three(alloc)?, (output, finish), b"drop a b c")
}

fn not_disposed(alloc: Global) -> Option<Result<(), DisposeFault>> {
    let mut spawner = PlanSpawner::new(alloc, Vec::new(alloc), Vec::new(alloc));
    Some(disposal(alloc, CONF, three(alloc)?)?.run(&mut spawner))
}

#[test]
fn all_instances_are_disposed_of_by_one_job(rt: HostRuntime) {
    let alloc = rt.alloc();
    assert!(rt; disposal(alloc, NO_KEYS, IdList::new(alloc)).is_none());
    for output in [b"".as_slice(), b"gone\n".as_slice()] {
        assert!(rt; disposed(alloc, output, Finish::Exit(0)) == Some(Ok(())));
        assert!(rt; disposed(alloc, output, Finish::Exit(2)) == Some(Err(DisposeFault::Ended(2))));
        assert!(rt; disposed(alloc, output, Finish::ReadFault) == Some(Err(DisposeFault::Child)));
        assert!(rt; disposed(alloc, output, Finish::WaitFault) == Some(Err(DisposeFault::Child)));
    }
    assert!(rt; not_disposed(alloc) == Some(Err(DisposeFault::Spawn)));
}

#[test]
fn no_instances_are_disposed_of_by_the_same_job(rt: HostRuntime) {
    let alloc = rt.alloc();
    let none = IdList::new(alloc);
    let ended = (b"".as_slice(), Finish::Exit(0));
    assert!(rt; disposed_by(alloc, none, ended, b"drop ") == Some(Ok(())));
}
