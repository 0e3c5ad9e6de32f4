// What no clause says of the folder of runs: which calls of the system are made, and what they leave in it.
//
// What is dear to drop is lent to the function that looks at it, so that the proofs stay short. Such a function can end a
// failed test only by a handle with that bound, and so it takes the host beside it where it makes calls too.

use crate::homes::{enter_home, holds, is_there, leave_home, shell};
use crate::shelves::{publish_one, put, shelf_alone, shelf_together};
use edge_io::{Failed, NamesFault, Shelf};
use real_outside::FolderShelf;
use std::alloc::Global;
use std::os::unix::fs::{MetadataExt, symlink};
use std::process::Abort;
use std::test::Fail;
use std::{fs, io};
use sub_number::Text;

// A draft of more than one buffer, in a small piece, a large one and a small one.
fn publish_pieces(shelf: &mut FolderShelf<'_, HostRuntime>, large: &[u8]) -> Result<(), Failed> {
    shelf.start_draft()?;
    shelf.append(b"first")?;
    shelf.append(large)?;
    shelf.append(b"last")?;
    shelf.sync_draft()?;
    shelf.publish("0")?;
    shelf.sync_folder()
}

// The same, and then a second draft.
fn publish_two(shelf: &mut FolderShelf<'_, HostRuntime>, large: &[u8]) -> Result<(), Failed> {
    publish_pieces(shelf, large)?;
    shelf.start_draft()?;
    shelf.append(b"second")?;
    shelf.publish("1")?;
    shelf.sync_folder()
}

fn check_lengths(rt: &impl Abort, shelf: &mut FolderShelf<'_, HostRuntime>) {
    assert_eq!(rt; shelf.length("0"), Ok(Some(100_009)));
    assert_eq!(rt; shelf.length("1"), Ok(Some(6)));
    assert_eq!(rt; shelf.length("draft"), Ok(None));
    assert_eq!(rt; shelf.length("."), Err(Failed));
}

fn check_no_draft(rt: &impl Abort, shelf: &mut FolderShelf<'_, HostRuntime>) {
    assert_eq!(rt; shelf.append(b"lost"), Err(Failed));
    assert_eq!(rt; shelf.sync_draft(), Err(Failed));
    assert_eq!(rt; shelf.publish("2"), Err(Failed));
}

fn check_parts(rt: &impl Abort, shelf: &mut FolderShelf<'_, HostRuntime>) {
    let mut part = [0u8; 4];
    assert_eq!(rt; shelf.read_at("1", 3, &mut part), Ok(3));
    assert_eq!(rt; part, *b"ond\0");
    assert_eq!(rt; shelf.read_at("0", 4, &mut part), Ok(4));
    assert_eq!(rt; part, *b"txxx");
    assert_eq!(rt; shelf.read_at("0", 100_009, &mut part), Ok(0));
    assert_eq!(rt; shelf.read_at("2", 0, &mut part), Err(Failed));
}

fn check_drafts(rt: &impl Abort, shelf: &mut FolderShelf<'_, HostRuntime>, large: &[u8]) {
    assert_eq!(rt; publish_two(shelf, large), Ok(()));
    check_lengths(rt, shelf);
    check_no_draft(rt, shelf);
    check_parts(rt, shelf);
}

fn check_large_drafts(rt: &impl Abort, host: &HostRuntime) -> io::Result<()> {
    let large = vec![in host.alloc(); b'x'; 100_000]?;
    check_drafts(rt, &mut shelf_alone(host), &large);
    Ok(())
}

#[test]
fn drafts_are_published(rt: HostRuntime) -> Result<(), Fail> {
    enter_home(&rt, "drafts")?;
    check_large_drafts(&rt, &rt)?;
    leave_home(&rt, "drafts")?;
    Ok(())
}

fn count_names(
    shelf: &mut FolderShelf<'_, HostRuntime>,
    alloc: Global,
) -> Result<usize, NamesFault> {
    Ok(shelf.names(alloc)?.len())
}

fn check_absent(rt: &impl Abort, host: &HostRuntime, shelf: &mut FolderShelf<'_, HostRuntime>) {
    assert_eq!(rt; shelf.sync_folder(), Ok(()));
    assert_eq!(rt; count_names(shelf, host.alloc()), Ok(0));
    assert_eq!(rt; shelf.length("0"), Ok(None));
}

#[test]
fn an_absent_folder_is_empty(rt: HostRuntime) -> Result<(), Fail> {
    enter_home(&rt, "absent")?;
    check_absent(&rt, &rt, &mut shelf_alone(&rt));
    assert!(rt; !fs::exists(&rt, ".testrepository")?);
    leave_home(&rt, "absent")?;
    Ok(())
}

const STRANGERS: &str =
    "mkdir .testrepository && cd .testrepository && touch notes 9 draft lock 10 0 \"$(printf '5\\377')\" && \
mkdir 1 && mkfifo 2 && ln -s .. 3 && ln -s nowhere 4";

fn names_of_folder(rt: &HostRuntime) -> Result<Vec<Text>, NamesFault> {
    let mut shelf = shelf_alone(rt);
    shelf.names(rt.alloc())
}

fn is_name(names: &[Text], place: usize, wanted: &[u8]) -> bool {
    match names.get(place) {
        Some(name) => name.bytes() == wanted,
        None => false,
    }
}

fn check_names(rt: &impl Abort, names: &[Text]) {
    assert_eq!(rt; names.len(), 5);
    assert!(rt; is_name(names, 0, b"0"));
    assert!(rt; is_name(names, 1, b"10"));
    assert!(rt; is_name(names, 2, b"4"));
    assert!(rt; is_name(names, 3, b"9"));
    assert!(rt; is_name(names, 4, b"notes"));
}

fn check_folder(rt: &impl Abort, host: &HostRuntime) -> Result<(), NamesFault> {
    let names = names_of_folder(host)?;
    check_names(rt, &names);
    Ok(())
}

// What is no regular file has no name here, but for a link that leads nowhere.
#[test]
fn names_come_in_order(rt: HostRuntime) -> Result<(), Fail> {
    enter_home(&rt, "names")?;
    shell(&rt, STRANGERS)?;
    check_folder(&rt, &rt)?;
    leave_home(&rt, "names")?;
    Ok(())
}

fn check_unread(rt: &impl Abort, shelf: &mut FolderShelf<'_, HostRuntime>, name: &str) {
    let mut part = [0u8; 4];
    assert_eq!(rt; shelf.length(name), Err(Failed));
    assert_eq!(rt; shelf.read_at(name, 0, &mut part), Err(Failed));
}

const UNREAD: [&str; 4] = ["1", "2", "3", "4"];

fn check_strangers(rt: &impl Abort, shelf: &mut FolderShelf<'_, HostRuntime>) {
    for name in &UNREAD {
        check_unread(rt, shelf, name);
    }
    assert_eq!(rt; shelf.length("5"), Ok(None));
}

#[test]
fn a_name_that_cannot_be_read_is_a_fault(rt: HostRuntime) -> Result<(), Fail> {
    enter_home(&rt, "unread")?;
    shell(&rt, STRANGERS)?;
    check_strangers(&rt, &mut shelf_together(&rt));
    leave_home(&rt, "unread")?;
    Ok(())
}

fn check_link(rt: &impl Abort, host: &HostRuntime) -> Result<(), Fail> {
    fs::write(host, "dotfile", "mine")?;
    symlink(host, "../dotfile", ".testrepository/draft")?;
    publish_one(host, "1")?;
    assert!(rt; holds(host, "dotfile", "mine"));
    Ok(())
}

fn check_other_name(rt: &impl Abort, host: &HostRuntime) -> Result<(), Fail> {
    fs::hard_link(host, ".testrepository/0", ".testrepository/draft")?;
    publish_one(host, "2")?;
    assert!(rt; holds(host, ".testrepository/0", "first"));
    Ok(())
}

fn check_pipe(rt: &impl Abort, host: &HostRuntime) -> Result<(), Fail> {
    shell(host, "mkfifo .testrepository/draft")?;
    publish_one(host, "3")?;
    assert!(rt; holds(host, ".testrepository/3", "first"));
    assert!(rt; !is_there(host, ".testrepository/draft"));
    Ok(())
}

// Whatever has the draft's name is removed, and not opened: a link, another name of a run, a pipe.
#[test]
fn a_draft_is_a_new_file(rt: HostRuntime) -> Result<(), Fail> {
    enter_home(&rt, "anew")?;
    publish_one(&rt, "0")?;
    check_link(&rt, &rt)?;
    check_other_name(&rt, &rt)?;
    check_pipe(&rt, &rt)?;
    leave_home(&rt, "anew")?;
    Ok(())
}

fn check_taken(
    rt: &impl Abort,
    host: &HostRuntime,
    shelf: &mut FolderShelf<'_, HostRuntime>,
    name: &str,
) {
    assert_eq!(rt; shelf.start_draft(), Ok(()));
    assert_eq!(rt; shelf.append(b"second"), Ok(()));
    assert_eq!(rt; shelf.publish(name), Err(Failed));
    assert!(rt; !is_there(host, ".testrepository/draft"));
}

fn check_both_taken(rt: &impl Abort, host: &HostRuntime, shelf: &mut FolderShelf<'_, HostRuntime>) {
    check_taken(rt, host, shelf, "0");
    check_taken(rt, host, shelf, "1");
}

#[test]
fn a_name_is_not_replaced(rt: HostRuntime) -> Result<(), Fail> {
    enter_home(&rt, "replaced")?;
    publish_one(&rt, "0")?;
    symlink(&rt, "nowhere", ".testrepository/1")?;
    check_both_taken(&rt, &rt, &mut shelf_alone(&rt));
    assert!(rt; holds(&rt, ".testrepository/0", "first"));
    assert!(rt; !is_there(&rt, ".testrepository/nowhere"));
    leave_home(&rt, "replaced")?;
    Ok(())
}

fn check_both_kept(rt: &impl Abort, host: &HostRuntime, shelf: &mut FolderShelf<'_, HostRuntime>) {
    check_taken(rt, host, shelf, "format");
    check_taken(rt, host, shelf, "0.part");
}

fn check_taking_over(rt: &impl Abort, shelf: &mut FolderShelf<'_, HostRuntime>) {
    assert_eq!(rt; put(shelf, "0.part", b"converted"), Ok(()));
    assert_eq!(rt; put(shelf, "format", b"other"), Ok(()));
    assert_eq!(rt; put(shelf, "0", b"other"), Err(Failed));
}

#[test]
fn partial_runs_and_the_format_are_replaced_in_a_folder_that_is_taken_over_alone(
    rt: HostRuntime,
) -> Result<(), Fail> {
    enter_home(&rt, "taken_over")?;
    publish_one(&rt, "format")?;
    publish_one(&rt, "0.part")?;
    publish_one(&rt, "0")?;
    check_both_kept(&rt, &rt, &mut shelf_alone(&rt));
    assert!(rt; holds(&rt, ".testrepository/format", "first"));
    assert!(rt; holds(&rt, ".testrepository/0.part", "first"));
    check_taking_over(&rt, &mut shelf_alone(&rt).taking_over());
    assert!(rt; holds(&rt, ".testrepository/format", "other"));
    assert!(rt; holds(&rt, ".testrepository/0.part", "converted"));
    assert!(rt; holds(&rt, ".testrepository/0", "first"));
    leave_home(&rt, "taken_over")?;
    Ok(())
}

fn check_cache(rt: &impl Abort, shelf: &mut FolderShelf<'_, HostRuntime>) {
    let mut part = [0u8; 4];
    assert_eq!(rt; put(shelf, "failing.set", b"older"), Ok(()));
    assert_eq!(rt; shelf.length("failing.set"), Ok(Some(5)));
    assert_eq!(rt; put(shelf, "failing.set", b"newer one"), Ok(()));
    assert_eq!(rt; shelf.length("failing.set"), Ok(Some(9)));
    assert_eq!(rt; shelf.read_at("failing.set", 0, &mut part), Ok(4));
    assert_eq!(rt; part, *b"newe");
}

fn check_run(rt: &impl Abort, host: &HostRuntime, shelf: &mut FolderShelf<'_, HostRuntime>) {
    assert!(rt; !is_there(host, ".testrepository/draft"));
    assert_eq!(rt; put(shelf, "0", b"run"), Ok(()));
    assert_eq!(rt; put(shelf, "0", b"other"), Err(Failed));
}

fn check_cache_and_run(
    rt: &impl Abort,
    host: &HostRuntime,
    shelf: &mut FolderShelf<'_, HostRuntime>,
) {
    check_cache(rt, shelf);
    check_run(rt, host, shelf);
}

// The shelf that put a cache reads the new one, wherever it has read the old one.
#[test]
fn a_cache_is_replaced(rt: HostRuntime) -> Result<(), Fail> {
    enter_home(&rt, "cache")?;
    check_cache_and_run(&rt, &rt, &mut shelf_alone(&rt));
    leave_home(&rt, "cache")?;
    Ok(())
}

fn check_grown(rt: &impl Abort, host: &HostRuntime, shelf: &mut FolderShelf<'_, HostRuntime>) {
    let mut part = [0u8; 4];
    assert_eq!(rt; shelf.read_at("0", 0, &mut part), Ok(4));
    assert!(rt; shell(host, "printf more >> .testrepository/0").is_ok());
    assert_eq!(rt; shelf.read_at("0", 4, &mut part), Ok(1));
    assert_eq!(rt; shelf.read_at("0", 5, &mut part), Ok(0));
}

fn check_grown_anew(rt: &impl Abort, shelf: &mut FolderShelf<'_, HostRuntime>) {
    let mut part = [0u8; 4];
    assert_eq!(rt; shelf.read_at("0", 6, &mut part), Ok(3));
    assert_eq!(rt; part, *b"ore\0");
}

// It is read to the end that it had when it was opened: as a run that is copied into itself.
#[test]
fn a_file_that_grows_has_an_end(rt: HostRuntime) -> Result<(), Fail> {
    enter_home(&rt, "grown")?;
    publish_one(&rt, "0")?;
    check_grown(&rt, &rt, &mut shelf_together(&rt));
    check_grown_anew(&rt, &mut shelf_together(&rt));
    leave_home(&rt, "grown")?;
    Ok(())
}

// Gives a cache's name to what the command that begins so makes.
fn make_cache(rt: &HostRuntime, text: &str) -> io::Result<()> {
    let command = format!(in rt.alloc();
        "mkdir -p .testrepository; cd .testrepository; rm -rf times.set; {text} times.set"
    )?;
    shell(rt, command.as_str())
}

fn check_strange_cache(rt: &impl Abort, host: &HostRuntime, text: &str) -> io::Result<()> {
    make_cache(host, text)?;
    let is_put = publish_one(host, "times.set").is_ok();
    assert_eq!(rt; is_put, text != "mkdir");
    assert_eq!(rt; holds(host, ".testrepository/times.set", "first"), is_put);
    assert!(rt; !is_there(host, ".testrepository/draft"));
    Ok(())
}

// A link and a pipe give way, and what the link leads to does not change. A folder stays.
#[test]
fn a_cache_gets_its_name_whatever_file_has_it(rt: HostRuntime) -> Result<(), Fail> {
    enter_home(&rt, "strange-cache")?;
    fs::write(&rt, "dotfile", "mine")?;
    check_strange_cache(&rt, &rt, "ln -s ../dotfile")?;
    check_strange_cache(&rt, &rt, "mkfifo")?;
    check_strange_cache(&rt, &rt, "mkdir")?;
    assert!(rt; holds(&rt, "dotfile", "mine"));
    leave_home(&rt, "strange-cache")?;
    Ok(())
}

fn mode_of(rt: &HostRuntime, path: &str) -> io::Result<u32> {
    Ok(fs::metadata(rt, path)?.mode() & 0o7777)
}

fn check_modes(rt: &impl Abort, host: &HostRuntime) -> io::Result<()> {
    let file = mode_of(host, "file")?;
    assert_eq!(rt; mode_of(host, ".testrepository/0")?, file);
    assert_eq!(rt; mode_of(host, ".testrepository/lock")?, file);
    let folder = mode_of(host, "folder")?;
    assert_eq!(rt; mode_of(host, ".testrepository")?, folder);
    Ok(())
}

// Whatever the umask is, files and folders have the modes that the shell gives its own under it.
#[test]
fn modes_are_left_to_the_umask(rt: HostRuntime) -> Result<(), Fail> {
    enter_home(&rt, "modes")?;
    shell(&rt, ": > file; mkdir folder")?;
    publish_one(&rt, "0")?;
    check_modes(&rt, &rt)?;
    leave_home(&rt, "modes")?;
    Ok(())
}

fn check_given_up(rt: &impl Abort, host: &HostRuntime, shelf: &mut FolderShelf<'_, HostRuntime>) {
    assert_eq!(rt; shelf.start_draft(), Ok(()));
    assert_eq!(rt; shelf.append(b"first"), Ok(()));
    assert!(rt; is_there(host, ".testrepository/draft"));
    shelf.give_up();
    assert!(rt; !is_there(host, ".testrepository/draft"));
    assert_eq!(rt; shelf.append(b"first"), Err(Failed));
}

#[test]
fn a_draft_that_is_given_up_is_removed(rt: HostRuntime) -> Result<(), Fail> {
    enter_home(&rt, "given-up")?;
    check_given_up(&rt, &rt, &mut shelf_alone(&rt));
    leave_home(&rt, "given-up")?;
    Ok(())
}
