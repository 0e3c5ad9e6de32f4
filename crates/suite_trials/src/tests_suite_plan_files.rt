//! The files that a run is planned from: what they give, and each refusal.

use edge_io::MapSite;
use std::alloc::Global;
use std::test::Fail;
use sub_number::{Bytes, IdList, Text};
use suite_plan::{
    BadConf, ConfFile, ConfRefusal, ListRefusal, PatternListRefusal, TableRefusal,
    count_processors, read_conf, read_load_list, read_pattern_list,
};
use testr_conf::Conf;
use testr_words::{Face, ProjectWords};

const CONF: &[u8] = b".testr.conf";

const TABLE: &[u8] = b"/proc/cpuinfo";

const WHOLE: &[u8] =
    b"[DEFAULT]\ntest_command=OS_STDOUT_CAPTURE=${OS_STDOUT_CAPTURE:-1} \\\n             ${PYTHON:-python} -m subunit.run discover -t ./ . $LISTOPT $IDOPTION\ntest_id_option=--load-list $IDFILE\ntest_list_option=--list\n";

const LOADS: &[u8] = b"[DEFAULT]\ntest_command=run $IDOPTION\ntest_id_option=$IDFILE\n";

const WHOLE_LIST: &[u8] =
    b"OS_STDOUT_CAPTURE=${OS_STDOUT_CAPTURE:-1} \\\n${PYTHON:-python} -m subunit.run discover -t ./ . --list ";

// A site with one file, whose reads fail at these calls.
fn site(alloc: Global, name: &[u8], bytes: &[u8], fails: &[u64]) -> Option<MapSite> {
    let fails = fails.to_vec(alloc).ok()?;
    let name = Text::new(alloc, name).ok()?;
    let bytes = Bytes::new(alloc, bytes).ok()?;
    let mut site = MapSite::new(alloc, fails);
    site.put(name, bytes).ok()?;
    Some(site)
}

// ---- the configuration

fn conf(alloc: Global, text: &[u8]) -> Option<Conf> {
    let mut site = site(alloc, CONF, text, &[])?;
    read_conf(alloc, Face::Testr, &ProjectWords::none(alloc), &mut site).ok()
}

fn no_conf(alloc: Global, name: &[u8], text: &[u8], fails: &[u64]) -> Option<ConfRefusal> {
    let mut site = site(alloc, name, text, fails)?;
    read_conf(alloc, Face::Testr, &ProjectWords::none(alloc), &mut site).err()
}

fn lists_by(alloc: Global, text: &[u8], command: &[u8]) -> Option<bool> {
    let job = conf(alloc, text)?.list_job(alloc).ok()?;
    Some(job.command.bytes() == command)
}

fn runs_by(alloc: Global, text: &[u8], command: &[u8]) -> Option<bool> {
    let job = conf(alloc, text)?.run_job(alloc, None, 0).ok()?;
    Some(job.command.bytes() == command)
}

#[test]
fn a_configuration_is_read_from_its_file(rt: HostRuntime) -> Result<(), Fail> {
    let alloc = rt.alloc();
    assert_eq!(rt; lists_by(alloc, WHOLE, WHOLE_LIST), Some(true));
    let ends = b"[DEFAULT]\r\ntest_command=run\r\n";
    assert_eq!(rt; runs_by(alloc, ends, b"run"), Some(true));
    Ok(())
}

// Whether this is the command of the id `a` on lane 0, of a project in this folder.
fn runs_in(alloc: Global, folder: &[u8], command: &[u8]) -> Option<bool> {
    let mut site = site(alloc, CONF, LOADS, &[])?;
    site.place_in(Text::new(alloc, folder).ok()?);
    let conf = read_conf(alloc, Face::Testr, &ProjectWords::none(alloc), &mut site).ok()?;
    let mut ids = IdList::new(alloc);
    ids.push(Text::new(alloc, b"a").ok()?).ok()?;
    let job = conf.run_job(alloc, Some(&ids), 0).ok()?;
    Some(job.command.bytes() == command)
}

#[test]
fn a_file_of_ids_stands_in_the_folder_of_the_site(rt: HostRuntime) -> Result<(), Fail> {
    let alloc = rt.alloc();
    assert_eq!(rt;
        runs_in(alloc, b"/srv/suite", b"run /srv/suite/.testr-ids.0"),
        Some(true)
    );
    assert_eq!(rt;
        runs_in(alloc, b"/srv/my suite", b"run .testr-ids.0"),
        Some(true)
    );
    Ok(())
}

#[test]
fn each_refusal_of_a_configuration(rt: HostRuntime) -> Result<(), Fail> {
    let alloc = rt.alloc();
    let rows: [(&[u8], BadConf); 6] = [
        (b"", BadConf::NoCommand),
        (b"[DEFAULT]\ntest_command=\n", BadConf::NoCommand),
        (b"[a] b\n", BadConf::BadLine(1)),
        (b"\nx=1\n", BadConf::NoSection(2)),
        (
            b"[DEFAULT]\ntest_command=a\ntest_command=b\n",
            BadConf::Repeated(3),
        ),
        (
            b"[DEFAULT]\ntest_command=a\ninstance_provision=x\n",
            BadConf::NoInstances,
        ),
    ];
    for row in &rows {
        let refused = ConfRefusal::Bad(ConfFile::TestrConf, row.1);
        assert!(rt; no_conf(alloc, CONF, row.0, &[]) == Some(refused));
    }
    assert!(rt; no_conf(alloc, b"testr.conf", WHOLE, &[]) == Some(ConfRefusal::Absent));
    assert!(rt; no_conf(alloc, CONF, WHOLE, &[0]) == Some(ConfRefusal::Site));
    assert!(rt; no_conf(alloc, CONF, WHOLE, &[1]) == Some(ConfRefusal::Site));
    assert!(rt; no_conf(alloc, CONF, WHOLE, &[2]) == None);
    Ok(())
}

// ---- the configurations of stestr

const LINES: &[u8] = b"[DEFAULT]\ntest_path=lines\n";

const TABLE_TEXT: &[u8] = b"[tool.stestr]\ntest_path = 'table'\n";

const OWN: &[u8] = b"[DEFAULT]\ntest_command=own\n";

fn put(alloc: Global, site: &mut MapSite, name: &[u8], bytes: &[u8]) -> Option<()> {
    if bytes.is_empty() {
        return Some(());
    }
    let name = Text::new(alloc, name).ok()?;
    site.put(name, Bytes::new(alloc, bytes).ok()?).ok()
}

// A site with these of the three files, where they are not empty, whose reads fail at these calls.
fn three(alloc: Global, files: [&[u8]; 3], fails: &[u64]) -> Option<MapSite> {
    let mut site = MapSite::new(alloc, fails.to_vec(alloc).ok()?);
    put(alloc, &mut site, CONF, files[0])?;
    put(alloc, &mut site, b".stestr.conf", files[1])?;
    put(alloc, &mut site, b"pyproject.toml", files[2])?;
    Some(site)
}

// Whether the files give this command of all tests.
fn three_run(alloc: Global, face: Face, files: [&[u8]; 3], command: &[u8]) -> Option<bool> {
    let mut site = three(alloc, files, &[])?;
    let conf = read_conf(alloc, face, &ProjectWords::none(alloc), &mut site).ok()?;
    let job = conf.run_job(alloc, None, 0).ok()?;
    Some(job.command.bytes() == command)
}

fn three_refused(
    alloc: Global,
    face: Face,
    files: [&[u8]; 3],
    fails: &[u64],
) -> Option<ConfRefusal> {
    let mut site = three(alloc, files, fails)?;
    read_conf(alloc, face, &ProjectWords::none(alloc), &mut site).err()
}

const OF_LINES: &[u8] =
    b"${PYTHON:-python3} -m stestr.subunit_runner.run discover -t \"./\" \"lines\"  ";

const OF_TABLE: &[u8] =
    b"${PYTHON:-python3} -m stestr.subunit_runner.run discover -t \"./\" \"table\"  ";

#[test]
fn the_first_file_that_is_there_is_read(rt: HostRuntime) {
    let alloc = rt.alloc();
    let rows: [(Face, [&[u8]; 3], &[u8]); 6] = [
        (Face::Testr, [OWN, LINES, TABLE_TEXT], b"own"),
        (Face::Stestr, [OWN, LINES, TABLE_TEXT], OF_LINES),
        (Face::Testr, [b"", LINES, TABLE_TEXT], OF_LINES),
        (Face::Stestr, [OWN, b"", TABLE_TEXT], b"own"),
        (Face::Testr, [b"", b"", TABLE_TEXT], OF_TABLE),
        (Face::Stestr, [b"", b"", TABLE_TEXT], OF_TABLE),
    ];
    for row in &rows {
        assert!(rt; three_run(alloc, row.0, row.1, row.2) == Some(true));
    }
}

#[test]
fn a_refusal_names_the_file_that_is_read(rt: HostRuntime) {
    let alloc = rt.alloc();
    let lines = ConfFile::StestrConf;
    let rows: [([&[u8]; 3], ConfRefusal); 5] = [
        (
            [b"", b"[DEFAULT]\ntest_path=$x\n", TABLE_TEXT],
            ConfRefusal::Bad(lines, BadConf::BadLine(2)),
        ),
        (
            [b"", b"[DEFAULT]\ntop_dir=x\n", TABLE_TEXT],
            ConfRefusal::Bad(lines, BadConf::NoTestPath),
        ),
        (
            [b"", b"", b"[tool.stestr]\n"],
            ConfRefusal::Bad(ConfFile::PyProject, BadConf::NoTestPath),
        ),
        (
            [b"", b"", b"["],
            ConfRefusal::Bad(ConfFile::PyProject, BadConf::NotToml),
        ),
        ([b"", b"", b"[project]\n"], ConfRefusal::Absent),
    ];
    for row in &rows {
        assert!(rt; three_refused(alloc, Face::Testr, row.0, &[]) == Some(row.1));
    }
    let files: [&[u8]; 3] = [b"", b"", TABLE_TEXT];
    for call in [0, 1, 2, 3] {
        assert!(rt; three_refused(alloc, Face::Testr, files, &[call]) == Some(ConfRefusal::Site));
    }
}

// What is said of the project by these words: a path, a pattern of groups, and a word behind the command.
fn words(alloc: Global, path: &[u8], pattern: &[u8], behind: &[u8]) -> Option<ProjectWords> {
    let mut words = ProjectWords::none(alloc);
    words.test_path = Text::new(alloc, path).ok();
    words.group_regex = Text::new(alloc, pattern).ok();
    words.arguments.push(Text::new(alloc, behind).ok()?).ok()?;
    Some(words)
}

// Whether the file gives this command and this pattern with these words: a path, a pattern and one behind.
fn words_give(alloc: Global, files: [&[u8]; 3], command: &[u8], pattern: &[u8]) -> Option<bool> {
    let words = words(alloc, b"p", b"g", b"v")?;
    let mut site = three(alloc, files, &[])?;
    let conf = read_conf(alloc, Face::Testr, &words, &mut site).ok()?;
    let job = conf.run_job(alloc, None, 0).ok()?;
    Some(job.command.bytes() == command && conf.group_regex()?.bytes() == pattern)
}

#[test]
fn words_stand_before_what_the_files_say(rt: HostRuntime) {
    let alloc = rt.alloc();
    let path = b"${PYTHON:-python3} -m stestr.subunit_runner.run discover -t \"./\" \"p\"   'v'";
    assert!(rt; words_give(alloc, [b"", LINES, b""], path, b"g") == Some(true));
    assert!(rt; words_give(alloc, [b"", b"", b"[tool.stestr]\n"], path, b"g") == Some(true));
    assert!(rt; words_give(alloc, [OWN, LINES, b""], b"own 'v'", b"g") == Some(true));
}

// ---- lists of ids

fn listed(alloc: Global, text: &[u8]) -> Option<IdList> {
    let mut site = site(alloc, b"ids", text, &[])?;
    read_load_list(alloc, &mut site, "ids").ok()
}

fn not_listed<'a>(
    alloc: Global,
    text: &[u8],
    name: &'a str,
    fails: &[u64],
) -> Option<ListRefusal<'a>> {
    let mut site = site(alloc, b"ids", text, fails)?;
    read_load_list(alloc, &mut site, name).err()
}

fn is_refused(
    alloc: Global,
    text: &[u8],
    name: &str,
    fails: &[u64],
    refusal: ListRefusal<'_>,
) -> bool {
    not_listed(alloc, text, name, fails) == Some(refusal)
}

fn are_ids(list: &[Text], ids: &[&[u8]]) -> bool {
    if list.len() != ids.len() {
        return false;
    }
    for (id, given) in list.iter().zip(ids) {
        if id.bytes() != *given {
            return false;
        }
    }
    true
}

fn ids_are(alloc: Global, text: &[u8], ids: &[&[u8]]) -> Option<bool> {
    let list = listed(alloc, text)?;
    Some(are_ids(list.list(), ids))
}

#[test]
fn a_list_keeps_its_order_and_its_repeats(rt: HostRuntime) -> Result<(), Fail> {
    let alloc = rt.alloc();
    let text = b" b c \r\n\n\ta\n \t\nb c";
    assert_eq!(rt; ids_are(alloc, text, &[b"b c", b"a", b"b c"]), Some(true));
    assert_eq!(rt; ids_are(alloc, b"", &[]), Some(true));
    Ok(())
}

#[test]
fn each_refusal_of_a_list(rt: HostRuntime) -> Result<(), Fail> {
    let alloc = rt.alloc();
    assert!(rt;
        is_refused(
            alloc,
            b"a\n\xff\n\xff\n",
            "ids",
            &[],
            ListRefusal::NotId("ids", 2)
        )
    );
    assert!(rt;
        is_refused(
            alloc,
            b"a\n\nb\0c",
            "ids",
            &[],
            ListRefusal::NotId("ids", 3)
        )
    );
    assert!(rt; is_refused(alloc, b"a\n", "others", &[], ListRefusal::Absent("others")));
    assert!(rt; is_refused(alloc, b"a\n", "ids", &[0], ListRefusal::Site));
    assert!(rt; is_refused(alloc, b"a\n", "ids", &[1], ListRefusal::Site));
    Ok(())
}

// ---- lists of patterns

const COMMENTED: &[u8] = b"# ids\n ^a # first\n\nb c#d\n \t# none\n(\n";

// What a list of patterns is refused with: the line of a list, or the line of a bad pattern and the pattern.
type NotPatterns = (Option<ListRefusal<'static>>, Option<(u32, &'static [u8])>);

fn are_refused_so(refusal: &PatternListRefusal<'_>, wanted: &NotPatterns) -> bool {
    match refusal {
        PatternListRefusal::List(refusal) => wanted.0 == Some(*refusal),
        PatternListRefusal::Bad(line) => {
            line.name == "ids"
                && wanted.1.is_some_and(|bad| bad.0 == line.number && bad.1 == line.pattern.bytes())
        }
    }
}

fn patterns_refused(
    alloc: Global,
    text: &[u8],
    name: &'static str,
    fails: &[u64],
    wanted: &NotPatterns,
) -> Option<bool> {
    let mut site = site(alloc, b"ids", text, fails)?;
    match read_pattern_list(alloc, &mut site, name) {
        Ok(_) => Some(false),
        Err(refusal) => Some(are_refused_so(&refusal, wanted)),
    }
}

// Whether some pattern of the list is found in the id.
fn is_found(alloc: Global, text: &[u8], id: &[u8]) -> Option<bool> {
    let mut site = site(alloc, b"ids", text, &[])?;
    let filters = read_pattern_list(alloc, &mut site, "ids").ok()?;
    let id = Text::new(alloc, id).ok()?;
    filters.found(alloc, &id).ok()
}

#[test]
fn a_list_of_patterns_has_comments(rt: HostRuntime) -> Result<(), Fail> {
    let alloc = rt.alloc();
    let text: &[u8] = b"# x\n ^a # first\n\nb c#d\n \t# none\n";
    let rows: [(&[u8], bool); 5] = [
        (b"a", true),
        (b"ba", false),
        (b"xb cx", true),
        (b"x # first", false),
        (b"c#d", false),
    ];
    for row in &rows {
        assert_eq!(rt; is_found(alloc, text, row.0), Some(row.1));
    }
    assert_eq!(rt; is_found(alloc, b"#\xff\n", b"a"), Some(false));
    Ok(())
}

#[test]
fn each_refusal_of_a_list_of_patterns(rt: HostRuntime) -> Result<(), Fail> {
    let alloc = rt.alloc();
    let bad: NotPatterns = (None, Some((6, b"(")));
    assert_eq!(rt;
        patterns_refused(alloc, COMMENTED, "ids", &[], &bad),
        Some(true)
    );
    let other: NotPatterns = (Some(ListRefusal::NotId("ids", 2)), None);
    assert_eq!(rt;
        patterns_refused(alloc, b"(\n\xff#\n", "ids", &[], &other),
        Some(true)
    );
    let absent: NotPatterns = (Some(ListRefusal::Absent("others")), None);
    assert_eq!(rt;
        patterns_refused(alloc, b"a\n", "others", &[], &absent),
        Some(true)
    );
    let failed: NotPatterns = (Some(ListRefusal::Site), None);
    assert_eq!(rt;
        patterns_refused(alloc, b"a\n", "ids", &[1], &failed),
        Some(true)
    );
    Ok(())
}

// ---- the processors

fn counted(
    alloc: Global,
    name: &[u8],
    table: &[u8],
    fails: &[u64],
) -> Option<Result<u32, TableRefusal>> {
    let mut site = site(alloc, name, table, fails)?;
    Some(count_processors(alloc, &mut site))
}

fn table_of(alloc: Global, processors: u32) -> Option<Vec<u8>> {
    let mut table = Vec::new(alloc);
    for _ in 0..processors {
        table
            .extend_from_slice(b"processor\t: 0\nmodel name\t: x\n\n")
            .ok()?;
    }
    Some(table)
}

fn workers(alloc: Global, processors: u32) -> Option<Result<u32, TableRefusal>> {
    let table = table_of(alloc, processors)?;
    counted(alloc, TABLE, &table, &[])
}

#[test]
fn processors_are_counted_by_lines(rt: HostRuntime) -> Result<(), Fail> {
    let alloc = rt.alloc();
    let table = b"Processor\n processor\nprocessor\nmodel processor\nprocessors\nprocessor";
    assert!(rt; counted(alloc, TABLE, table, &[]) == Some(Ok(3)));
    assert!(rt; counted(alloc, b"cpuinfo", table, &[]) == Some(Ok(1)));
    for read in 0..2 {
        assert!(rt; counted(alloc, TABLE, table, &[read]) == Some(Err(TableRefusal::Site)));
    }
    Ok(())
}

#[test]
fn the_number_of_workers_is_1_to_64(rt: HostRuntime) -> Result<(), Fail> {
    let alloc = rt.alloc();
    let rows = [(0, 1), (1, 1), (2, 2), (64, 64), (65, 64)];
    for row in rows {
        assert!(rt; workers(alloc, row.0) == Some(Ok(row.1)));
    }
    Ok(())
}
