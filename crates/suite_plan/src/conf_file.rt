//! The configuration of a project, read from its file.

ghost use Rattle.std.specs.Prelude.{◌≡◌, ◌≤◌, ◌⊎◌, ◌++◌, ◌∷◌, [], length, Ok, Err, IfOk, IfErr, OnOk};
ghost use Rattle.suite_plan.specs.ConfFile.{ReadsConf, ReadsOwnConf, ReadsSaid, placed_on, conf_file_name, file_says, files_say, later_say, project_settings, first_file, second_file, lines_say, unless_elsewhere, values_say, stestr_says, table_says, text_says, unread_conf, refused_lines, refused_values, refused_table};
ghost use Rattle.suite_plan.specs.declared.conf_file.ConfRefusal.TheVariants.{NoMemory};
ghost use Rattle.stestr_conf.specs.Table.{table_of};
ghost use Rattle.testr_conf.specs.Settings.{conf_of, on_instances};
ghost use Rattle.testr_conf.specs.Stestr.{stestr_of};

use crate::texts::MOST_TEXT;
use edge_io::{ReadFault, Site, read_file};
use std::alloc::Global;
use stestr_conf::{SettleFault, TableFault, TableKey, read_table, settings_of_values};
use sub_number::{IdList, NoMemory as OutOfMemory, Text};
use testr_conf::{Conf, ConfFault, StestrValues};
use testr_words::{Face, ProjectWords};

/// A file that may have the configuration of a project.
#[derive(Clone, Copy, Debug, PartialEq, Eq)]
pub enum ConfFile {
    /// `.testr.conf`.
    TestrConf,
    /// `.stestr.conf`.
    StestrConf,
    /// `pyproject.toml`.
    PyProject,
}

impl ConfFile {
    // The name of the file.
    fn name(self) -> &'static str
        ensures { result.now ≡ conf_file_name self }
    {
        match self {
            ConfFile::TestrConf => ".testr.conf",
            ConfFile::StestrConf => ".stestr.conf",
            ConfFile::PyProject => "pyproject.toml",
        }
    }
}

/// Why a file is no configuration. Lines are counted from 1.
#[derive(Clone, Copy, Debug, PartialEq, Eq)]
pub enum BadConf {
    /// It has more than 16,777,216 bytes.
    TooLong,
    /// This line is no setting, or one that may not have its value.
    BadLine(u32),
    /// This line is a setting in front of any section.
    NoSection(u32),
    /// This line sets a key that an earlier one has set.
    Repeated(u32),
    /// It asks for instances, and none were provisioned.
    NoInstances,
    /// `test_command` is not set, or is empty.
    NoCommand,
    /// No path of the tests is set, or it is empty.
    NoTestPath,
    /// Its text is no TOML.
    NotToml,
    /// `tool.stestr` is no table.
    NotTable,
    /// This key has a value that it may not have.
    BadValue(TableKey),
}

/// Why no configuration was read.
#[derive(Clone, Copy, Debug, PartialEq, Eq)]
pub enum ConfRefusal {
    /// A read of a file failed.
    Site,
    /// There is no configuration.
    Absent,
    /// This file is none, for this reason.
    Bad(ConfFile, BadConf),
    /// There is not enough memory.
    NoMemory,
}

impl From<OutOfMemory> for ConfRefusal {
    ghost use Rattle.std.specs.Prelude.{◌≡◌};
    ghost use Rattle.suite_plan.specs.declared.conf_file.ConfRefusal.TheVariants as conf;

    ghost from_gives = { λ _ refusal. refusal ≡ conf.NoMemory };

    fn from(_: OutOfMemory) -> Self {
        ConfRefusal::NoMemory
    }
}

// The refusal of a file that was not read whole.
fn unread(file: ConfFile, fault: ReadFault) -> ConfRefusal
    ensures { result ≡ unread_conf file fault }
{
    match fault {
        ReadFault::Failed => ConfRefusal::Site,
        ReadFault::TooLong => ConfRefusal::Bad(file, BadConf::TooLong),
        ReadFault::NoMemory => ConfRefusal::NoMemory,
    }
}

// That of a file whose lines are refused.
fn bad_lines(file: ConfFile, fault: ConfFault) -> ConfRefusal
    ensures { result ≡ refused_lines file fault }
{
    match fault {
        ConfFault::BadLine(number) => ConfRefusal::Bad(file, BadConf::BadLine(number)),
        ConfFault::NoSection(number) => ConfRefusal::Bad(file, BadConf::NoSection(number)),
        ConfFault::Repeated(number) => ConfRefusal::Bad(file, BadConf::Repeated(number)),
        ConfFault::NoCommand => ConfRefusal::Bad(file, BadConf::NoCommand),
        ConfFault::NoMemory => ConfRefusal::NoMemory,
    }
}

// That of a file whose values give no settings.
fn bad_values(file: ConfFile, fault: SettleFault) -> ConfRefusal
    ensures { result ≡ refused_values file fault }
{
    match fault {
        SettleFault::NoTestPath => ConfRefusal::Bad(file, BadConf::NoTestPath),
        SettleFault::NoMemory => ConfRefusal::NoMemory,
    }
}

// That of a `pyproject.toml`.
fn bad_table(fault: TableFault) -> ConfRefusal
    ensures { result ≡ refused_table fault }
{
    let file = ConfFile::PyProject;
    match fault {
        TableFault::NotToml => ConfRefusal::Bad(file, BadConf::NotToml),
        TableFault::NotTable => ConfRefusal::Bad(file, BadConf::NotTable),
        TableFault::BadValue(key) => ConfRefusal::Bad(file, BadConf::BadValue(key)),
        TableFault::NoMemory => ConfRefusal::NoMemory,
    }
}

/// The configuration of a project, as `read_own_conf` reads it: of one whose jobs run on the instances that were provisioned for
/// it, or of one that asks for none. Of one that asks for instances and has none, `Bad` comes, with `NoInstances`.
pub fn read_conf<F: Site>(
    alloc: Global,
    face: Face,
    words: &ProjectWords,
    site: &mut F,
) -> Result<Conf, ConfRefusal>
    ensures step { ReadsConf (record { folder = F.folder site.old; face = face; words = words.now }) (F.seen site.old) (F.seen site.new) result }
{
    match read_own_conf(alloc, face, words, site) {
        Ok(conf) => place(alloc, words, conf),
        Err(refusal) => Err(refusal),
    }
}

// The settings on the instances that were provisioned, or here.
fn place(alloc: Global, words: &ProjectWords, conf: Conf) -> Result<Conf, ConfRefusal>
    ensures { (placed_on words.now.instances conf ≡ result) ⊎ (result ≡ Err NoMemory) }
{
    match &words.instances {
        Some(instances) => place_on(alloc, instances, conf),
        None => unless_elsewhere(conf),
    }
}

// The settings on these instances.
fn place_on(alloc: Global, instances: &IdList, conf: Conf) -> Result<Conf, ConfRefusal>
    ensures { (result ≡ Ok (on_instances instances.now conf)) ⊎ (result ≡ Err NoMemory) }
{
    match copied_list(alloc, instances.list()) {
        Ok(copies) => Ok(conf.on_instances(copies)),
        Err(OutOfMemory) => Err(ConfRefusal::NoMemory),
    }
}

// The settings, unless they ask for instances: where none were provisioned, no job runs.
fn unless_elsewhere(conf: Conf) -> Result<Conf, ConfRefusal>
    ensures { result ≡ unless_elsewhere conf }
{
    if conf.asks_instances() {
        return Err(ConfRefusal::Bad(ConfFile::TestrConf, BadConf::NoInstances));
    }
    Ok(conf)
}

/// The configuration of a project that stands in the folder of the site, by the first of its files that is there, each of
/// at most 16,777,216 bytes: for `stestr` this is `.stestr.conf` before `.testr.conf`. The words stand before what the
/// file says. Whether the project asks for instances is not judged.
///
/// `Absent` comes exactly where no file is there that has a configuration, and `Bad` exactly where the first that is there
/// is refused so. `Site` comes only where a read failed, which counts, and `NoMemory` only for want of memory; each may come
/// before any of the others is seen. No file changes.
pub fn read_own_conf<F: Site>(
    alloc: Global,
    face: Face,
    words: &ProjectWords,
    site: &mut F,
) -> Result<Conf, ConfRefusal>
    ensures step { ReadsOwnConf (record { folder = F.folder site.old; face = face; words = words.now }) (F.seen site.old) (F.seen site.new) result }
    ensures path { F.folder site.new ≡ F.folder site.old }
{
    let Ok(folder) = String::from_str(alloc, site.folder()) else {
        return Err(ConfRefusal::NoMemory);
    };
    match read_files(alloc, face, words, site) {
        Ok(Some(conf)) => of_project(alloc, folder, words, conf),
        Ok(None) => Err(ConfRefusal::Absent),
        Err(refusal) => Err(refusal),
    }
}

// The settings, of a project in the folder of this path, of which these words say something.
fn of_project(
    alloc: Global,
    folder: String,
    words: &ProjectWords,
    conf: Conf,
) -> Result<Conf, ConfRefusal>
    ensures settings { IfOk result (λ settings. settings ≡ project_settings folder.bytes.items words.now conf) }
    ensures memory { IfErr result (λ refusal. refusal ≡ NoMemory) }
{
    let pattern = copied(&words.group_regex)?;
    let arguments = copied_list(alloc, words.arguments.list())?;
    let conf = conf.place_in(folder).grouped_by(pattern);
    Ok(conf.with_arguments(arguments))
}

fn copied(text: &Option<Text>) -> Result<Option<Text>, OutOfMemory>
    ensures { IfOk result (λ copy. copy ≡ text.now) }
{
    match text {
        Some(text) => Ok(Some(text.copy()?)),
        None => Ok(None),
    }
}

// Copies of the texts, in their order.
pub(crate) fn copied_list(alloc: Global, texts: &[Text]) -> Result<IdList, OutOfMemory>
    ensures { IfOk result (λ copies. copies ≡ texts.now) }
{
    let mut copies = IdList::new(alloc);
    for text in texts {
        push_copy(text, &mut copies)?;
    }
    Ok(copies)
}

fn push_copy(text: &Text, copies: &mut IdList) -> Result<(), OutOfMemory>
    ensures { OnOk result (copies.new ≡ copies.old ++ text.now ∷ []) }
{
    match copies.push(text.copy()?) {
        Ok(()) => Ok(()),
        Err(_) => Err(OutOfMemory),
    }
}

// What the first of the files says that is there.
fn read_files<F: Site>(
    alloc: Global,
    face: Face,
    words: &ProjectWords,
    site: &mut F,
) -> Result<Option<Conf>, ConfRefusal>
    ensures step { ReadsSaid (files_say face words.now) (F.seen site.old) (F.seen site.new) result }
    ensures path { F.folder site.new ≡ F.folder site.old }
{
    match read_one(alloc, words, first(face), site) {
        Ok(None) => read_later(alloc, face, words, site),
        Ok(Some(conf)) => Ok(Some(conf)),
        Err(refusal) => Err(refusal),
    }
}

// The same where the first one is not there.
fn read_later<F: Site>(
    alloc: Global,
    face: Face,
    words: &ProjectWords,
    site: &mut F,
) -> Result<Option<Conf>, ConfRefusal>
    ensures step { ReadsSaid (later_say face words.now) (F.seen site.old) (F.seen site.new) result }
    ensures path { F.folder site.new ≡ F.folder site.old }
{
    match read_one(alloc, words, second(face), site) {
        Ok(None) => read_one(alloc, words, ConfFile::PyProject, site),
        Ok(Some(conf)) => Ok(Some(conf)),
        Err(refusal) => Err(refusal),
    }
}

// The file that is looked for first.
fn first(face: Face) -> ConfFile
    ensures { result ≡ first_file face }
{
    match face {
        Face::Testr => ConfFile::TestrConf,
        Face::Stestr => ConfFile::StestrConf,
    }
}

// The file that is looked for where that is not there.
fn second(face: Face) -> ConfFile
    ensures { result ≡ second_file face }
{
    match face {
        Face::Testr => ConfFile::StestrConf,
        Face::Stestr => ConfFile::TestrConf,
    }
}

// What this one of the files says.
fn read_one<F: Site>(
    alloc: Global,
    words: &ProjectWords,
    file: ConfFile,
    site: &mut F,
) -> Result<Option<Conf>, ConfRefusal>
    ensures step { ReadsSaid (file_says words.now file) (F.seen site.old) (F.seen site.new) result }
    ensures path { F.folder site.new ≡ F.folder site.old }
{
    match read_file(alloc, site, file.name(), MOST_TEXT) {
        Ok(Some(text)) => read_text(alloc, words, file, &text),
        Ok(None) => Ok(None),
        Err(fault) => Err(unread(file, fault)),
    }
}

// What the text of that file says.
fn read_text(
    alloc: Global,
    words: &ProjectWords,
    file: ConfFile,
    text: &[u8],
) -> Result<Option<Conf>, ConfRefusal>
    requires { length text.now ≤ 16777216 }
    ensures { (text_says words.now file text.now ≡ result) ⊎ (result ≡ Err NoMemory) }
{
    match file {
        ConfFile::TestrConf => read_testr(alloc, text),
        ConfFile::StestrConf => read_stestr(alloc, words, text),
        ConfFile::PyProject => read_pyproject(alloc, words, text),
    }
}

// What the lines of a `.testr.conf` say.
fn read_testr(alloc: Global, text: &[u8]) -> Result<Option<Conf>, ConfRefusal>
    requires { length text.now ≤ 16777216 }
    ensures { (lines_say (conf_of text.now) ≡ result) ⊎ (result ≡ Err NoMemory) }
{
    match Conf::read(alloc, text) {
        Ok(conf) => Ok(Some(conf)),
        Err(fault) => Err(bad_lines(ConfFile::TestrConf, fault)),
    }
}

// What the lines of a `.stestr.conf` say.
fn read_stestr(
    alloc: Global,
    words: &ProjectWords,
    text: &[u8],
) -> Result<Option<Conf>, ConfRefusal>
    requires { length text.now ≤ 16777216 }
    ensures { (stestr_says words.now (stestr_of text.now) ≡ result) ⊎ (result ≡ Err NoMemory) }
{
    match StestrValues::read(alloc, text) {
        Ok(values) => settle_values(alloc, words, ConfFile::StestrConf, &values),
        Err(fault) => Err(bad_lines(ConfFile::StestrConf, fault)),
    }
}

// What the table of a `pyproject.toml` says.
fn read_pyproject(
    alloc: Global,
    words: &ProjectWords,
    text: &[u8],
) -> Result<Option<Conf>, ConfRefusal>
    ensures { (table_says words.now (table_of text.now) ≡ result) ⊎ (result ≡ Err NoMemory) }
{
    match read_table(alloc, text) {
        Ok(Some(values)) => settle_values(alloc, words, ConfFile::PyProject, &values),
        Ok(None) => Ok(None),
        Err(fault) => Err(bad_table(fault)),
    }
}

// What the values of a file say, where the words stand before them.
fn settle_values(
    alloc: Global,
    words: &ProjectWords,
    file: ConfFile,
    values: &StestrValues,
) -> Result<Option<Conf>, ConfRefusal>
    ensures { (values_say words.now file values.now ≡ result) ⊎ (result ≡ Err NoMemory) }
{
    match settings_of_values(
        alloc,
        words.test_path.as_ref(),
        words.top_dir.as_ref(),
        values,
    ) {
        Ok(conf) => Ok(Some(conf)),
        Err(fault) => Err(bad_values(file, fault)),
    }
}
