//! The configuration of a project.

ghost use Rattle.std.specs.Prelude.{◌≡◌, ◌≤◌, ◌<◌, ◌⊎◌, [], length, IfOk, IfErr, IfSome};
ghost use Rattle.std.specs.List.{slice_get};
ghost use Rattle.std.specs.Option.{option_copied, unwrap_or};
ghost use Rattle.sub_number.specs.Texts.{IsText};
ghost use Rattle.testr_conf.specs.Settings.{conf_of, settings_in, unless_empty, words_in, or_given, grouped_by, with_arguments, on_instances, asks_instances};
ghost use Rattle.testr_conf.specs.Stestr.{command_settings};
ghost use Rattle.testr_conf.specs.Steps.{settled};
ghost use Rattle.std.specs.Fmt.{decimal};
ghost use Rattle.testr_conf.specs.Jobs.{list_job_of, list_job_by, own_all_job_of, all_job_of, ids_job, ids_job_by, followed, id_list_of, plain_job, run_job_of, count_job_of, executed, executed_on, provision_job_of, dispose_job_of};
ghost use Rattle.testr_conf.specs.Variables.{filled, of_provision, of_dispose};

use crate::fault::{ConfFault, JobFault, Key};
use crate::found_values::Found;
use crate::job::{append_words, decimal_text, files_value, id_file, id_path, join_ids, plain_job};
use crate::line_reader::read_lines;
use crate::name::Dialect;
use crate::variable::{
    ExecuteValues, TestValues, Values, Variable, fill_test, fill_variables, has_variable,
};
use crate::white_space::read_words;
use edge_io::Job;
use packet_codec::Tags;
use std::alloc::Global;
use std::marker::Model;
use sub_number::{Bytes, IdList, NoMemory, Text};

/// The settings of a `.testr.conf`. Contracts see it as the record of what is set.
#[derive(Drop)]
pub struct Conf {
    folder: String,
    command: Text,
    id_option: Option<Text>,
    list_option: Option<Text>,
    id_list: Option<Text>,
    concurrency: Option<Text>,
    group_regex: Option<Text>,
    filter_tags: Tags,
    arguments: IdList,
    provision: Option<Text>,
    execute: Option<Text>,
    dispose: Option<Text>,
    instances: IdList,
}

impl Model for Conf {
    ghost use Rattle.testr_conf.specs.Settings.{Settings};

    ghost Value = { Settings };

    ghost view = { λ c. record {
      folder = c.folder.bytes.items;
      command = c.command;
      id_option = c.id_option;
      list_option = c.list_option;
      id_list = c.id_list;
      concurrency = c.concurrency;
      group_regex = c.group_regex;
      filter_tags = c.filter_tags;
      arguments = c.arguments;
      provision = c.provision;
      execute = c.execute;
      dispose = c.dispose;
      instances = c.instances;
    } };
}

// A value that is not empty.
pub(crate) fn unless_empty(value: Option<Text>) -> Option<Text>
    ensures { result ≡ unless_empty value }
{
    match value {
        Some(text) if !text.bytes().is_empty() => Some(text),
        _ => None,
    }
}

// The value, where it is there and not empty, and else what is the project's own.
fn or_given(given: Option<Text>, own: Option<Text>) -> Option<Text>
    ensures { result ≡ or_given given own }
{
    match unless_empty(given) {
        Some(text) => Some(text),
        None => own,
    }
}

fn read_tags(alloc: Global, value: Option<Text>) -> Result<Tags, NoMemory>
    ensures { IfOk result (λ tags. tags ≡ words_in (unless_empty value)) }
{
    match value {
        Some(text) => read_words(alloc, text.bytes()),
        None => Ok(Tags::new(alloc)),
    }
}

impl Conf {
    /// The configuration that a text of at most 16 MiB gives (docs/FORMATS.md, "The configuration").
    ///
    /// `BadLine`, `NoSection` and `Repeated` come with the number of the first line that is refused, exactly where it
    /// is refused so; `NoCommand` comes exactly where no line is refused and
    /// `test_command` is not set or empty.
    pub fn read(alloc: Global, text: &[u8]) -> Result<Self, ConfFault>
        requires { length text.now ≤ 16777216 }
        ensures read { IfOk result (λ conf. conf_of text.now ≡ Ok conf) }
        ensures refused { IfErr result (λ fault. (conf_of text.now ≡ Err fault) ⊎ (fault ≡ ConfFault.NoMemory)) }
        ensures exactly { IfErr (conf_of text.now) (λ fault. (result ≡ Err fault) ⊎ (result ≡ Err ConfFault.NoMemory)) }
    {
        let found = read_lines(alloc, Dialect::Testr, text)?;
        Conf::settle(alloc, found)
    }

    fn settle(alloc: Global, found: Found) -> Result<Self, ConfFault>
        ensures ok { IfOk result (λ conf. settled found ≡ Ok conf) }
        ensures err { IfErr result (λ fault. (settled found ≡ Err fault) ⊎ (fault ≡ ConfFault.NoMemory)) }
    {
        let Some(command) = unless_empty(found.command) else {
            return Err(ConfFault::NoCommand);
        };
        Ok(Conf {
            folder: String::new(alloc),
            command,
            id_option: unless_empty(found.id_option),
            list_option: unless_empty(found.list_option),
            id_list: unless_empty(found.id_list),
            concurrency: unless_empty(found.concurrency),
            group_regex: unless_empty(found.group_regex),
            filter_tags: read_tags(alloc, found.filter_tags)?,
            arguments: IdList::new(alloc),
            provision: unless_empty(found.provision),
            execute: unless_empty(found.execute),
            dispose: unless_empty(found.dispose),
            instances: IdList::new(alloc),
        })
    }

    /// The settings of this command with these options for ids and for a listing, whose tests are grouped by this pattern.
    pub fn of_command(
        alloc: Global,
        command: Text,
        id_option: Text,
        list_option: Text,
        group_regex: Option<Text>,
    ) -> Self
        ensures { result ≡ command_settings command id_option list_option group_regex }
    {
        Conf {
            folder: String::new(alloc),
            command,
            id_option: Some(id_option),
            list_option: Some(list_option),
            id_list: None,
            concurrency: None,
            group_regex,
            filter_tags: Tags::new(alloc),
            arguments: IdList::new(alloc),
            provision: None,
            execute: None,
            dispose: None,
            instances: IdList::new(alloc),
        }
    }

    /// The same settings, of a project in the folder of this absolute path.
    pub fn place_in(self, folder: String) -> Self
        ensures { result ≡ settings_in folder.bytes.items self }
    {
        Conf { folder, ..self }
    }

    /// The same settings, whose tests are grouped by this pattern, where it is there and not empty.
    pub fn grouped_by(self, pattern: Option<Text>) -> Self
        ensures { result ≡ grouped_by pattern self }
    {
        Conf {
            group_regex: or_given(pattern, self.group_regex),
            ..self
        }
    }

    /// The same settings, with these words behind the command of each job that runs tests.
    pub fn with_arguments(self, arguments: IdList) -> Self
        ensures { result ≡ with_arguments arguments self }
    {
        Conf { arguments, ..self }
    }

    /// The same settings, whose jobs run on these instances: that of lane n on the n-th, the listing on that of lane 0.
    pub fn on_instances(self, instances: IdList) -> Self
        ensures { result ≡ on_instances instances self }
    {
        Conf { instances, ..self }
    }

    /// Whether the project asks for instances: `instance_provision` is set.
    pub fn asks_instances(&self) -> bool
        ensures { result ≡ asks_instances self.now }
    {
        self.provision.is_some()
    }

    /// The instances that its jobs run on.
    pub fn into_instances(self) -> IdList
        ensures { result ≡ self.instances }
    {
        self.instances
    }

    /// The pattern by which tests are grouped. `None` comes exactly where it is not set.
    pub fn group_regex(&self) -> Option<&Text>
        ensures { option_copied result ≡ self.now.group_regex }
    {
        self.group_regex.as_ref()
    }

    /// The tags whose tests a report leaves out of its counts, in order. There is none where they are not set.
    pub fn filter_tags(&self) -> &Tags
        ensures { result.now ≡ self.now.filter_tags }
    {
        &self.filter_tags
    }
}

impl Conf {
    /// The job that lists the tests: `test_command` with `$LISTOPT` replaced by `test_list_option`, and `$IDLIST` by
    /// `test_id_list_default`; on the instance of lane 0, where there is one.
    ///
    /// `NoOption` comes exactly where that is not set, or `$LISTOPT` is not in the command.
    pub fn list_job(&self, alloc: Global) -> Result<Job, JobFault>
        ensures job { IfOk result (λ job. list_job_of self.now ≡ Ok job) }
        ensures refused { IfErr result (λ fault. (list_job_of self.now ≡ Err fault) ⊎ (fault ≡ JobFault.NoMemory)) }
        ensures exactly { IfErr (list_job_of self.now) (λ fault. (result ≡ Err fault) ⊎ (result ≡ Err JobFault.NoMemory)) }
        ensures text { IfOk result (λ job. IsText job.command) }
    {
        let job = self.own_list_job(alloc)?;
        Ok(self.execute(alloc, job, 0)?)
    }

    // The same, wherever it runs.
    fn own_list_job(&self, alloc: Global) -> Result<Job, JobFault>
        ensures job { IfOk result (λ job. list_job_by self.now.command (unwrap_or self.now.id_list []) self.now.list_option ≡ Ok job) }
        ensures refused { IfErr result (λ fault. (list_job_by self.now.command (unwrap_or self.now.id_list []) self.now.list_option ≡ Err fault) ⊎ (fault ≡ JobFault.NoMemory)) }
        ensures text { IfOk result (λ job. IsText job.command) }
    {
        let Some(option) = &self.list_option else {
            return Err(JobFault::NoOption(Key::ListOption));
        };
        let command = self.command.bytes();
        if !has_variable(Variable::ListOption, command) {
            return Err(JobFault::NoOption(Key::ListOption));
        }
        let values = TestValues {
            id_option: b"",
            id_file: b"",
            id_list: bytes_or_none(&self.id_list),
            list_option: option.bytes(),
        };
        Ok(plain_job(fill_test(alloc, command, &values)?))
    }

    /// The job that tells how many tests may run at a time, which is `test_run_concurrency` as it is. `None` comes
    /// exactly where that is not set.
    pub fn count_job(&self, alloc: Global) -> Result<Option<Job>, NoMemory>
        ensures job { IfOk result (λ job. job ≡ count_job_of self.now) }
        ensures text { IfOk result (λ job. IfSome job (λ some. IsText some.command)) }
    {
        let Some(command) = &self.concurrency else {
            return Ok(None);
        };
        let command = Bytes::new(alloc, command.bytes())?;
        Ok(Some(Job {
            command,
            id_file: None,
        }))
    }

    /// The job of a lane that runs these tests, or that of all tests where there are no ids; on the instance of the lane, where
    /// there is one.
    ///
    /// With ids, `$IDFILE` is the path of the lane's id file, where that of the project's folder is known and no shell reads a
    /// byte of it, and else its name; `$IDLIST` the ids with a space between each two, and
    /// `$IDOPTION` is `test_id_option` with these replaced in it. Without them `$IDLIST` is `test_id_list_default`. All
    /// else is nothing. Behind the command stand the arguments, each between single quotes. `NoOption` comes exactly where there are ids, `$IDOPTION` is in the command and
    /// `test_id_option` is not set.
    pub fn run_job(&self, alloc: Global, ids: Option<&IdList>, lane: u32) -> Result<Job, JobFault>
        requires { lane < 64 }
        ensures job { IfOk result (λ job. run_job_of self.now (option_copied ids.entry) lane ≡ Ok job) }
        ensures refused { IfErr result (λ fault. (run_job_of self.now (option_copied ids.entry) lane ≡ Err fault) ⊎ (fault ≡ JobFault.NoMemory)) }
        ensures exactly { IfErr (run_job_of self.now (option_copied ids.entry) lane) (λ fault. (result ≡ Err fault) ⊎ (result ≡ Err JobFault.NoMemory)) }
        ensures text { IfOk result (λ job. IsText job.command) }
    {
        match ids {
            Some(ids) => self.job_of_ids(alloc, ids, lane),
            None => Ok(self.job_of_all(alloc)?),
        }
    }

    /// The job that provisions so many instances: `instance_provision` with `$INSTANCE_COUNT` replaced by the number. `None`
    /// comes exactly where that is not set.
    pub fn provision_job(&self, alloc: Global, count: u32) -> Result<Option<Job>, NoMemory>
        ensures job { IfOk result (λ job. job ≡ provision_job_of self.now count) }
        ensures text { IfOk result (λ job. IfSome job (λ some. IsText some.command)) }
    {
        match &self.provision {
            Some(text) => Ok(Some(provision_by(alloc, text, count)?)),
            None => Ok(None),
        }
    }

    /// The job that disposes of the instances: `instance_dispose` with `$INSTANCE_IDS` replaced by all of them, in their order,
    /// with a space between each two. `None` comes exactly where that is not set.
    pub fn dispose_job(&self, alloc: Global) -> Result<Option<Job>, NoMemory>
        ensures job { IfOk result (λ job. job ≡ dispose_job_of self.now) }
        ensures text { IfOk result (λ job. IfSome job (λ some. IsText some.command)) }
    {
        match &self.dispose {
            Some(text) => Ok(Some(dispose_by(alloc, text, &self.instances)?)),
            None => Ok(None),
        }
    }

    // The instance of a lane.
    fn instance(&self, lane: u32) -> Option<&Text>
        ensures { option_copied result ≡ slice_get self.now.instances lane }
    {
        self.instances.list().get(lane as usize)
    }

    // The job as it is run on the instance of the lane, where there is one.
    fn execute(&self, alloc: Global, job: Job, lane: u32) -> Result<Job, NoMemory>
        requires { IsText job.command }
        ensures job { IfOk result (λ done. done ≡ executed self.now lane job) }
        ensures text { IfOk result (λ done. IsText done.command) }
    {
        let Some(execute) = &self.execute else {
            return Ok(job);
        };
        match self.instance(lane) {
            Some(instance) => self.execute_on(alloc, execute, instance, job),
            None => Ok(job),
        }
    }

    // The job whose command is run on the instance by this text.
    fn execute_on(
        &self,
        alloc: Global,
        execute: &Text,
        instance: &Text,
        job: Job,
    ) -> Result<Job, NoMemory>
        requires { IsText job.command }
        ensures job { IfOk result (λ done. done ≡ executed_on self.now.folder execute.now instance.now job) }
        ensures text { IfOk result (λ done. IsText done.command) }
    {
        let files = files_value(alloc, self.folder.as_str(), &job.id_file)?;
        let values = Values::Execute(ExecuteValues {
            instance: instance.bytes(),
            files: &files,
            command: job.command.bytes(),
        });
        let command = Bytes::from_vec(fill_variables(alloc, execute.bytes(), &values)?);
        Ok(Job {
            command,
            id_file: job.id_file,
        })
    }

    fn job_of_all(&self, alloc: Global) -> Result<Job, NoMemory>
        ensures job { IfOk result (λ job. job ≡ all_job_of self.now) }
        ensures text { IfOk result (λ job. IsText job.command) }
    {
        let job = self.own_job_of_all(alloc)?;
        Ok(self.execute(alloc, job, 0)?)
    }

    // The same, wherever it runs.
    fn own_job_of_all(&self, alloc: Global) -> Result<Job, NoMemory>
        ensures job { IfOk result (λ job. job ≡ own_all_job_of self.now) }
        ensures text { IfOk result (λ job. IsText job.command) }
    {
        let values = TestValues {
            id_option: b"",
            id_file: b"",
            id_list: bytes_or_none(&self.id_list),
            list_option: b"",
        };
        let job = plain_job(fill_test(alloc, self.command.bytes(), &values)?);
        append_words(job, self.arguments.list())
    }

    fn job_of_ids(&self, alloc: Global, ids: &IdList, lane: u32) -> Result<Job, JobFault>
        requires { lane < 64 }
        ensures job { IfOk result (λ job. run_job_of self.now (Some ids.now) lane ≡ Ok job) }
        ensures refused { IfErr result (λ fault. (run_job_of self.now (Some ids.now) lane ≡ Err fault) ⊎ (fault ≡ JobFault.NoMemory)) }
        ensures text { IfOk result (λ job. IsText job.command) }
    {
        let job = self.followed_job_of_ids(alloc, ids, lane)?;
        Ok(self.execute(alloc, job, lane)?)
    }

    // The same, wherever it runs.
    fn followed_job_of_ids(&self, alloc: Global, ids: &IdList, lane: u32) -> Result<Job, JobFault>
        requires { lane < 64 }
        ensures job { IfOk result (λ job. followed self.now.arguments (ids_job_by self.now.folder self.now.command self.now.id_option ids.now lane) ≡ Ok job) }
        ensures refused { IfErr result (λ fault. (followed self.now.arguments (ids_job_by self.now.folder self.now.command self.now.id_option ids.now lane) ≡ Err fault) ⊎ (fault ≡ JobFault.NoMemory)) }
        ensures text { IfOk result (λ job. IsText job.command) }
    {
        let job = self.own_job_of_ids(alloc, ids, lane)?;
        Ok(append_words(job, self.arguments.list())?)
    }

    // The same without words behind it.
    fn own_job_of_ids(&self, alloc: Global, ids: &IdList, lane: u32) -> Result<Job, JobFault>
        requires { lane < 64 }
        ensures job { IfOk result (λ job. ids_job_by self.now.folder self.now.command self.now.id_option ids.now lane ≡ Ok job) }
        ensures refused { IfErr result (λ fault. (ids_job_by self.now.folder self.now.command self.now.id_option ids.now lane ≡ Err fault) ⊎ (fault ≡ JobFault.NoMemory)) }
        ensures text { IfOk result (λ job. IsText job.command) }
    {
        let command = self.command.bytes();
        if self.id_option.is_none() && has_variable(Variable::IdOption, command) {
            return Err(JobFault::NoOption(Key::IdOption));
        }
        Ok(self.job_with_ids(alloc, ids, lane)?)
    }

    // The same, where an option that is needed is set.
    fn job_with_ids(&self, alloc: Global, ids: &IdList, lane: u32) -> Result<Job, NoMemory>
        requires { lane < 64 }
        ensures job { IfOk result (λ job. job ≡ ids_job self.now.folder self.now.command (unwrap_or self.now.id_option []) ids.now lane) }
        ensures text { IfOk result (λ job. IsText job.command) }
    {
        let file = id_file(alloc, ids, lane)?;
        let path = id_path(alloc, self.folder.as_str(), &file.name)?;
        let id_list = join_ids(alloc, ids.list())?;
        let within = TestValues {
            id_option: b"",
            id_file: &path,
            id_list: &id_list,
            list_option: b"",
        };
        let id_option = fill_test(alloc, bytes_or_none(&self.id_option), &within)?;
        let values = TestValues {
            id_option: &id_option,
            ..within
        };
        let command = Bytes::from_vec(fill_test(alloc, self.command.bytes(), &values)?);
        Ok(Job {
            command,
            id_file: Some(file),
        })
    }
}

// The job of this text, which provisions so many instances.
fn provision_by(alloc: Global, text: &Text, count: u32) -> Result<Job, NoMemory>
    ensures job { IfOk result (λ job. job ≡ plain_job (filled (of_provision (decimal count)) text.now)) }
    ensures text { IfOk result (λ job. IsText job.command) }
{
    let count = decimal_text(alloc, count)?;
    let values = Values::Provision(&count);
    Ok(plain_job(fill_variables(alloc, text.bytes(), &values)?))
}

// The job of this text, which disposes of the instances.
fn dispose_by(alloc: Global, text: &Text, instances: &IdList) -> Result<Job, NoMemory>
    ensures job { IfOk result (λ job. job ≡ plain_job (filled (of_dispose (id_list_of instances.now)) text.now)) }
    ensures text { IfOk result (λ job. IsText job.command) }
{
    let instances = join_ids(alloc, instances.list())?;
    let values = Values::Dispose(&instances);
    Ok(plain_job(fill_variables(alloc, text.bytes(), &values)?))
}

// The bytes of the text, or none.
fn bytes_or_none(text: &Option<Text>) -> &[u8]
    ensures value { result.now ≡ unwrap_or text.now [] }
    ensures text { IsText result.now }
{
    match text {
        Some(text) => text.bytes(),
        None => b"",
    }
}
