//! The values that were found.

ghost use Rattle.std.specs.Prelude.{◌≡◌, [], is_some};
ghost use Rattle.testr_conf.specs.declared.name.Dialect.{Dialect as ADialect};
ghost use Rattle.testr_conf.specs.Keys.{found_value, with_value, found_of};

use crate::name::Name;
use sub_number::Text;

#[derive(Drop)]
pub(crate) struct Found {
    pub(crate) command: Option<Text>,
    pub(crate) id_option: Option<Text>,
    pub(crate) list_option: Option<Text>,
    pub(crate) id_list: Option<Text>,
    pub(crate) concurrency: Option<Text>,
    pub(crate) group_regex: Option<Text>,
    pub(crate) filter_tags: Option<Text>,
    pub(crate) provision: Option<Text>,
    pub(crate) execute: Option<Text>,
    pub(crate) dispose: Option<Text>,
    pub(crate) test_path: Option<Text>,
    pub(crate) top_dir: Option<Text>,
    pub(crate) parallel_class: Option<Text>,
}

impl Found {
    pub(crate) fn new() -> Self
        ensures { (dialect : ADialect) → result ≡ found_of dialect [] }
    {
        Found {
            command: None,
            id_option: None,
            list_option: None,
            id_list: None,
            concurrency: None,
            group_regex: None,
            filter_tags: None,
            provision: None,
            execute: None,
            dispose: None,
            test_path: None,
            top_dir: None,
            parallel_class: None,
        }
    }

    // Whether the key has a value.
    pub(crate) fn has(&self, name: Name) -> bool
        ensures { result ≡ is_some (found_value name self.now) }
    {
        match name {
            Name::Command => self.command.is_some(),
            Name::IdOption => self.id_option.is_some(),
            Name::ListOption => self.list_option.is_some(),
            Name::IdList => self.id_list.is_some(),
            Name::Concurrency => self.concurrency.is_some(),
            Name::GroupRegex => self.group_regex.is_some(),
            Name::FilterTags => self.filter_tags.is_some(),
            Name::Provision => self.provision.is_some(),
            Name::Execute => self.execute.is_some(),
            Name::Dispose => self.dispose.is_some(),
            Name::TestPath => self.test_path.is_some(),
            Name::TopDir => self.top_dir.is_some(),
            Name::ParallelClass => self.parallel_class.is_some(),
        }
    }

    // Gives the key this value.
    pub(crate) fn put(&mut self, name: Name, value: Text)
        ensures { self.new ≡ with_value name value self.old }
    {
        match name {
            Name::Command => self.command = Some(value),
            Name::IdOption => self.id_option = Some(value),
            Name::ListOption => self.list_option = Some(value),
            Name::IdList => self.id_list = Some(value),
            Name::Concurrency => self.concurrency = Some(value),
            Name::GroupRegex => self.group_regex = Some(value),
            Name::FilterTags => self.filter_tags = Some(value),
            Name::Provision => self.provision = Some(value),
            Name::Execute => self.execute = Some(value),
            Name::Dispose => self.dispose = Some(value),
            Name::TestPath => self.test_path = Some(value),
            Name::TopDir => self.top_dir = Some(value),
            Name::ParallelClass => self.parallel_class = Some(value),
        }
    }
}
