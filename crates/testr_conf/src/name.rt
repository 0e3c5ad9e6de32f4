//! The keys that are used.

ghost use Rattle.std.specs.Prelude.{◌≡◌, map};
ghost use Rattle.std.specs.Char.{to_ascii_lowercase};
ghost use Rattle.testr_conf.specs.Names.{named};
ghost use Rattle.testr_conf.specs.declared.name.Dialect.TheVariants.{Testr, Stestr};

// Whose keys a file has.
#[derive(Clone, Copy)]
pub(crate) enum Dialect {
    // Those of `.testr.conf`.
    Testr,
    // Those of `.stestr.conf`.
    Stestr,
}

#[derive(Clone, Copy)]
pub(crate) enum Name {
    Command,
    IdOption,
    ListOption,
    IdList,
    Concurrency,
    GroupRegex,
    FilterTags,
    Provision,
    Execute,
    Dispose,
    TestPath,
    TopDir,
    ParallelClass,
}

// The name of this key, whose letters may be capital ones. `None` comes exactly where the file does not have it.
pub(crate) fn read_name(dialect: Dialect, key: &[u8]) -> Option<Name>
    ensures { result ≡ named dialect (map to_ascii_lowercase key.now) }
{
    match dialect {
        Dialect::Testr => read_testr_name(key),
        Dialect::Stestr => read_stestr_name(key),
    }
}

fn read_testr_name(key: &[u8]) -> Option<Name>
    ensures { result ≡ named Testr (map to_ascii_lowercase key.now) }
{
    if key.eq_ignore_ascii_case(b"test_command") {
        Some(Name::Command)
    } else if key.eq_ignore_ascii_case(b"test_id_option") {
        Some(Name::IdOption)
    } else if key.eq_ignore_ascii_case(b"test_list_option") {
        Some(Name::ListOption)
    } else if key.eq_ignore_ascii_case(b"test_id_list_default") {
        Some(Name::IdList)
    } else if key.eq_ignore_ascii_case(b"test_run_concurrency") {
        Some(Name::Concurrency)
    } else if key.eq_ignore_ascii_case(b"group_regex") {
        Some(Name::GroupRegex)
    } else if key.eq_ignore_ascii_case(b"filter_tags") {
        Some(Name::FilterTags)
    } else if key.eq_ignore_ascii_case(b"instance_provision") {
        Some(Name::Provision)
    } else if key.eq_ignore_ascii_case(b"instance_execute") {
        Some(Name::Execute)
    } else if key.eq_ignore_ascii_case(b"instance_dispose") {
        Some(Name::Dispose)
    } else {
        None
    }
}

fn read_stestr_name(key: &[u8]) -> Option<Name>
    ensures { result ≡ named Stestr (map to_ascii_lowercase key.now) }
{
    if key.eq_ignore_ascii_case(b"test_path") {
        Some(Name::TestPath)
    } else if key.eq_ignore_ascii_case(b"top_dir") {
        Some(Name::TopDir)
    } else if key.eq_ignore_ascii_case(b"group_regex") {
        Some(Name::GroupRegex)
    } else if key.eq_ignore_ascii_case(b"parallel_class") {
        Some(Name::ParallelClass)
    } else {
        None
    }
}
