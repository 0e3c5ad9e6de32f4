//! The settings that the values of stestr stand for.

ghost use Rattle.std.specs.Prelude.{◌≡◌, ◌⊎◌, IfOk, IfErr, Err, codes};
ghost use Rattle.std.specs.Option.{option_copied, unwrap_or};
ghost use Rattle.testr_conf.specs.Settings.{or_given};
ghost use Rattle.stestr_conf.specs.Command.{grouping, stestr_command, stestr_settings, settled_values};

use std::alloc::Global;
use sub_number::{NoMemory, Text};
use testr_conf::{Conf, StestrValues};

/// Why no settings were made.
#[derive(Clone, Copy, PartialEq, Eq, Debug)]
pub enum SettleFault {
    /// There is no path of the tests.
    NoTestPath,
    /// There is not enough memory, or the command has 2^30 bytes or more.
    NoMemory,
}

impl From<NoMemory> for SettleFault {
    ghost use Rattle.std.specs.Prelude.{◌≡◌};
    ghost use Rattle.stestr_conf.specs.declared.settled_values.SettleFault.TheVariants as settle;

    ghost from_gives = { λ _ fault. fault ≡ settle.NoMemory };

    fn from(_: NoMemory) -> Self {
        SettleFault::NoMemory
    }
}

/// The settings of the values (docs/FORMATS.md, "`.stestr.conf` and `pyproject.toml`"). In place of the paths stand these,
/// where they are there and not empty.
///
/// `NoTestPath` comes exactly where no path of the tests stands.
pub fn settings_of_values(
    alloc: Global,
    test_path: Option<&Text>,
    top_dir: Option<&Text>,
    values: &StestrValues,
) -> Result<Conf, SettleFault>
    ensures settings { IfOk result (λ conf. settled_values (option_copied test_path.entry) (option_copied top_dir.entry) values.now ≡ Ok conf) }
    ensures refused { IfErr result (λ fault. (settled_values (option_copied test_path.entry) (option_copied top_dir.entry) values.now ≡ Err fault) ⊎ (fault ≡ SettleFault.NoMemory)) }
    ensures exactly { IfErr (settled_values (option_copied test_path.entry) (option_copied top_dir.entry) values.now) (λ fault. (result ≡ Err fault) ⊎ (result ≡ Err SettleFault.NoMemory)) }
{
    match standing(test_path, &values.test_path) {
        Some(test_path) => Ok(settle_at(
            alloc,
            standing(top_dir, &values.top_dir),
            test_path,
            values,
        )?),
        None => Err(SettleFault::NoTestPath),
    }
}

// The settings, where the paths are these.
fn settle_at(
    alloc: Global,
    top_dir: Option<&Text>,
    test_path: &Text,
    values: &StestrValues,
) -> Result<Conf, NoMemory>
    ensures { IfOk result (λ conf. conf ≡ stestr_settings (unwrap_or (option_copied top_dir.entry) (codes "./")) test_path.now (grouping values.now.parallel_class values.now.group_regex)) }
{
    let command = command(alloc, bytes_or_here(top_dir), test_path.bytes())?;
    let id_option = text(alloc, b"--load-list $IDFILE")?;
    let list_option = text(alloc, b"--list")?;
    let group_regex = grouping(alloc, values)?;
    Ok(Conf::of_command(alloc, command, id_option, list_option, group_regex))
}

// The path that is given, where it is there and not empty, and else the project's own.
fn standing<'a>(given: Option<&'a Text>, own: &'a Option<Text>) -> Option<&'a Text>
    ensures { option_copied result ≡ or_given (option_copied given.entry) own.now }
{
    match given {
        Some(path) if !path.bytes().is_empty() => Some(path),
        _ => own.as_ref(),
    }
}

// The path, or that of the project's folder.
fn bytes_or_here(path: Option<&Text>) -> &[u8]
    ensures { result.now ≡ unwrap_or (option_copied path.entry) (codes "./") }
{
    match path {
        Some(path) => path.bytes(),
        None => b"./",
    }
}

// The bytes as a text. What is no text is answered as want of memory.
fn text(alloc: Global, bytes: &[u8]) -> Result<Text, NoMemory>
    ensures { IfOk result (λ text. text ≡ bytes.now) }
{
    match Text::new(alloc, bytes) {
        Ok(text) => Ok(text),
        Err(_) => Err(NoMemory),
    }
}

// The command that runs the tests of this path.
fn command(alloc: Global, top_dir: &[u8], test_path: &[u8]) -> Result<Text, NoMemory>
    ensures { IfOk result (λ text. text ≡ stestr_command top_dir.now test_path.now) }
{
    let front = b"${PYTHON:-python3} -m stestr.subunit_runner.run discover -t \"";
    let mut command = Vec::from_slice(alloc, front)?;
    command.extend_from_slice(top_dir)?;
    command.extend_from_slice(b"\" \"")?;
    command.extend_from_slice(test_path)?;
    command.extend_from_slice(b"\" $LISTOPT $IDOPTION")?;
    text(alloc, &command)
}

// The pattern by which the tests are grouped.
fn grouping(alloc: Global, values: &StestrValues) -> Result<Option<Text>, NoMemory>
    ensures { IfOk result (λ pattern. pattern ≡ grouping values.now.parallel_class values.now.group_regex) }
{
    if values.parallel_class {
        return Ok(Some(text(alloc, b"([^\\.]*\\.)*")?));
    }
    match &values.group_regex {
        Some(pattern) => Ok(Some(pattern.copy()?)),
        None => Ok(None),
    }
}
