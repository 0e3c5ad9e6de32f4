//! What the table `tool.stestr` of a `pyproject.toml` says.

ghost use Rattle.std.specs.Prelude.{◌≡◌, ◌⊎◌, Some, IfOk, IfErr, Err, codes, option_map, option_and_then};
ghost use Rattle.std.specs.Option.{option_copied};
ghost use Rattle.toml.specs.Data.{get, get_member};
ghost use Rattle.toml.specs.Parse.{parse_document};
ghost use Rattle.toml.specs.View.{view, table_view};
ghost use Rattle.stestr_conf.specs.Table.{table_key, takes, string_by, string_value_by, string_value_at, truth_by, class_by, member_values, values_by, document_by, table_of};
ghost use Rattle.stestr_conf.specs.declared.table.TableKey.TheVariants.{ParallelClass as AParallelClass};

use command_words::text_of;
use std::alloc::Global;
use sub_number::{NoMemory, Text};
use testr_conf::{StestrValues, is_path};
use toml::{Table, Value};

/// A key of the table.
#[derive(Clone, Copy, PartialEq, Eq, Debug)]
pub enum TableKey {
    /// `test_path`, the path of the tests.
    TestPath,
    /// `top_dir`, the path from which modules are named.
    TopDir,
    /// `group_regex`, the pattern by which tests are grouped.
    GroupRegex,
    /// `parallel_class`, whether the tests of a class stay together.
    ParallelClass,
}

/// Why no table was read.
#[derive(Clone, Copy, PartialEq, Eq, Debug)]
pub enum TableFault {
    /// The text is no TOML.
    NotToml,
    /// `tool.stestr` is no table.
    NotTable,
    /// This key has a value that it may not have.
    BadValue(TableKey),
    /// There is not enough memory.
    NoMemory,
}

impl From<NoMemory> for TableFault {
    ghost use Rattle.std.specs.Prelude.{◌≡◌};
    ghost use Rattle.stestr_conf.specs.declared.table.TableFault.TheVariants as table;

    ghost from_gives = { λ _ fault. fault ≡ table.NoMemory };

    fn from(_: NoMemory) -> Self {
        TableFault::NoMemory
    }
}

impl TableKey {
    // As it stands in the table.
    fn name(self) -> &'static str
        ensures { result.now ≡ table_key self }
    {
        match self {
            TableKey::TestPath => "test_path",
            TableKey::TopDir => "top_dir",
            TableKey::GroupRegex => "group_regex",
            TableKey::ParallelClass => "parallel_class",
        }
    }

    // Whether the key takes the string, if it is a text.
    fn takes(self, value: &str) -> bool
        ensures { result ≡ takes self value.now }
    {
        match self {
            TableKey::TestPath | TableKey::TopDir => is_path(value.as_bytes()),
            TableKey::GroupRegex | TableKey::ParallelClass => true,
        }
    }
}

/// What the table `tool.stestr` of the text of a `pyproject.toml` says (docs/FORMATS.md, "`.stestr.conf` and `pyproject.toml`").
/// None in the answer comes exactly where there is no such table.
///
/// `NotToml` comes exactly where the text is none, `NotTable` where `tool.stestr` is no table, and `BadValue` with the first
/// key whose value it may not have.
pub fn read_table(alloc: Global, text: &[u8]) -> Result<Option<StestrValues>, TableFault>
    ensures values { IfOk result (λ values. table_of text.now ≡ Ok values) }
    ensures refused { IfErr result (λ fault. (table_of text.now ≡ Err fault) ⊎ (fault ≡ TableFault.NoMemory)) }
    ensures exactly { IfErr (table_of text.now) (λ fault. (result ≡ Err fault) ⊎ (result ≡ Err TableFault.NoMemory)) }
{
    match std::str::from_utf8(text) {
        Ok(text) => read_text(alloc, text),
        Err(_) => Err(TableFault::NotToml),
    }
}

// The same of a text.
fn read_text(alloc: Global, text: &str) -> Result<Option<StestrValues>, TableFault>
    ensures values { IfOk result (λ values. document_by (parse_document text.now) ≡ Ok values) }
    ensures refused { IfErr result (λ fault. (document_by (parse_document text.now) ≡ Err fault) ⊎ (fault ≡ TableFault.NoMemory)) }
{
    let document = parse(alloc, text)?;
    read_document(alloc, &document)
}

// The document that the text writes.
fn parse(alloc: Global, text: &str) -> Result<Table, TableFault>
    ensures document { IfOk result (λ document. parse_document text.now ≡ Some (table_view document)) }
    ensures refused { IfErr result (λ fault. (document_by (parse_document text.now) ≡ Err fault) ⊎ (fault ≡ TableFault.NoMemory)) }
{
    match toml::table_from_str(alloc, text) {
        Ok(document) => Ok(document),
        Err(error) => {
            if error.is_memory() {
                Err(TableFault::NoMemory)
            } else {
                Err(TableFault::NotToml)
            }
        }
    }
}

// What the document says.
fn read_document(alloc: Global, document: &Table) -> Result<Option<StestrValues>, TableFault>
    ensures values { IfOk result (λ values. document_by (Some (table_view document.now)) ≡ Ok values) }
    ensures refused { IfErr result (λ fault. (document_by (Some (table_view document.now)) ≡ Err fault) ⊎ (fault ≡ TableFault.NoMemory)) }
{
    read_value(alloc, stestr_value(document))
}

// The value of this key.
fn value_at<'a>(table: &'a Table, key: &str) -> Option<&'a Value>
    ensures { option_map (λ value. view value.now) result ≡ get_member key.now (table_view table.now) }
{
    table.get(key)
}

// The value of `tool.stestr`.
fn stestr_value(document: &Table) -> Option<&Value>
    ensures { option_map (λ value. view value.now) result ≡ option_and_then (get (codes "stestr")) (get_member (codes "tool") (table_view document.now)) }
{
    match value_at(document, "tool") {
        Some(tool) => tool.get("stestr"),
        None => None,
    }
}

// What that value says, where there is one.
fn read_value(alloc: Global, value: Option<&Value>) -> Result<Option<StestrValues>, TableFault>
    ensures values { IfOk result (λ values. values_by (option_map (λ value. view value.now) value.entry) ≡ Ok values) }
    ensures refused { IfErr result (λ fault. (values_by (option_map (λ value. view value.now) value.entry) ≡ Err fault) ⊎ (fault ≡ TableFault.NoMemory)) }
{
    match value {
        Some(value) => read_some(alloc, value),
        None => Ok(None),
    }
}

// What the value says, which has to be a table.
fn read_some(alloc: Global, value: &Value) -> Result<Option<StestrValues>, TableFault>
    ensures values { IfOk result (λ values. values_by (Some (view value.now)) ≡ Ok values) }
    ensures refused { IfErr result (λ fault. (values_by (Some (view value.now)) ≡ Err fault) ⊎ (fault ≡ TableFault.NoMemory)) }
{
    match value.as_table() {
        Some(table) => Ok(Some(read_values(alloc, table)?)),
        None => Err(TableFault::NotTable),
    }
}

// What the keys of the table say.
fn read_values(alloc: Global, table: &Table) -> Result<StestrValues, TableFault>
    ensures values { IfOk result (λ values. member_values (table_view table.now) ≡ Ok values) }
    ensures refused { IfErr result (λ fault. (member_values (table_view table.now) ≡ Err fault) ⊎ (fault ≡ TableFault.NoMemory)) }
{
    let test_path = text_at(alloc, table, TableKey::TestPath)?;
    let top_dir = text_at(alloc, table, TableKey::TopDir)?;
    let group_regex = text_at(alloc, table, TableKey::GroupRegex)?;
    let parallel_class = class_at(table)?;
    Ok(StestrValues {
        test_path,
        top_dir,
        group_regex,
        parallel_class,
    })
}

// The value of a key of strings.
fn text_at(alloc: Global, table: &Table, key: TableKey) -> Result<Option<Text>, TableFault>
    ensures text { IfOk result (λ text. string_value_at key (table_view table.now) ≡ Ok text) }
    ensures refused { IfErr result (λ fault. (string_value_at key (table_view table.now) ≡ Err fault) ⊎ (fault ≡ TableFault.NoMemory)) }
{
    member_text(alloc, key, value_at(table, key.name()))
}

// The text of that value, where there is one.
fn member_text(
    alloc: Global,
    key: TableKey,
    value: Option<&Value>,
) -> Result<Option<Text>, TableFault>
    ensures text { IfOk result (λ text. string_value_by key (option_map (λ value. view value.now) value.entry) ≡ Ok text) }
    ensures refused { IfErr result (λ fault. (string_value_by key (option_map (λ value. view value.now) value.entry) ≡ Err fault) ⊎ (fault ≡ TableFault.NoMemory)) }
{
    match value {
        Some(value) => string_text(alloc, key, value.as_str()),
        None => Ok(None),
    }
}

// The text of a string, where it is one. An empty one is none.
fn string_text(
    alloc: Global,
    key: TableKey,
    string: Option<&str>,
) -> Result<Option<Text>, TableFault>
    ensures text { IfOk result (λ text. string_by key (option_copied string.entry) ≡ Ok text) }
    ensures refused { IfErr result (λ fault. (string_by key (option_copied string.entry) ≡ Err fault) ⊎ (fault ≡ TableFault.NoMemory)) }
{
    match string {
        Some(value) => fit_text(alloc, key, value),
        None => Err(TableFault::BadValue(key)),
    }
}

// The string as a text, where it is one that the key may have.
fn fit_text(alloc: Global, key: TableKey, value: &str) -> Result<Option<Text>, TableFault>
    ensures text { IfOk result (λ text. string_by key (Some value.now) ≡ Ok text) }
    ensures refused { IfErr result (λ fault. (string_by key (Some value.now) ≡ Err fault) ⊎ (fault ≡ TableFault.NoMemory)) }
{
    if !key.takes(value) {
        return Err(TableFault::BadValue(key));
    }
    match text_of(alloc, value)? {
        Some(text) if text.bytes().is_empty() => Ok(None),
        Some(text) => Ok(Some(text)),
        None => Err(TableFault::BadValue(key)),
    }
}

// Whether tests of a class stay together.
fn class_at(table: &Table) -> Result<bool, TableFault>
    ensures { result ≡ class_by (get_member (table_key AParallelClass) (table_view table.now)) }
{
    member_truth(value_at(table, "parallel_class"))
}

fn member_truth(value: Option<&Value>) -> Result<bool, TableFault>
    ensures { result ≡ class_by (option_map (λ value. view value.now) value.entry) }
{
    match value {
        Some(value) => truth(value.as_bool()),
        None => Ok(false),
    }
}

// The value, where there is one.
fn truth(value: Option<bool>) -> Result<bool, TableFault>
    ensures { result ≡ truth_by value }
{
    match value {
        Some(value) => Ok(value),
        None => Err(TableFault::BadValue(TableKey::ParallelClass)),
    }
}
