//! The variables of the settings, and what stands in their place.

ghost use Rattle.std.specs.Prelude.{◌≡◌, ◌≤◌, length, map, IfNone, IfSome, IfOk};
ghost use Rattle.sub_number.specs.Texts.{IsText};
ghost use Rattle.testr_conf.specs.Variables.{variable_name, variable_at, byte, command_pieces, has_variable, filled, of_test, template_of, test_value, execute_value, variable_value};
ghost use Rattle.testr_conf.specs.Filled.{seen_test, seen_execute, seen_values, FirstVariable, AreTestTexts, AreTextValues};
ghost use Rattle.testr_conf.specs.declared.variable.Template.TheVariants.{Test, Provision, Execute, Dispose};

use memchr::memchr;
use std::alloc::Global;
use sub_number::NoMemory;

// The settings that have variables.
#[derive(Clone, Copy)]
pub(crate) enum Template {
    // `test_command` and its options.
    Test,
    // `instance_provision`.
    Provision,
    // `instance_execute`.
    Execute,
    // `instance_dispose`.
    Dispose,
}

#[derive(Clone, Copy)]
pub(crate) enum Variable {
    IdOption,
    IdFile,
    IdList,
    ListOption,
    InstanceCount,
    InstanceId,
    Files,
    Command,
    InstanceIds,
}

// What stands in place of each variable of a test command.
#[derive(Clone, Copy)]
pub(crate) struct TestValues<'a> {
    pub(crate) id_option: &'a [u8],
    pub(crate) id_file: &'a [u8],
    pub(crate) id_list: &'a [u8],
    pub(crate) list_option: &'a [u8],
}

// What stands in place of each variable of a text that runs a command on an instance.
#[derive(Clone, Copy)]
pub(crate) struct ExecuteValues<'a> {
    pub(crate) instance: &'a [u8],
    pub(crate) files: &'a [u8],
    pub(crate) command: &'a [u8],
}

// What stands in place of the variables of a setting.
#[derive(Clone, Copy)]
pub(crate) enum Values<'a> {
    Test(TestValues<'a>),
    // The number of instances.
    Provision(&'a [u8]),
    Execute(ExecuteValues<'a>),
    // The instances.
    Dispose(&'a [u8]),
}

impl Variable {
    // As it stands in a command.
    fn name(self) -> &'static [u8]
        ensures { result.now ≡ variable_name self }
    {
        match self {
            Variable::IdOption => b"$IDOPTION",
            Variable::IdFile => b"$IDFILE",
            Variable::IdList => b"$IDLIST",
            Variable::ListOption => b"$LISTOPT",
            Variable::InstanceCount => b"$INSTANCE_COUNT",
            Variable::InstanceId => b"$INSTANCE_ID",
            Variable::Files => b"$FILES",
            Variable::Command => b"$COMMAND",
            Variable::InstanceIds => b"$INSTANCE_IDS",
        }
    }
}

impl<'a> TestValues<'a> {
    fn of(&self, variable: Variable) -> &'a [u8]
        ensures { result.now ≡ test_value (seen_test self.now) variable }
    {
        match variable {
            Variable::IdOption => self.id_option,
            Variable::IdFile => self.id_file,
            Variable::IdList => self.id_list,
            Variable::ListOption => self.list_option,
            _ => b"",
        }
    }
}

impl<'a> ExecuteValues<'a> {
    fn of(&self, variable: Variable) -> &'a [u8]
        ensures { result.now ≡ execute_value (seen_execute self.now) variable }
    {
        match variable {
            Variable::InstanceId => self.instance,
            Variable::Files => self.files,
            Variable::Command => self.command,
            _ => b"",
        }
    }
}

impl<'a> Values<'a> {
    // The setting that has these variables.
    fn template(&self) -> Template
        ensures { result ≡ template_of (seen_values self.now) }
    {
        match self {
            Values::Test(_) => Template::Test,
            Values::Provision(_) => Template::Provision,
            Values::Execute(_) => Template::Execute,
            Values::Dispose(_) => Template::Dispose,
        }
    }

    fn of(&self, variable: Variable) -> &'a [u8]
        ensures { result.now ≡ variable_value (seen_values self.now) variable }
    {
        match (self, variable) {
            (Values::Test(values), variable) => values.of(variable),
            (Values::Provision(count), Variable::InstanceCount) => count,
            (Values::Execute(values), variable) => values.of(variable),
            (Values::Dispose(instances), Variable::InstanceIds) => instances,
            _ => b"",
        }
    }
}

// The variable of such a setting that the text begins with.
fn read_variable(template: Template, text: &[u8]) -> Option<Variable>
    ensures value { result ≡ variable_at template text.now }
    ensures fits { IfSome result (λ v. length (variable_name v) ≤ length text.now) }
{
    match template {
        Template::Test => read_test_variable(text),
        Template::Provision => read_provision_variable(text),
        Template::Execute => read_execute_variable(text),
        Template::Dispose => read_dispose_variable(text),
    }
}

fn read_test_variable(text: &[u8]) -> Option<Variable>
    ensures value { result ≡ variable_at Test text.now }
    ensures fits { IfSome result (λ v. length (variable_name v) ≤ length text.now) }
{
    if text.starts_with(b"$IDOPTION") {
        Some(Variable::IdOption)
    } else if text.starts_with(b"$IDFILE") {
        Some(Variable::IdFile)
    } else if text.starts_with(b"$IDLIST") {
        Some(Variable::IdList)
    } else if text.starts_with(b"$LISTOPT") {
        Some(Variable::ListOption)
    } else {
        None
    }
}

fn read_provision_variable(text: &[u8]) -> Option<Variable>
    ensures value { result ≡ variable_at Provision text.now }
    ensures fits { IfSome result (λ v. length (variable_name v) ≤ length text.now) }
{
    if text.starts_with(b"$INSTANCE_COUNT") {
        Some(Variable::InstanceCount)
    } else {
        None
    }
}

fn read_execute_variable(text: &[u8]) -> Option<Variable>
    ensures value { result ≡ variable_at Execute text.now }
    ensures fits { IfSome result (λ v. length (variable_name v) ≤ length text.now) }
{
    if text.starts_with(b"$INSTANCE_ID") {
        Some(Variable::InstanceId)
    } else if text.starts_with(b"$FILES") {
        Some(Variable::Files)
    } else if text.starts_with(b"$COMMAND") {
        Some(Variable::Command)
    } else {
        None
    }
}

fn read_dispose_variable(text: &[u8]) -> Option<Variable>
    ensures value { result ≡ variable_at Dispose text.now }
    ensures fits { IfSome result (λ v. length (variable_name v) ≤ length text.now) }
{
    if text.starts_with(b"$INSTANCE_IDS") {
        Some(Variable::InstanceIds)
    } else {
        None
    }
}

// The first variable of the text, and its place.
fn first_variable(template: Template, text: &[u8]) -> Option<(usize, Variable)>
    ensures none { IfNone result (command_pieces template text.now ≡ map byte text.now) }
    ensures some { IfSome result (λ r. FirstVariable template text.now r.0 r.1) }
{
    let mut at = 0;
    while let Some(skipped) = memchr(b'$', &text[at..]) {
        let place = at + skipped;
        if let Some(variable) = read_variable(template, &text[place..]) {
            return Some((place, variable));
        }
        at = place + 1;
    }
    None
}

// Whether the variable stands in the text of a test command.
pub(crate) fn has_variable(wanted: Variable, text: &[u8]) -> bool
    ensures { result ≡ has_variable wanted text.now }
{
    let mut rest = text;
    while let Some((at, variable)) = first_variable(Template::Test, rest) {
        if wanted.name() == variable.name() {
            return true;
        }
        rest = &rest[at + variable.name().len()..];
    }
    false
}

// The text of a test command with each variable replaced, once.
pub(crate) fn fill_test(
    alloc: Global,
    text: &[u8],
    values: &TestValues<'_>,
) -> Result<Vec<u8>, NoMemory>
    requires text { IsText text.now }
    requires values { AreTestTexts (seen_test values.now) }
    ensures value { IfOk result (λ out. out.items ≡ filled (of_test (seen_test values.now)) text.now) }
    ensures text { IfOk result (λ out. IsText out.items) }
{
    fill_variables(alloc, text, &Values::Test(*values))
}

// The text with each variable of its setting replaced, once.
pub(crate) fn fill_variables(
    alloc: Global,
    text: &[u8],
    values: &Values<'_>,
) -> Result<Vec<u8>, NoMemory>
    requires text { IsText text.now }
    requires values { AreTextValues (seen_values values.now) }
    ensures value { IfOk result (λ out. out.items ≡ filled (seen_values values.now) text.now) }
    ensures text { IfOk result (λ out. IsText out.items) }
{
    let template = values.template();
    let mut out = Vec::new(alloc);
    let mut rest = text;
    while let Some((at, variable)) = first_variable(template, rest) {
        out.extend_from_slice(&rest[..at])?;
        out.extend_from_slice(values.of(variable))?;
        rest = &rest[at + variable.name().len()..];
    }
    out.extend_from_slice(rest)?;
    Ok(out)
}
