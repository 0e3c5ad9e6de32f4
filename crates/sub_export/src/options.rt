//! The options of a job.

ghost use Rattle.std.specs.Prelude.{◌≡◌};
ghost use Rattle.sub_export.specs.Output as spec;

use command_words::{Kind, OptionTable};
use packet_codec::Status;

/// The status that the option of this name gives its test. None comes exactly where it gives none.
pub(crate) fn status_named(option: &str) -> Option<Status>
    ensures { result ≡ spec.status_named option.now }
{
    if option == "--exists" {
        return Some(Status::Exists);
    }
    if option == "--inprogress" {
        return Some(Status::InProgress);
    }
    if option == "--success" {
        return Some(Status::Success);
    }
    if option == "--uxsuccess" {
        return Some(Status::UxSuccess);
    }
    if option == "--skip" {
        return Some(Status::Skip);
    }
    if option == "--fail" {
        return Some(Status::Fail);
    }
    if option == "--xfail" {
        return Some(Status::XFail);
    }
    None
}

// Whether it is an option that gives no status.
fn is_other_option(option: &str) -> bool
    ensures { result ≡ spec.is_other_option option.now }
{
    option == "--attach-file"
        || option == "--file-name"
        || option == "--mimetype"
        || option == "--timestamp"
        || option == "--tag"
}

/// The options of `subunit-output`.
#[derive(Clone, Copy)]
pub(crate) struct OutputOptions;

impl OptionTable for OutputOptions {
    ghost kinds = { λ table. spec.output_kind };

    fn kind(&self, name: &str) -> Option<Kind> {
        if status_named(name).is_some() || is_other_option(name) {
            return Some(Kind::Valued);
        }
        None
    }
}
