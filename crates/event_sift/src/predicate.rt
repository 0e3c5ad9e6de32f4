//! What says which tests are kept.

ghost use Rattle.std.specs.Prelude.{◌≡◌, IfOk};
ghost use Rattle.event_sift.specs.declared.rules.Rules.{Rules as SomeRules};
ghost use Rattle.event_sift.specs.Keeping.{keeps_test};

use outcome_fold::Ended;
use packet_codec::Tags;
use sub_number::{NoMemory, Text};

/// Says which tests are kept, by rules. It may keep what it needs from one test to the next; the rules stay.
pub trait Predicate {
    /// The rules that it goes by.
    ghost rules: { Self → SomeRules };

    /// Whether a test of this id is kept that ended so and has these tags, in whatever order.
    ///
    /// After `NoMemory` its rules are as before, and nothing else is known of it.
    fn is_kept(&mut self, id: &Text, ended: Ended, tags: &Tags) -> Result<bool, NoMemory>
        ensures kept { IfOk result (λ kept. kept ≡ keeps_test (rules self.old) id.now ended tags.now) }
        ensures rules { rules self.new ≡ rules self.old };
}
