//! The steps of the belt's queue, and what each one tells.

use crate::knowledge::{Knowledge, Parcel};
use crossbeam_queue::RuledArrayQueue;
use crossbeam_queue::protocol::{Join, Lesson, Outcome, Protocol, Split};

/// The rule that each step keeps.
pub struct WholeLanes;

impl Protocol<Parcel, Knowledge> for WholeLanes {
    ghost use Rattle.std.specs.Prelude.{[]};
    ghost use Rattle.worker_mux.specs.Rule.{Kept};
    ghost use Rattle.worker_mux.specs.declared.knowledge.Knowledge.TheVariants.{Taker};

    ghost holds = { Kept };

    ghost first = { Taker 0 [] [] };
}

/// A lane's lot comes onto the belt, or is refused.
pub(crate) struct Puts;

impl Outcome<Parcel, Knowledge> for Puts {
    ghost use Rattle.worker_mux.specs.Rule.{WasAdded};

    ghost then = { λ before parcel after. WasAdded before parcel after };
}

impl Lesson<Parcel, Knowledge> for Puts {
    ghost use Rattle.std.specs.Prelude.{⊤};

    ghost fact = { λ known items. ⊤ };
}

/// The lot at the front leaves the belt, or there is none.
pub(crate) struct Takes;

impl Outcome<Parcel, Knowledge> for Takes {
    ghost use Rattle.worker_mux.specs.Rule.{WasTaken};

    ghost then = { λ before parcel after. WasTaken before parcel after };
}

impl Lesson<Parcel, Knowledge> for Takes {
    ghost use Rattle.worker_mux.specs.Rule.{TakerLearns};

    ghost fact = { λ known items. TakerLearns known items };
}

/// Lanes are made and settled.
pub(crate) struct Lanes;

impl Split<Knowledge> for Lanes {
    ghost use Rattle.worker_mux.specs.Rule.{with_lane, new_lane};

    ghost left = { with_lane };

    ghost right = { new_lane };
}

impl Join<Knowledge> for Lanes {
    ghost use Rattle.worker_mux.specs.Rule.{with_settled};
    ghost use Rattle.worker_mux.specs.declared.knowledge.Knowledge.TheVariants.{Spent};

    ghost both = { with_settled };

    ghost spent = { Spent };
}

pub(crate) type Line = RuledArrayQueue<Parcel, Knowledge, WholeLanes>;
