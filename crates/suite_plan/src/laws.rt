//! What is told of the output of a program that failed, of every output; and how shards share the ids, of all ids.

ghost use Rattle.std.specs.Prelude.{◌≡◌, ◌≤◌, ◌<◌, ℕ, List, [], Option, length, map, true, All};
ghost use Rattle.std.specs.List.{concat, list_any, count_by, sum_by, IsDistinct};
ghost use Rattle.std.specs.Str.{bytes_eq};
ghost use Rattle.partition_times.specs.Bound.{IsWithinBound};
ghost use Rattle.partition_times.specs.Kept.{StandsInOne, StandsAsOften};
ghost use Rattle.partition_times.specs.Names.{group_of};
ghost use Rattle.partition_times.specs.Shares.{Ids, Times};
ghost use Rattle.stream_reader.specs.declared.note.Note.{Note as ANote};
ghost use Rattle.stream_reader.specs.declared.note.Note.TheVariants as note;
ghost use Rattle.stream_reader.specs.Notes.{events_of};
ghost use Rattle.suite_plan.specs.Saying.{TellsListing, told_of, listing_text};
ghost use Rattle.suite_plan.specs.Sharing.{shards_of};

/// Laws of what is told of outputs. One text is told of each output of a list job, and no other. What is told of a text
/// has at most 65,540 bytes. Of foreign bytes alone the same is told as of them as one text.
pub fn outputs_tell_one_text()
    ensures one { (bytes text other : List ℕ) → TellsListing text bytes → TellsListing other bytes → text ≡ other }
    ensures short { (text : List ℕ) → length (told_of text) ≤ 65540 }
    ensures foreign { (runs : List (List ℕ)) → listing_text (events_of (map note.Foreign runs)) ≡ told_of (concat runs) }
{}

/// Laws of the shards of any ids, from the first to the last of so many, at least one, by the same times and the same groups.
/// Of ids that stand once each stands in exactly one shard, and once. Any id stands in them as often as among the ids, and a
/// group stays whole. The bound on the known time of the largest share is one on that of the largest shard, too.
pub fn shards_are_shares()
    ensures once { (times : Times) (groups : Option (List ℕ)) (ids : Ids) (count : ℕ) → 0 < count → IsDistinct bytes_eq ids → (id : List ℕ) → list_any (bytes_eq id) ids ≡ true → sum_by (λ shard. count_by (bytes_eq id) shard) (shards_of times groups ids count) ≡ 1 }
    ensures as_often { (times : Times) (groups : Option (List ℕ)) (ids : Ids) (count : ℕ) → 0 < count → (id : List ℕ) → StandsAsOften ids (shards_of times groups ids count) id }
    ensures groups { (times : Times) (groups : Option (List ℕ)) (ids : Ids) (count : ℕ) → 0 < count → (name : List ℕ) → StandsInOne (group_of groups) ids (shards_of times groups ids count) name }
    ensures bound { (times : Times) (groups : Option (List ℕ)) (ids : Ids) (count : ℕ) → 0 < count → IsWithinBound times (group_of groups) ids count (shards_of times groups ids count) }
{}
