//! Laws of what is recorded.

ghost use Rattle.std.specs.Prelude.{◌≡◌, ◌<◌, ◌≤◌, ℕ, List, [], ◌++◌, length, All, true, false, Option, Some, ◌⊎◌, ◌↔◌, ◌∷◌, pos};
ghost use Rattle.std.specs.List.{flat_map, list_any, AllByRecursion};
ghost use Rattle.packet_codec.specs.declared.event.Event.{Event};
ghost use Rattle.packet_codec.specs.Grammar.{AreBytes};
ghost use Rattle.packet_codec.specs.Canonical.{IsEvent, Fits, canonical};
ghost use Rattle.stream_reader.specs.Notes.{HasEvents};
ghost use Rattle.edge_io.specs.Children.{Output};
ghost use Rattle.edge_io.specs.declared.child.Finish.{Finish};
ghost use Rattle.edge_io.specs.declared.child.Finish.TheVariants.{ReadFault, WaitFault};
ghost use Rattle.worker_lane.specs.Endings.{ending_of};
ghost use Rattle.worker_lane.specs.Rest.{Coursing, GivesIfTold, IsOver, lots_to_give, lots_asked, last_events};
ghost use Rattle.worker_lane.specs.Lost.{is_of_id, named_ids, lost_ids};
ghost use Rattle.worker_lane.specs.Lanes.{KeepsNumber};
ghost use Rattle.worker_lane.specs.declared.lot.Ending.{Ending};
ghost use Rattle.worker_lane.specs.declared.lot.Ending.TheVariants.{Exit, Fault, NoMemory};
ghost use Rattle.worker_lane.specs.declared.lot.Lot.{Lot};
ghost use Rattle.worker_lane.specs.declared.lot.Lot.TheVariants.{End};
ghost use Rattle.worker_lane.specs.Recorded.{pieces_of, HasRecorded, IsRecorded};
ghost use Rattle.worker_lane.specs.Scribing.{Scribing, IsAsBefore, GivesPacket, GivesPackets, HasNone, Recording, IsRecordedSoFar};

/// Laws of what is recorded of all streams.
pub fn recorded_streams()
    // Some list of events is recorded of each stream.
    ensures some { (lane : ℕ) (bytes : List ℕ) → (events : List Event) × HasRecorded lane bytes events }
    // Each recorded event has a packet.
    ensures events { (lane : ℕ) (bytes : List ℕ) (events : List Event) → lane < 64 → AreBytes bytes → HasRecorded lane bytes events → All IsEvent events × All Fits events }
    // So these packets, as a stream, are the events that were recorded.
    ensures read_again { (lane : ℕ) (bytes : List ℕ) (events : List Event) → lane < 64 → AreBytes bytes → HasRecorded lane bytes events → HasEvents (flat_map canonical events) events }
    // One list of events is recorded of a stream.
    ensures one_list { (lane : ℕ) (bytes : List ℕ) (events others : List Event) → AreBytes bytes → HasRecorded lane bytes events → HasRecorded lane bytes others → events ≡ others }
    // No byte of an event in pieces is lost.
    ensures joined { (bytes : List ℕ) → flat_map (λ piece. piece) (pieces_of bytes) ≡ bytes }
{}

/// Laws of what a scribe gives, one call after another. With the clauses of `Scribe` they tell that all that it gives is
/// what is recorded of the whole stream, however the stream was cut into pieces.
pub fn recording_in_turn()
    // Where the next note was taken and none of its events given yet, as much was given as before.
    ensures as_before { (fed written : List ℕ) (before after : Scribing) → Recording fed before written → IsAsBefore before after → Recording fed after written }
    ensures packet { (fed written old new : List ℕ) (before after : Scribing) → Recording fed before written → GivesPacket before old after new → (packet : List ℕ) × (new ≡ old ++ packet) × Recording fed after (written ++ packet) }
    ensures packets { (old middle new : List ℕ) (before between after : Scribing) → GivesPackets before old between middle → GivesPackets between middle after new → GivesPackets before old after new }
    // Before the end, where no more is given: what the bytes fed decide was given.
    ensures decided { (fed written : List ℕ) (scribe : Scribing) → Recording fed scribe written → scribe.held.ended ≡ false → HasNone scribe → IsRecordedSoFar scribe.lane fed written }
    // Behind the end, where no more is given: all was given.
    ensures whole { (fed written : List ℕ) (scribe : Scribing) → Recording fed scribe written → scribe.held.ended ≡ true → HasNone scribe → IsRecorded scribe.lane fed written }
{}

/// Laws of what a lane gives, one step after another. With the clauses of `Lane` they tell what all that it gives is,
/// up to its end: what is recorded of its child's output, and then the output's ending. For want of memory it is the
/// front of that.
pub fn lots_in_turn()
    ensures none { (rest : Option (List Lot)) → GivesIfTold rest [] rest }
    ensures more { (a b c : Option (List Lot)) (given others : List Lot) → GivesIfTold a given b → GivesIfTold b others c → GivesIfTold a (given ++ others) c }
    // Where nothing is left, all was given.
    ensures whole { (lots given : List Lot) (left : Option (List Lot)) → GivesIfTold (Some lots) given left → IsOver left → given ≡ lots }
    // What was given so far comes first.
    ensures front { (lots given : List Lot) (left : Option (List Lot)) → GivesIfTold (Some lots) given left → (others : List Lot) × (lots ≡ given ++ others) }
    // The lots of an output are those of the events that are recorded of it.
    ensures recorded { (lane : ℕ) (ids : List (List ℕ)) (output : Output) (events : List Event) → AreBytes output.bytes → HasRecorded lane output.bytes events → lots_asked lane ids output ≡ lots_to_give lane (named_ids ids) events (ending_of output.finish) }
    // Its one end comes last, and tells how the child finished.
    ensures ending { (lane : ℕ) (ids : List (List ℕ)) (output : Output) (given others : List Lot) (how : Ending) → lots_asked lane ids output ≡ given ++ End how ∷ others → (how ≡ ending_of output.finish) × (others ≡ []) }
    // A fault is the ending exactly where the reads or the wait fail, and want of memory never is.
    ensures fault { (finish : Finish) → (ending_of finish ≡ Fault) ↔ ((finish ≡ ReadFault) ⊎ (finish ≡ WaitFault)) }
    ensures memory { (finish : Finish) → ending_of finish ≡ NoMemory → ⊥ }
    // The number stays, and a mark comes only where the count of faults rose, in one step or another.
    ensures keeps_none { (course : Coursing) (count : ℕ) → KeepsNumber course course count count }
    ensures keeps_more { (a b c : Coursing) (k l m : ℕ) → KeepsNumber a b k l → KeepsNumber b c l m → KeepsNumber a c k m }
{}

/// Laws of the tests of a lane's job that were lost.
pub fn tests_that_are_lost()
    // What is lost behind more events is what those leave of what was lost before.
    ensures in_turn { (ids : List (List ℕ)) (front more : List Event) → lost_ids ids (front ++ more) ≡ lost_ids (lost_ids ids front) more }
    // Where the child did not end with 0, the events, with those behind them, name each of the ids.
    ensures named { (lane : ℕ) (ids : List (List ℕ)) (events : List Event) (how : Ending) → (how ≡ Exit (pos 0) → ⊥) → (how ≡ NoMemory → ⊥) → AllByRecursion (λ id. list_any (is_of_id id) (events ++ last_events lane ids events how) ≡ true) ids }
{}
