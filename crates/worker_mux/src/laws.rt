//! What the rule of the belt says of each step, and what is recorded of children that tell their output.

ghost use Rattle.std.specs.Prelude.{◌≡◌, ◌<◌, ◌≤◌, ◌+◌, ◌∷◌, ◌++◌, ◌⊎◌, ℕ, Option, Some, IfSome, List, [], Contains, length, map};
ghost use Rattle.std.specs.List.{AllByRecursion};
ghost use Rattle.std.specs.Option.{option_map};
ghost use mathlib.Core.Option.{some};
ghost use lib.ListN.{get_elem?};
ghost use Rattle.edge_io.specs.Children.{Output, IsOutput};
ghost use Rattle.edge_io.specs.Disk.{Folder};
ghost use Rattle.worker_lane.specs.Rest.{lots_asked};
ghost use Rattle.worker_lane.specs.declared.lot.Lot.{Lot};
ghost use Rattle.worker_mux.specs.Outputs.{AreAllTexts, ids_at, lots_asked_from, AddsTold, AddsOutputs};
ghost use Rattle.worker_mux.specs.Runs.{AddsMerge};
ghost use Rattle.worker_mux.specs.declared.knowledge.Knowledge.{Knowledge};
ghost use Rattle.worker_mux.specs.declared.knowledge.Knowledge.TheVariants.{Lane, Taker};
ghost use Rattle.worker_mux.specs.declared.knowledge.Parcel.{Parcel};
ghost use Rattle.worker_mux.specs.declared.knowledge.Settled.{Settled};
ghost use Rattle.worker_mux.specs.Rule.{lots_of, HasEachOnce, Kept, Stood, Accounts, OfLanes};

/// Laws of each step of a belt, in any schedule of the threads. `Stood`, which the clauses of `Belt` tell of their steps,
/// has them for what the belt then held, front first, and for what its passes then knew.
pub fn lanes_stay_whole()
    // What was taken of a pass's lane, and then what the belt holds of it, is the pass's list.
    ensures pass { (n : ℕ) (list : List Lot) (items : List Parcel) → Stood (Lane n list) items → (count : ℕ) × (taken : List Parcel) × (settled : List Settled) × Stood (Taker count taken settled) items × (n < count) × (lots_of n taken ++ lots_of n items ≡ list) }
    // Of the taker each lane has such a list, which a pass or the table of settled lanes has.
    ensures lane { (count : ℕ) (taken items : List Parcel) (settled : List Settled) → Stood (Taker count taken settled) items → (n : ℕ) → n < count → (list : List Lot) × (lots_of n taken ++ lots_of n items ≡ list) × (Stood (Lane n list) items ⊎ Contains settled (record { lane = n; list = list })) }
    ensures settled { (count : ℕ) (taken items : List Parcel) (settled : List Settled) → Stood (Taker count taken settled) items → Accounts (Taker count taken settled) items × HasEachOnce settled }
    // Nothing is of another lane.
    ensures of_lanes { (count : ℕ) (taken items : List Parcel) (settled : List Settled) → Stood (Taker count taken settled) items → OfLanes (Taker count taken settled) × OfLanes (Taker count items settled) }
    // Each lane has one pass at most, and none once it is settled; and there is one taker.
    ensures one_pass { (items : List Parcel) (views : List Knowledge) → Kept items views → (pass other n : ℕ) (list more : List Lot) → get_elem? views pass ≡ some (Lane n list) → get_elem? views other ≡ some (Lane n more) → pass ≡ other }
    ensures one_holder { (items : List Parcel) (views : List Knowledge) → Kept items views → (pass reader n count : ℕ) (list more : List Lot) (taken : List Parcel) (settled : List Settled) → get_elem? views pass ≡ some (Lane n list) → get_elem? views reader ≡ some (Taker count taken settled) → Contains settled (record { lane = n; list = more }) → ⊥ }
    ensures one_taker { (items : List Parcel) (views : List Knowledge) → Kept items views → (pass other c d : ℕ) (taken more : List Parcel) (settled others : List Settled) → get_elem? views pass ≡ some (Taker c taken settled) → get_elem? views other ≡ some (Taker d more others) → pass ≡ other }
{}

/// Laws of what `run_lanes` adds over children of which some or all tell their output: bytes, and a status of 32 bits. What
/// the lanes have to give, as `Lane::new` says it of each, is `lots_asked_from 0`, where the first lane is number 0, the
/// next one number 1, and so on. The ids that their jobs name are texts.
pub fn outputs_are_merged()
    // The run has grown by the packets of events, and of each lane whose child tells they are those of its output.
    ensures told { (rests : List (Option (List Lot))) (asked : List (List (List ℕ))) (told : List (Option Output)) (old new : Option Folder) → length told ≤ 64 → AreAllTexts asked → AllByRecursion (λ t. IfSome t IsOutput) told → rests ≡ lots_asked_from 0 asked told → AddsMerge rests old new → AddsTold asked told old new }
    // Where all children tell, the events are a merge of those of their outputs, and no others.
    ensures all_told { (rests : List (Option (List Lot))) (asked : List (List (List ℕ))) (outputs : List Output) (old new : Option Folder) → length outputs ≤ 64 → AreAllTexts asked → AllByRecursion IsOutput outputs → rests ≡ lots_asked_from 0 asked (map Some outputs) → AddsMerge rests old new → AddsOutputs asked outputs old new }
    // One lane more, of the next number.
    ensures one_more { (lane : ℕ) (asked : List (List (List ℕ))) (told : List (Option Output)) (t : Option Output) → lots_asked_from lane asked (told ++ t ∷ []) ≡ lots_asked_from lane asked told ++ option_map (lots_asked (lane + length told) (ids_at asked (length told))) t ∷ [] }
{}
