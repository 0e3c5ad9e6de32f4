//! What the start of a run's children and the recording of their lanes come to.

ghost use Rattle.std.specs.Prelude.{◌≡◌, ◌≤◌, ℕ, Option, List, length};
ghost use Rattle.edge_io.specs.Children.{Output};
ghost use Rattle.edge_io.specs.Disk.{Folder};
ghost use Rattle.edge_io.specs.Spawners.{Spawning};
ghost use Rattle.edge_io.specs.declared.job.Job.{Job};
ghost use Rattle.outcome_fold.specs.Rows.{rows_of};
ghost use Rattle.packet_codec.specs.Lanes.{IsMerge};
ghost use Rattle.packet_codec.specs.declared.event.Event.{Event};
ghost use Rattle.suite_run.specs.NoneLost.{AreAllShort, LoseNone};
ghost use Rattle.suite_run.specs.Outputs.{AddsMergedOutputs};
ghost use Rattle.suite_run.specs.Starting.{HasStarted};
ghost use Rattle.worker_lane.specs.declared.lot.Lot.{Lot};
ghost use Rattle.worker_mux.specs.Outputs.{lists_asked};
ghost use Rattle.worker_mux.specs.Runs.{AddsMerge};

/// Laws of a run of jobs, at most 64, over a spawner that tells the outputs of its children.
pub fn outputs_are_recorded()
    // What is added to the draft is a merge of what is recorded of each output.
    ensures recorded { (jobs : List Job) (asked : List (List (List ℕ))) (rests : List (Option (List Lot))) (s t : Spawning) (old new : Option Folder) → length jobs ≤ 64 → (started : HasStarted jobs asked rests s t) → AddsMerge rests old new → AddsMergedOutputs asked started.outputs old new }
    // There is a list for each job.
    ensures lists { (jobs : List Job) (asked : List (List (List ℕ))) (rests : List (Option (List Lot))) (s t : Spawning) → (started : HasStarted jobs asked rests s t) → length (lists_asked 0 asked started.outputs) ≡ length jobs }
{}

/// The law that no test of a run's jobs vanishes: each id of a job is the id of a row of the run, or the job's child ended
/// with 0. The jobs name these ids, of which none has more than 65,536 bytes.
pub fn no_test_is_lost()
    ensures { (events : List Event) (asked : List (List (List ℕ))) (outputs : List Output) → AreAllShort asked → IsMerge events (lists_asked 0 asked outputs) → LoseNone (rows_of events) asked outputs }
{}
