//! Laws of the refusals, and of what is told behind lines.

ghost use Rattle.std.specs.Prelude.{◌≡◌, ◌≢◌, ◌⊎◌, ◌<◌, ◌≤◌, ℕ, Bool, true, false, List, ◌∷◌, ◌++◌, Result, Ok, Err, None, IsSome, IsSomeAnd, All, length};
ghost use Rattle.edge_io.specs.Disk.{Folder};
ghost use Rattle.edge_io.specs.Seen.{Seen};
ghost use Rattle.outcome_fold.specs.declared.row.Row.{Row as ARow};
ghost use Rattle.run_shelf.specs.declared.faults.InitFault.{InitFault as AnInitFault};
ghost use Rattle.run_shelf.specs.declared.faults.InitFault.TheVariants.{Exists};
ghost use Rattle.run_shelf.specs.declared.faults.OpenFault.{OpenFault as AnOpenFault};
ghost use Rattle.run_shelf.specs.declared.faults.OpenFault.TheVariants.{NoStore, UnknownFormat, BadBase, Gap};
ghost use Rattle.run_shelf.specs.declared.found.Found.{Found as AFound};
ghost use Rattle.run_shelf.specs.Repository.{format_name, HasFormat, HasOtherFormat, HasBadBase, IsGap, most_runs};
ghost use Rattle.testr_words.specs.declared.command.Question.{Question as AQuestion};
ghost use Rattle.old_folder.specs.Looking.{HasStrangeFormat, LacksCount};
ghost use Rattle.old_upgrade.specs.Upgrading.{HasBadRun, HasBadFailing};
ghost use Rattle.old_upgrade.specs.declared.faults.UpgradeFault.{UpgradeFault as AnUpgradeFault};
ghost use Rattle.old_upgrade.specs.declared.faults.UpgradeFault.TheVariants as upgrade_fault;
ghost use Rattle.command_steps.specs.declared.input_recorder.RecordFault.{RecordFault as ARecordFault};
ghost use Rattle.command_steps.specs.declared.input_recorder.RecordFault.TheVariants.{TooLong};
ghost use Rattle.command_steps.specs.declared.store.RunsFault.{RunsFault as ARunsFault};
ghost use Rattle.command_steps.specs.declared.store.RunsFault.TheVariants.{Full, NoRuns};
ghost use Rattle.command_steps.specs.declared.question_answers.TellFault.{TellFault as ATellFault};
ghost use Rattle.command_steps.specs.declared.question_answers.TellFault.TheVariants.{Shelf as CachesShelf};
ghost use Rattle.testr_commands.specs.Exact.{InitEnds, OpenEnds, RecordEnds, IsNoFile, IsFileTooLong, UpgradeEnds};
ghost use Rattle.command_steps.specs.Files.{RecordsFiles};
ghost use Rattle.command_steps.specs.Outside.{Fed, Filed, Outside as AnOutside};
ghost use Rattle.command_steps.specs.Recording.{Records};
ghost use Rattle.command_steps.specs.Refreshing.{Refreshes};
ghost use Rattle.testr_words.specs.Questions.{OfLastRun};
ghost use Rattle.edge_io.specs.Causes.{Rose};
ghost use Rattle.edge_io.specs.Limits.{most_bytes};
ghost use Rattle.speaker.specs.Speaking.{Takes};
ghost use Rattle.std.specs.Io.KnownBytes.{Appends};
ghost use Rattle.command_steps.specs.declared.answer.Refusal.{Refusal as ARefusal};
ghost use Rattle.command_steps.specs.declared.answer.Verdict.{Verdict as AVerdict};
ghost use Rattle.testr_commands.specs.Elsewhere.{AsksNone, AsksSome, Elsewhere, ElsewhereThen, TestrPromises};
ghost use Rattle.testr_commands.specs.JobOrder.{HasJobOrder};
ghost use Rattle.testr_commands.specs.Program.{Tells};
ghost use Rattle.testr_commands.specs.WholeCall.{PromisesHere};
ghost use Rattle.testr_words.specs.Words.{command_of};
ghost use Rattle.testr_words.specs.declared.command.Command.{Command as ACommand};
ghost use Rattle.testr_words.specs.declared.command.Face.{Face as AFace};
ghost use Rattle.testr_commands.specs.Spoken.{outcome_text};
ghost use Rattle.command_steps.specs.Store.{Makes, Opens, TakesRun, HasRunFor};
ghost use Rattle.command_steps.specs.Upgrading.{UpgradesFolder};

/// Where the cause of a named refusal is there, the step refuses by that name, unless a call failed or memory was wanting
/// before. That it comes only there is what the step itself says. So each comes exactly where its cause is. Where the
/// folder's count rose in the step of the caches, this refuses by the folder's fault.
pub fn refusals_are_exact()
    ensures already_here { (before after : Seen Folder) (result : Result (Unit {0}) AnInitFault) → Makes before after result
        → IsSomeAnd before.told (λ s. IsSome (s.disk.published format_name)) → (result ≡ Err Exists) ⊎ InitEnds result }
    ensures no_repository { (before after : Seen Folder) (result : Result AFound AnOpenFault) → Opens before after result
        → IsSomeAnd before.told (λ s. s.disk.published format_name ≡ None) → (result ≡ Err NoStore) ⊎ OpenEnds result }
    ensures unknown_format { (before after : Seen Folder) (result : Result AFound AnOpenFault) → Opens before after result
        → IsSomeAnd before.told (λ s. HasOtherFormat s.disk.published) → (result ≡ Err UnknownFormat) ⊎ OpenEnds result }
    ensures bad_base { (before after : Seen Folder) (result : Result AFound AnOpenFault) → Opens before after result
        → IsSomeAnd before.told (λ s. HasFormat s.disk.published × HasBadBase s.disk.published) → (result ≡ Err BadBase) ⊎ OpenEnds result }
    ensures missing_run { (before after : Seen Folder) (result : Result AFound AnOpenFault) (number : ℕ) → Opens before after result
        → IsSomeAnd before.told (λ s. HasFormat s.disk.published × IsGap s.disk.published number) → (result ≡ Err (Gap number)) ⊎ OpenEnds result }
    ensures full { (result : Result (Unit {0}) ARunsFault) → TakesRun most_runs result → result ≡ Err Full }
    ensures no_runs { (question : AQuestion) (result : Result (Unit {0}) ARunsFault) → HasRunFor question 0 result → OfLastRun question → result ≡ Err NoRuns }
    ensures too_long { (before after : Fed) (result : Result (List ARow) ARecordFault) → Records before after result
        → IsSomeAnd before.input.told (λ bytes. most_bytes < length bytes) → (result ≡ Err TooLong) ⊎ RecordEnds result }
    ensures caches_not_kept { (number : ℕ) (rows : List ARow) (before after : Seen Folder) (result : Result (Unit {0}) ATellFault) → Refreshes number rows before after result
        → after.faults ≢ before.faults → result ≡ Err CachesShelf }
    ensures no_file { (front back : List (List ℕ)) (name : List ℕ) (before after : Filed) (result : Result (List ARow) ARecordFault) → RecordsFiles (front ++ name ∷ back) before after result
        → IsSomeAnd before.site.told (λ files. All (λ n. IsSomeAnd (files n) (λ bytes. length bytes ≤ most_bytes)) front × (files name ≡ None)) → IsNoFile name result ⊎ RecordEnds result }
    ensures file_too_long { (front back : List (List ℕ)) (name : List ℕ) (before after : Filed) (result : Result (List ARow) ARecordFault) → RecordsFiles (front ++ name ∷ back) before after result
        → IsSomeAnd before.site.told (λ files. All (λ n. IsSomeAnd (files n) (λ bytes. length bytes ≤ most_bytes)) front × IsSomeAnd (files name) (λ bytes. most_bytes < length bytes)) → IsFileTooLong name result ⊎ RecordEnds result }
{}

/// The same of an upgrade. Where the folder holds the cause of a named refusal, the step refuses by that name, unless a call
/// of the folder failed or memory was wanting. Of runs that are damaged it names the first.
pub fn upgrade_refusals_are_exact()
    ensures no_repository { (before after : Seen Folder) (result : Result ℕ AnUpgradeFault) → UpgradesFolder before after result
        → IsSomeAnd before.told (λ s. s.disk.published format_name ≡ None) → (result ≡ Err upgrade_fault.NoStore) ⊎ UpgradeEnds result }
    ensures not_old { (before after : Seen Folder) (result : Result ℕ AnUpgradeFault) → UpgradesFolder before after result
        → IsSomeAnd before.told (λ s. HasFormat s.disk.published) → (result ≡ Err upgrade_fault.NotOld) ⊎ UpgradeEnds result }
    ensures unknown_format { (before after : Seen Folder) (result : Result ℕ AnUpgradeFault) → UpgradesFolder before after result
        → IsSomeAnd before.told (λ s. HasStrangeFormat s.disk.published) → (result ≡ Err upgrade_fault.UnknownFormat) ⊎ UpgradeEnds result }
    ensures bad_count { (before after : Seen Folder) (result : Result ℕ AnUpgradeFault) → UpgradesFolder before after result
        → IsSomeAnd before.told (λ s. LacksCount s.disk.published) → (result ≡ Err upgrade_fault.BadCount) ⊎ UpgradeEnds result }
    ensures bad_run { (before after : Seen Folder) (result : Result ℕ AnUpgradeFault) → UpgradesFolder before after result
        → (number : ℕ) → IsSomeAnd before.told (λ s. HasBadRun number s.disk.published) → (result ≡ Err (upgrade_fault.BadRun number)) ⊎ UpgradeEnds result }
    ensures bad_failing { (before after : Seen Folder) (result : Result ℕ AnUpgradeFault) → UpgradesFolder before after result
        → IsSomeAnd before.told (λ s. HasBadFailing s.disk.published) → (result ≡ Err upgrade_fault.BadFailing) ⊎ UpgradeEnds result }
{}

/// What was said while a run went on, and then what is told of the outcome, went to the errors' sink, one behind the other, where
/// no fault of it came.
pub fn refusals_stand_behind_lines()
    ensures behind { (front : List ℕ) (start spoken after : Seen (List ℕ)) (failed : Bool) (outcome : Result AVerdict ARefusal) (answer : ℕ) → Takes front start spoken failed
        → (failed ≡ false → Tells outcome spoken after answer) → (failed ≡ true → after ≡ spoken) → (Rose start.faults after.faults → ⊥) → Appends start.told after.told (front ++ outcome_text outcome) }
{}

/// Where a project is told to ask for no instances, `testr` promises of its words what it promises of tests that run here, to the
/// letter. Where it is told to ask for some, it promises what is done on them, but for a call that failed or want of memory.
pub fn tests_run_elsewhere_where_asked()
    ensures here { (folder : List ℕ) (face : AFace) (words : List (List ℕ)) (before after : AnOutside) (answer : ℕ) → TestrPromises folder face words before after answer
        → AsksNone folder (command_of face words) before.site → PromisesHere folder face words before after answer }
    ensures there { (folder : List ℕ) (face : AFace) (words : List (List ℕ)) (before after : AnOutside) (answer : ℕ) → TestrPromises folder face words before after answer
        → AsksSome folder (command_of face words) before.site → ElsewhereThen folder (command_of face words) before after answer ⊎ (4 ≤ answer) }
{}

/// A call whose project asks for instances starts its jobs in this order: at most the one that counts the workers; the provision
/// job; those of the command; and last the dispose job of the instances that were named, exactly where the provision job ended with
/// 0, unless there is none or its start failed. Where the provision job was not started, or ended otherwise, nothing is started
/// behind it; nor where its output is longer than can be counted.
pub fn instances_are_disposed_of_last()
    ensures order { (folder : List ℕ) (command : ACommand) (before after : AnOutside) (answer : ℕ) → Elsewhere folder command before after answer
        → HasJobOrder folder command before after }
{}
