//! Laws of the refusals of `run` and `list-tests`.

ghost use Rattle.suite_run.specs.NoneLost.{AreAllShort};
ghost use Rattle.command_steps.specs.declared.work_plan.LongId.{LongId as ALongId};
ghost use Rattle.std.specs.Prelude.{◌≡◌, ◌⊎◌, ℕ, ℤ, ◌++◌, List, Option, Result, Ok, Err, None, true, [], IsSome, IsSomeAnd, IsOk, IsErr, All};
ghost use Rattle.edge_io.specs.Disk.{Files};
ghost use Rattle.edge_io.specs.Seen.{Seen};
ghost use Rattle.edge_io.specs.Spawners.{Spawning};
ghost use Rattle.edge_io.specs.declared.job.Job.{Job as AJob};
ghost use Rattle.partition_times.specs.Patterns.{IsPattern};
ghost use Rattle.isolation_bisect.specs.declared.found.Found.{Found as AFound};
ghost use Rattle.suite_causes.specs.Analysis.{UsesNoBroken};
ghost use Rattle.suite_causes.specs.Searching.{Searches, probe_job};
ghost use Rattle.suite_causes.specs.declared.cause_search.SearchFault.{SearchFault as ASearchFault};
ghost use Rattle.suite_causes.specs.declared.cause_search.SearchFault.TheVariants as search_fault;
ghost use Rattle.suite_plan.specs.Calling.{CallsOut, TellsNone};
ghost use Rattle.suite_plan.specs.Children.{IsBroken};
ghost use Rattle.suite_plan.specs.Choosing.{Ids};
ghost use Rattle.testr_words.specs.Suites.{Project};
ghost use Rattle.suite_plan.specs.ConfFile.{ReadsConf, conf_in};
ghost use Rattle.suite_plan.specs.LaneJobs.{lane_jobs};
ghost use Rattle.suite_plan.specs.Listing.{ListsTests, HasFailed};
ghost use Rattle.suite_plan.specs.LoadList.{ReadsLoadList, HasNoId};
ghost use Rattle.suite_plan.specs.Patterns.{Compiles, IsFirstBadText, IsBadRegex};
ghost use Rattle.suite_plan.specs.PatternList.{ReadsPatternList, HasOtherLine, HasBadLine};
ghost use Rattle.suite_plan.specs.Processors.{CountsProcessors, table_name};
ghost use Rattle.suite_plan.specs.Texts.{HasTooMuch};
ghost use Rattle.suite_plan.specs.declared.count_command.CallRefusal.{CallRefusal as ACallRefusal};
ghost use Rattle.suite_plan.specs.declared.count_command.CallRefusal.TheVariants as call;
ghost use Rattle.suite_plan.specs.declared.conf_file.ConfRefusal.{ConfRefusal as AConfRefusal};
ghost use Rattle.suite_plan.specs.declared.conf_file.ConfRefusal.TheVariants as conf;
ghost use Rattle.suite_plan.specs.declared.test_listing.ListingRefusal.{ListingRefusal as AListingRefusal};
ghost use Rattle.suite_plan.specs.declared.test_listing.ListingRefusal.TheVariants as listing;
ghost use Rattle.suite_plan.specs.declared.load_list.ListRefusal.{ListRefusal as AListRefusal};
ghost use Rattle.suite_plan.specs.declared.pattern_list.PatternListRefusal.{PatternListRefusal as APatternListRefusal};
ghost use Rattle.suite_plan.specs.declared.patterns.Compiled.{Compiled as ACompiled};
ghost use Rattle.suite_plan.specs.declared.patterns.PatternRefusal.{PatternRefusal as APatternRefusal};
ghost use Rattle.suite_plan.specs.declared.patterns.PatternRefusal.TheVariants as pattern;
ghost use Rattle.suite_plan.specs.declared.processors.TableRefusal.{TableRefusal as ATableRefusal};
ghost use Rattle.suite_plan.specs.declared.processors.TableRefusal.TheVariants as table;
ghost use Rattle.testr_conf.specs.Jobs.{count_job_of, list_job_of};
ghost use Rattle.testr_conf.specs.Settings.{Settings};
ghost use Rattle.testr_conf.specs.declared.fault.JobFault.{JobFault as AJobFault};
ghost use Rattle.testr_conf.specs.declared.fault.JobFault.TheVariants as job;
ghost use Rattle.testr_commands.specs.ExactSuite.{Comes, NextMeets, IsNamedBad, ListEnds, IsListAbsent, IsListTooLong, IsNoId, PatternsEnd, IsPatternsAbsent, IsPatternsTooLong, IsNoText, IsBadLine, TimesEnd, IsTimesAbsent, IsTimesTooLong, IsNotTimes};
ghost use Rattle.command_steps.specs.Selecting.{HandsIds, MakesJobs, NamesIds, TimesById, ids_of_shares};
ghost use Rattle.command_steps.specs.TimesFile.{HasNoTimes, HasTooManyTimes, ReadsTimes};
ghost use Rattle.command_steps.specs.declared.times_file.TimesRefusal.{TimesRefusal as ATimesRefusal};

/// Where the cause of a named refusal of a step of `run` or `list-tests` is there, the step refuses by that name, unless a
/// call failed or memory was wanting before. That it comes only there is what the step itself says. So each comes exactly
/// where its cause is.
pub fn suite_refusals_are_exact()
    ensures bad_conf { (project : Project) (before after : Seen Files) (result : Result Settings AConfRefusal) → ReadsConf project before after result
        → (refusal : AConfRefusal) → IsSomeAnd before.told (λ files. conf_in project files ≡ Err refusal) → Comes refusal conf.Site conf.NoMemory result }
    ensures bad_pattern { (including excluding : Ids) (regex : Option (List ℕ)) (text : List ℕ) (result : Result ACompiled APatternRefusal) → Compiles including excluding regex result
        → IsFirstBadText (including ++ excluding) text → IsNamedBad text result ⊎ (result ≡ Err pattern.NoMemory) }
    ensures bad_regex { (including excluding : Ids) (regex : Option (List ℕ)) (text : List ℕ) (result : Result ACompiled APatternRefusal) → Compiles including excluding regex result
        → All IsPattern (including ++ excluding) → IsBadRegex regex text → IsNamedBad text result ⊎ (result ≡ Err pattern.NoMemory) }
    ensures no_list { (name : List ℕ) (before after : Seen Files) (result : Result Ids AListRefusal) → ReadsLoadList name before after result
        → IsSomeAnd before.told (λ files. files name ≡ None) → IsListAbsent name result ⊎ ListEnds result }
    ensures list_too_long { (name : List ℕ) (before after : Seen Files) (result : Result Ids AListRefusal) → ReadsLoadList name before after result
        → IsSomeAnd before.told (λ files. HasTooMuch files name) → IsListTooLong name result ⊎ ListEnds result }
    ensures no_id { (name : List ℕ) (before after : Seen Files) (result : Result Ids AListRefusal) → ReadsLoadList name before after result
        → (number : ℕ) → IsSomeAnd before.told (HasNoId name number) → IsNoId name number result ⊎ ListEnds result }
    ensures no_patterns { (name : List ℕ) (before after : Seen Files) (result : Result Ids APatternListRefusal) → ReadsPatternList name before after result
        → IsSomeAnd before.told (λ files. files name ≡ None) → IsPatternsAbsent name result ⊎ PatternsEnd result }
    ensures patterns_too_long { (name : List ℕ) (before after : Seen Files) (result : Result Ids APatternListRefusal) → ReadsPatternList name before after result
        → IsSomeAnd before.told (λ files. HasTooMuch files name) → IsPatternsTooLong name result ⊎ PatternsEnd result }
    ensures no_text { (name : List ℕ) (before after : Seen Files) (result : Result Ids APatternListRefusal) → ReadsPatternList name before after result
        → (number : ℕ) → IsSomeAnd before.told (HasOtherLine name number) → IsNoText name number result ⊎ PatternsEnd result }
    ensures bad_line { (name : List ℕ) (before after : Seen Files) (result : Result Ids APatternListRefusal) → ReadsPatternList name before after result
        → (number : ℕ) (pattern : List ℕ) → IsSomeAnd before.told (HasBadLine name number pattern) → IsBadLine name number pattern result ⊎ PatternsEnd result }
    ensures no_times { (name : List ℕ) (before after : Seen Files) (result : Result TimesById ATimesRefusal) → ReadsTimes name before after result
        → IsSomeAnd before.told (λ files. files name ≡ None) → IsTimesAbsent name result ⊎ TimesEnd result }
    ensures times_too_long { (name : List ℕ) (before after : Seen Files) (result : Result TimesById ATimesRefusal) → ReadsTimes name before after result
        → IsSomeAnd before.told (HasTooManyTimes name) → IsTimesTooLong name result ⊎ TimesEnd result }
    ensures not_times { (name : List ℕ) (before after : Seen Files) (result : Result TimesById ATimesRefusal) → ReadsTimes name before after result
        → IsSomeAnd before.told (HasNoTimes name) → IsNotTimes name result ⊎ TimesEnd result }
    ensures table_too_long { (before after : Seen Files) (result : Result ℕ ATableRefusal) → CountsProcessors before after result
        → IsSomeAnd before.told (λ files. HasTooMuch files table_name) → Comes table.TooLong table.Site table.NoMemory result }
    ensures bad_number { (settings : Settings) (before after : Seen Spawning) (result : Result (Option ℕ) ACallRefusal) → CallsOut settings before after result
        → (said : List ℕ) → IsSome (count_job_of settings) → NextMeets (TellsNone said) before → Comes (call.NoNumber said) call.Spawn call.NoMemory result }
    ensures count_broken { (settings : Settings) (before after : Seen Spawning) (result : Result (Option ℕ) ACallRefusal) → CallsOut settings before after result
        → IsSome (count_job_of settings) → NextMeets (λ output. IsBroken output.finish) before → Comes call.Child call.Spawn call.NoMemory result }
    ensures no_list_option { (settings : Settings) (before after : Seen Spawning) (result : Result Ids AListingRefusal) → ListsTests settings before after result
        → IsErr (list_job_of settings) → (result ≡ Err listing.NoListOption) ⊎ (result ≡ Err listing.NoMemory) }
    ensures listing_failed { (settings : Settings) (before after : Seen Spawning) (result : Result Ids AListingRefusal) → ListsTests settings before after result
        → (status : ℤ) (said : List ℕ) → IsOk (list_job_of settings) → NextMeets (HasFailed status said) before → Comes (listing.Failed status said) listing.Spawn listing.NoMemory result }
    ensures listing_broken { (settings : Settings) (before after : Seen Spawning) (result : Result Ids AListingRefusal) → ListsTests settings before after result
        → IsOk (list_job_of settings) → NextMeets (λ output. IsBroken output.finish) before → Comes listing.Child listing.Spawn listing.NoMemory result }
    ensures long_id { (shares : Option (List Ids)) (result : Result (Unit {0}) ALongId) → NamesIds shares result
        → (AreAllShort (ids_of_shares shares) → ⊥) → IsErr result }
    ensures no_option { (settings : Settings) (shares : Option (List Ids)) (fault : AJobFault) (result : Result (List AJob) AJobFault) → MakesJobs settings shares result
        → lane_jobs settings shares ≡ Err fault → (result ≡ Err fault) ⊎ (result ≡ Err job.NoMemory) }
    ensures no_id_option { (settings : Settings) (fault : AJobFault) (result : Result (Unit {0}) AJobFault) → HandsIds true settings result
        → probe_job settings [] ≡ Err fault → (result ≡ Err fault) ⊎ (result ≡ Err job.NoMemory) }
    ensures probe_broken { (settings : Settings) (candidates : Ids) (test : List ℕ) (before after : Seen Spawning) (result : Result AFound ASearchFault) → Searches settings candidates test before after result
        → IsSomeAnd before.told (λ s. UsesNoBroken test candidates s.outputs → ⊥) → Comes search_fault.Child search_fault.Spawn search_fault.NoMemory result }
{}
