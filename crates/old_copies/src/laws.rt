//! The laws of a copy.

ghost use Rattle.std.specs.Prelude.{◌≡◌, ◌⊎◌, ℕ, List, Result, Err, None};
ghost use Rattle.run_shelf.specs.Adoption.{IsOld};
ghost use Rattle.run_shelf.specs.Repository.{format_name, HasFormat};
ghost use Rattle.old_folder.specs.Looking.{HasStrangeFormat, LacksCount};
ghost use Rattle.old_copies.specs.Copying.{Places, HasOtherFiles, CopiesOld};
ghost use Rattle.old_copies.specs.Exact.{AreTold, IsFreeFor, CopyEnds};
ghost use Rattle.old_copies.specs.declared.faults.OldCopyFault.{OldCopyFault as AnOldCopyFault};
ghost use Rattle.old_copies.specs.declared.faults.OldCopyFault.TheVariants.{Here, OldHere, StrangeHere, NoStore, NotOld, UnknownFormat, BadCount, OtherFiles};

/// Where both folders are told, and the cause of a named refusal of a copy is there but none of an earlier one, the copy is
/// refused by that name, unless memory was wanting or the fault count of the folder here or of the files rose. That it comes
/// only there is what the copy itself says. So each comes exactly where its cause is.
pub fn copy_refusals_are_exact()
    ensures here { (from : List ℕ) (before after : Places) (result : Result (Unit {0}) AnOldCopyFault) → CopiesOld from before after result
        → AreTold from before (λ old files. HasFormat files) → (result ≡ Err Here) ⊎ CopyEnds before after result }
    ensures old_here { (from : List ℕ) (before after : Places) (result : Result (Unit {0}) AnOldCopyFault) → CopiesOld from before after result
        → AreTold from before (λ old files. IsOld files) → (result ≡ Err OldHere) ⊎ CopyEnds before after result }
    ensures strange_here { (from : List ℕ) (before after : Places) (result : Result (Unit {0}) AnOldCopyFault) → CopiesOld from before after result
        → AreTold from before (λ old files. HasStrangeFormat files) → (result ≡ Err StrangeHere) ⊎ CopyEnds before after result }
    ensures no_store { (from : List ℕ) (before after : Places) (result : Result (Unit {0}) AnOldCopyFault) → CopiesOld from before after result
        → AreTold from before (IsFreeFor (λ old. old format_name ≡ None)) → (result ≡ Err NoStore) ⊎ CopyEnds before after result }
    ensures not_old { (from : List ℕ) (before after : Places) (result : Result (Unit {0}) AnOldCopyFault) → CopiesOld from before after result
        → AreTold from before (IsFreeFor HasFormat) → (result ≡ Err NotOld) ⊎ CopyEnds before after result }
    ensures unknown_format { (from : List ℕ) (before after : Places) (result : Result (Unit {0}) AnOldCopyFault) → CopiesOld from before after result
        → AreTold from before (IsFreeFor HasStrangeFormat) → (result ≡ Err UnknownFormat) ⊎ CopyEnds before after result }
    ensures bad_count { (from : List ℕ) (before after : Places) (result : Result (Unit {0}) AnOldCopyFault) → CopiesOld from before after result
        → AreTold from before (IsFreeFor LacksCount) → (result ≡ Err BadCount) ⊎ CopyEnds before after result }
    ensures other_files { (from : List ℕ) (before after : Places) (result : Result (Unit {0}) AnOldCopyFault) → CopiesOld from before after result
        → AreTold from before (λ old files. IsFreeFor (λ given. HasOtherFiles given files) old files) → (result ≡ Err OtherFiles) ⊎ CopyEnds before after result }
{}
