//! For what the laws say of failed disks, passes, spares and blocks of several sectors a short trace that meets it, and
//! ones that don't. They are proved, not run.
ghost use Rattle.std.specs.Prelude.{◌≡◌, [], ◌∷◌, ◌++◌, take, Some, None};
ghost use Rattle.array_model.specs.declared.journal.Answer.TheVariants.{Done, NoSpare};
ghost use Rattle.array_model.specs.declared.journal.Event.TheVariants.{Begin};
ghost use Rattle.array_model.specs.Events.{AtEach};
ghost use Rattle.array_model.specs.Broken.{IsBroken};
ghost use Rattle.array_model.specs.Rounds.{HasFinished, BeginsContainer};
ghost use Rattle.array_model.specs.Form.{IsJournal};
ghost use Rattle.array_model.specs.FailureLaw.{FailureLaw, AckOverFaults, TellsEachFailure};
ghost use Rattle.array_model.specs.AnswerLaw.{AnswerLaw};
ghost use Rattle.array_model.specs.Small.{small_start, write_and_read, failing_log, failing_journal, syncs, gets};
ghost use Rattle.array_model.specs.SmallFailures.{nothing_asked, degraded_start, dropping_log, rebuilding_start, rebuilding_log, faulty_journal, forgetful_journal, activating_start, activating_log, activating_journal, counting_start, belated_log, belated_journal, untold_log, untold_journal, told_journal, late_journal, other_journal, sparing_start, sparing_log, spares_log, parity_hasty, passing_from, passing_log, passing_journal, pass_journal, point_journal, early_point_journal, uneven_point_journal, same_point_journal, whole_script, answered, spare_start, one_fault, two_faults, doubted_start, doubted_fault, third_fault, parity_start, long_block, long_writes, long_candidates, long_mark, whole_block_log, failed_rest_log, anchor_log, parted_log, synced_between_log};

/// A round whose block calls a disk failed meets the failure law where the disk has a fault. Where it hasn't, the round
/// forgets a member. Where its block has a slot out of sync on a healthy disk, it forgets the slot.
pub fn example_of_a_round_that_keeps()
    ensures meets { FailureLaw small_start [] dropping_log faulty_journal }
    ensures member { FailureLaw small_start [] dropping_log forgetful_journal → ⊥ }
    ensures slot { FailureLaw rebuilding_start [] rebuilding_log forgetful_journal → ⊥ }
{}

/// A write is done on a mirror whose second slot an activation gave to a spare before its submit, while the disk that had
/// the slot has a fault. Where the round's block calls that disk failed, no failure is passed over. Where it goes on to
/// expect it, one is, though no slot names the disk since the submit.
pub fn example_of_an_activation()
    ensures meets { AtEach (λ front e. AckOverFaults activating_start write_and_read
        (take e.stamp (activating_log 66)) front e.event) activating_journal }
    ensures expected { FailureLaw activating_start write_and_read (activating_log 0) activating_journal → ⊥ }
{}

/// A first round whose block has the slot of a disk out of sync that the opening counts out meets the failure law. A
/// later one forgets the slot.
pub fn example_of_a_disk_that_counts_out()
    ensures meets { FailureLaw counting_start [] rebuilding_log forgetful_journal }
    ensures belated { FailureLaw counting_start [] belated_log belated_journal → ⊥ }
{}

/// Each failed call is told where its fault comes right behind it, also where it is the last one. It isn't where the
/// journal ends without a word of it, though that much the law of a run that ends there lets be; nor where the fault
/// comes a call later, or is the other disk's.
pub fn example_of_failures_that_are_told()
    ensures meets { TellsEachFailure failing_log failing_journal }
    ensures last { TellsEachFailure untold_log told_journal }
    ensures untold { TellsEachFailure untold_log untold_journal → ⊥ }
    ensures lets { FailureLaw small_start [] untold_log untold_journal }
    ensures late { TellsEachFailure untold_log late_journal → ⊥ }
    ensures other { TellsEachFailure untold_log other_journal → ⊥ }
{}

/// A round's block is a container's: what is written to a spare under the same generation is none, so that the round has
/// one block. With the spare's block alone the round has none, and one that begins so isn't a container's.
pub fn example_of_a_spare()
    ensures one { HasFinished sparing_start sparing_log forgetful_journal }
    ensures none { HasFinished sparing_start spares_log forgetful_journal → ⊥ }
    ensures begins { BeginsContainer sparing_start spares_log 0 (Begin 2) → ⊥ }
{}

/// A write on a parity volume is acknowledged over a fault of its sector's disk that no block records: refused, as on a
/// mirror.
pub fn example_of_a_parity_write()
    ensures { FailureLaw (parity_start 0) write_and_read [] parity_hasty → ⊥ }
{}

/// A pass has come to row 1,024 when a round begins. With unit 8 in its block the failure law is met. With unit 0 the
/// checkpoint stays behind.
pub fn example_of_a_checkpoint()
    ensures meets { FailureLaw (passing_from (Some 0)) [] (passing_log 8) passing_journal }
    ensures behind { FailureLaw (passing_from (Some 0)) [] (passing_log 0) passing_journal → ⊥ }
{}

/// A pass that the opening gives, and a point of it, have the form of a journal. A pass without a reason hasn't, nor a
/// point without a pass, one at a unit that isn't a multiple of eight, or one that doesn't rise.
pub fn example_of_passes_and_points()
    ensures meets { IsJournal (passing_from (Some 0)) nothing_asked 9 point_journal }
    ensures without_a_reason { IsJournal (passing_from None) nothing_asked 9 pass_journal → ⊥ }
    ensures without_a_pass { IsJournal (passing_from (Some 0)) nothing_asked 9 early_point_journal → ⊥ }
    ensures uneven { IsJournal (passing_from (Some 0)) nothing_asked 9 uneven_point_journal → ⊥ }
    ensures same { IsJournal (passing_from (Some 0)) nothing_asked 13 same_point_journal → ⊥ }
{}

/// With the second disk failed a read of the first one's row meets the answer law. A read of the second doesn't, nor a
/// read of the first once it has a fault.
pub fn example_of_reads_in_sync()
    ensures meets { AnswerLaw degraded_start nothing_asked (gets 0 5 ∷ []) [] }
    ensures out_of_sync { AnswerLaw degraded_start nothing_asked (gets 1 5 ∷ []) [] → ⊥ }
    ensures faulty { AnswerLaw degraded_start nothing_asked (gets 0 5 ∷ []) one_fault → ⊥ }
{}

/// `whole` is answered `done` where both members are in sync. It isn't where one failed, nor while a pass is open.
pub fn example_of_whole()
    ensures meets { AnswerLaw small_start whole_script [] (answered Done) }
    ensures degraded { AnswerLaw degraded_start whole_script [] (answered Done) → ⊥ }
    ensures passing { AnswerLaw (passing_from (Some 0)) whole_script [] (answered Done) → ⊥ }
{}

/// `whole` is answered `nospare` where a member failed and the only spare is too small. It isn't where the spare has
/// the sectors that a member needs, nor where no member failed.
pub fn example_of_no_spare()
    ensures meets { AnswerLaw (spare_start 1041) whole_script [] (answered NoSpare) }
    ensures served { AnswerLaw (spare_start 1042) whole_script [] (answered NoSpare) → ⊥ }
    ensures sound { AnswerLaw small_start whole_script [] (answered NoSpare) → ⊥ }
{}

/// A mirror is broken by two faults, and not by one. Where the verdict counts its second disk out, it is broken by a
/// fault of the first, and not by one of the second. A parity volume is broken by one fault where it was left dirty, and
/// not where it was left clean.
pub fn example_of_broken_volumes()
    ensures two { IsBroken small_start [] two_faults 0 }
    ensures one { IsBroken small_start [] one_fault 0 → ⊥ }
    ensures doubted { IsBroken doubted_start [] one_fault 0 }
    ensures doubt { IsBroken doubted_start [] doubted_fault 0 → ⊥ }
    ensures torn { IsBroken (parity_start 1) [] third_fault 0 }
    ensures clean { IsBroken (parity_start 0) [] third_fault 0 → ⊥ }
{}

/// A block of two sectors is written where its extended part and then its anchor are, gone through or not; a sync
/// makes it the only candidate, and marks its generation. An anchor alone writes no block, nor one that another write
/// into the metadata's sectors parts from its extended part. A client's write and sync may come between: that sync
/// doesn't count, and the block is written.
pub fn example_of_blocks_of_two_sectors()
    ensures written { long_writes whole_block_log ≡ long_block 2 ∷ [] }
    ensures both { long_candidates whole_block_log ≡ long_block 2 ∷ long_block 1 ∷ [] }
    ensures synced { long_candidates (whole_block_log ++ syncs 0 ∷ []) ≡ long_block 2 ∷ [] }
    ensures failed { long_writes failed_rest_log ≡ long_block 2 ∷ [] }
    ensures alone { long_writes anchor_log ≡ [] }
    ensures parted { long_writes parted_log ≡ [] }
    ensures between { long_candidates synced_between_log ≡ long_block 2 ∷ long_block 1 ∷ [] }
    ensures mark { long_mark synced_between_log ≡ 1 }
    ensures marked { long_mark (whole_block_log ++ syncs 0 ∷ []) ≡ 2 }
{}
