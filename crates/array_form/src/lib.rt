//! The form of a run's journal: how often each kind of entry comes, and what stands before it. The laws are proved of
//! every run of the machine, and the functions have them as their contracts and nothing to run.
#![tactic(auto)]

ghost use Rattle.std.specs.Prelude.{List};
ghost use Rattle.array_base.specs.Laws.{OfEachWorld};
ghost use Rattle.array_form.specs.Passes.{KeepsPassCounts, TellsOfPassesOnce};
ghost use Rattle.array_form.specs.Names.{NamesWhatIsThere};
ghost use Rattle.array_form.specs.PassStarts.{PassesStartSo};
ghost use Rattle.array_form.specs.RoundCounts.{KeepsFailureCounts, KeepsRoundCounts};
ghost use Rattle.array_form.specs.Short.{KeepsToRoom};
ghost use Rattle.array_form.specs.SmallForm.{twice_ready, twice_failed, twice_ended, passing_journal, twice_passed, twice_told, waits_on_its_own, names_a_third, endless_journal, spared_start};
ghost use Rattle.array_form.specs.Stamped.{IsStamped};
ghost use Rattle.array_form.specs.StateCounts.{KeepsStateCounts};
ghost use Rattle.array_form.specs.Waits.{WaitsBehindSubmits};
ghost use Rattle.array_model.specs.Counts.{IsShort};
ghost use Rattle.array_model.specs.Script.{Asked};
ghost use Rattle.array_model.specs.Small.{small_start, the_script, write_and_read, worked_journal, falling_journal};
ghost use Rattle.array_model.specs.Start.{Start};
ghost use Rattle.array_model.specs.declared.journal.Entry.{Entry};

/// In every run a volume is made ready once at most, waits for its metadata at most as often as writes to it are
/// submitted, is active at most as often as it waited, falls idle at most as often as writes are submitted, and is
/// called clean at most as often as it fell idle.
pub fn states_keep_their_counts()
    ensures { OfEachWorld (λ S P w. KeepsStateCounts S.asked.ops w.journal) }
{}

/// In every run a disk fails once at most, and is let go once at most; and a monitor is taken over at most as often as
/// one is killed.
pub fn failures_keep_their_counts()
    ensures { OfEachWorld (λ S P w. KeepsFailureCounts w.journal) }
{}

/// In every run a volume waits for its metadata right behind the submit of a write to it, in the same turn.
pub fn volumes_wait_behind_their_submits()
    ensures { OfEachWorld (λ S P w. WaitsBehindSubmits S.asked.ops w.journal) }
{}

/// In every run a round ends at most as often as one begins, a disk becomes a spare at most as often as an update is
/// applied, and an update is applied or declined at most as often as one is posted.
pub fn rounds_keep_their_counts()
    ensures { OfEachWorld (λ S P w. KeepsRoundCounts w.journal) }
{}

/// In every run a pass of a volume begins at most as often as the volume is made ready and updates are applied.
pub fn passes_keep_their_counts()
    ensures { OfEachWorld (λ S P w. KeepsPassCounts w.journal) }
{}

/// In every run the stamps of the journal rise, none above the number of calls made, and submits and acks name
/// operations of the script.
pub fn journals_are_stamped()
    ensures { OfEachWorld (λ S P w. IsStamped S.asked.ops w.calls w.journal) }
{}

/// In every run each disk that the journal names is one of the bank, and each volume was started at opening.
pub fn entries_name_what_is_there()
    ensures { OfEachWorld (λ S P w. NamesWhatIsThere S.start w.journal) }
{}

/// A journal that keeps its counts, names what is there and answers in order, over two volumes at most, is at least
/// four entries shorter than the length that is said to be enough for its script.
pub fn journals_that_keep_their_counts_are_short()
    ensures { (start : Start) (asked : Asked) (journal : List Entry) → KeepsToRoom start asked journal
        → IsShort start asked journal }
{}

/// The journal of one write and one read has all of this, and in another a pass begins with a ready and one with an
/// activation. The laws refuse journals that break a count (ready, failed, ended, passed or told twice), a pass without
/// a cause, a wait in another turn, a disk that isn't there, stamps that fall, and 145 rounds for two operations.
pub fn example_of_the_form()
    ensures states { KeepsStateCounts write_and_read worked_journal }
    ensures failures { KeepsFailureCounts worked_journal }
    ensures rounds { KeepsRoundCounts worked_journal }
    ensures passes { KeepsPassCounts worked_journal }
    ensures once { TellsOfPassesOnce passing_journal }
    ensures starts { PassesStartSo small_start the_script worked_journal }
    ensures waits { WaitsBehindSubmits write_and_read worked_journal }
    ensures names { NamesWhatIsThere small_start worked_journal }
    ensures kept { KeepsToRoom small_start the_script worked_journal }
    ensures short { IsShort small_start the_script worked_journal }
    ensures stamps { IsStamped write_and_read 17 worked_journal }
    ensures twice_ready { KeepsStateCounts write_and_read twice_ready → ⊥ }
    ensures twice_failed { KeepsFailureCounts twice_failed → ⊥ }
    ensures twice_ended { KeepsRoundCounts twice_ended → ⊥ }
    ensures twice_passed { KeepsPassCounts twice_passed → ⊥ }
    ensures twice_told { TellsOfPassesOnce twice_told → ⊥ }
    ensures started { PassesStartSo spared_start the_script passing_journal }
    ensures spareless { PassesStartSo small_start the_script passing_journal → ⊥ }
    ensures causeless { PassesStartSo small_start the_script twice_passed → ⊥ }
    ensures long { IsShort small_start the_script endless_journal → ⊥ }
    ensures nowhere { NamesWhatIsThere small_start names_a_third → ⊥ }
    ensures alone { WaitsBehindSubmits write_and_read waits_on_its_own → ⊥ }
    ensures falls { IsStamped write_and_read 17 falling_journal → ⊥ }
{}

/// In every run the end of a round says one word at most of each volume's pass: points, ends and beginnings of passes
/// are no more than ends of rounds and the volume's ready, behind which a pass begins too.
pub fn ends_tell_of_each_pass_once()
    ensures { OfEachWorld (λ S P w. TellsOfPassesOnce w.journal) }
{}

/// In every run a pass of a volume begins right behind the volume's ready, in the same turn, or where an update was
/// applied that is no ask's, the activation of a spare: some disk was one at opening, or an ask makes one.
pub fn passes_begin_for_a_cause()
    ensures { OfEachWorld (λ S P w. PassesStartSo S.start S.asked w.journal) }
{}
