//! What a device call does to the metadata of a disk: of each kind of call that a run makes, which blocks the disk may
//! hold behind it, which are known, and what is counted.
//!
//! It has definitions and proofs alone, of any words and disks, and knows no machine. A law of runs stands on its
//! lemmas: it follows a run call by call, and no lemma of its own looks into the log again.
#![tactic(auto)]

ghost use Rattle.std.specs.Prelude.{◌≡◌, ℕ, ◌<◌, ◌≤◌, ◌==◌, max, Bool, true, false, List, [], ◌∷◌, ◌++◌, length, drop, Some, None, ◌⊎◌};
ghost use Rattle.units.specs.declared.bounds.TheConstants.{METADATA_SECTORS};
ghost use Rattle.device_log.specs.Log.{Call, What, Sync};
ghost use Rattle.array_model.specs.declared.journal.Entry.{Entry};
ghost use Rattle.array_model.specs.Blocks.{Laid, Words, is_container};
ghost use Rattle.array_model.specs.Start.{Disks, Start};
ghost use Rattle.array_model.specs.Candidates.{Disk, In, disk_called, disk_after, opened, writes, mark};
ghost use Rattle.array_model.specs.Moments.{AllBelow};
ghost use Rattle.array_model.specs.Rounds.{IsRound, IsFinished};
ghost use Rattle.array_disks.specs.Held.{IsPending, IsReady, IsStanding, IsWholeOn, IsSole, AccountForEnds};
ghost use Rattle.array_disks.specs.Calls.{call_on, after_call, RowCall, IsSettled, FitsEnd, extended_write, anchor_write, block_calls, RunCall};
ghost use Rattle.array_disks.specs.Brought.{brought_by, brought_to};
ghost use Rattle.array_disks.specs.Changes.{SameBlocks, Changes};
ghost use Rattle.array_disks.specs.Marks.{Raises};

/// A call is one step of the disk that it is made on, and changes nothing of another. At rows it leaves each disk's
/// blocks, unless it is a sync that goes through. Where candidates account for what stands at the end of each disk, as
/// they do at opening, they do behind any call of a run, and the call narrows them or adds one block to its disk.
pub fn what_a_call_changes()
    ensures here { (W : Words) (disks : Disks) (log : List Call) (call : Call) (d : ℕ)
        → disk_after W disks (log ++ call ∷ []) d ≡ disk_called W disks d (disk_after W disks log d) call }
    ensures elsewhere { (W : Words) (disks : Disks) (log : List Call) (call : Call) (d : ℕ)
        → (call.disk == d) ≡ false → disk_after W disks (log ++ call ∷ []) d ≡ disk_after W disks log d }
    ensures rows { (W : Words) (disks : Disks) (log : List Call) (d : ℕ) (what : What) (went : Bool)
        → RowCall (disks.sectors d) what → (IsSettled what went → ⊥)
        → (e : ℕ) → SameBlocks (disk_after W disks log e) (after_call W disks log d what went e) }
    ensures opened { (W : Words) (disks : Disks) → AccountForEnds W disks [] }
    ensures accounts { (W : Words) (disks : Disks) (log : List Call) (d : ℕ) (what : What) (went : Bool)
        → RunCall W (disks.sectors d) (disk_after W disks log d) what → AccountForEnds W disks log
        → AccountForEnds W disks (log ++ call_on d what went ∷ []) }
    ensures changes { (W : Words) (disks : Disks) (log : List Call) (d : ℕ) (what : What) (went : Bool)
        → RunCall W (disks.sectors d) (disk_after W disks log d) what → AccountForEnds W disks log
        → Changes W d (disk_after W disks log) (after_call W disks log d what went) }
{}

/// A block is written by its extended sectors, its anchor and a sync. Behind the first its extended sectors wait for
/// their anchor, and stand where all were stored. Behind the anchor the block is known and a candidate, the first of
/// either, whether the write went through or not; it stands where the anchor was stored. Behind the sync that goes
/// through it is the sole candidate, where it is whole, and its generation is counted, where it is a container's. Calls
/// at rows in between, of any disk, keep what the next of these calls waits for.
pub fn what_a_block_leaves()
    ensures pending { (W : Words) (disks : Disks) (log : List Call) (d : ℕ) (m : Laid) (stored : ℕ) (went : Bool)
        → METADATA_SECTORS ≤ disks.sectors d → FitsEnd W m
        → IsPending (after_call W disks log d (extended_write (disks.sectors d) m stored) went d) m }
    ensures ready { (W : Words) (disks : Disks) (log : List Call) (d : ℕ) (m : Laid) (stored : ℕ) (went : Bool)
        → METADATA_SECTORS ≤ disks.sectors d → FitsEnd W m → length m.extended ≤ stored
        → IsReady (disks.sectors d) (after_call W disks log d (extended_write (disks.sectors d) m stored) went d) m }
    ensures candidates { (W : Words) (disks : Disks) (log : List Call) (d : ℕ) (m : Laid) (stored : ℕ) (went : Bool)
        → METADATA_SECTORS ≤ disks.sectors d → FitsEnd W m → IsPending (disk_after W disks log d) m
        → (after_call W disks log d (anchor_write (disks.sectors d) m stored) went d).candidates
        ≡ m ∷ (disk_after W disks log d).candidates }
    ensures known { (W : Words) (disks : Disks) (log : List Call) (d : ℕ) (m : Laid) (stored : ℕ) (went : Bool)
        → METADATA_SECTORS ≤ disks.sectors d → FitsEnd W m → IsPending (disk_after W disks log d) m
        → (after_call W disks log d (anchor_write (disks.sectors d) m stored) went d).known
        ≡ m ∷ (disk_after W disks log d).known }
    ensures standing { (W : Words) (disks : Disks) (log : List Call) (d : ℕ) (m : Laid) (stored : ℕ) (went : Bool)
        → METADATA_SECTORS ≤ disks.sectors d → FitsEnd W m → 1 ≤ stored
        → IsReady (disks.sectors d) (disk_after W disks log d) m
        → IsStanding W (disks.sectors d) (after_call W disks log d (anchor_write (disks.sectors d) m stored) went d) m }
    ensures sole { (W : Words) (disks : Disks) (log : List Call) (d : ℕ) (m : Laid)
        → IsStanding W (disks.sectors d) (disk_after W disks log d) m → IsWholeOn W disks d m
        → IsSole (after_call W disks log d Sync true d) m }
    ensures counted { (W : Words) (disks : Disks) (log : List Call) (d : ℕ) (m : Laid)
        → IsStanding W (disks.sectors d) (disk_after W disks log d) m → IsWholeOn W disks d m
        → is_container W m ≡ true
        → (after_call W disks log d Sync true d).best ≡ max (disk_after W disks log d).best (W.generation m.anchor) }
    ensures all { (W : Words) (disks : Disks) (log : List Call) (d : ℕ) (m : Laid)
        → METADATA_SECTORS ≤ disks.sectors d → FitsEnd W m → IsWholeOn W disks d m
        → IsSole (disk_after W disks (log ++ block_calls d (disks.sectors d) m) d) m }
    ensures kept { (W : Words) (disks : Disks) (log : List Call) (d : ℕ) (what : What) (went : Bool) (e : ℕ) (m : Laid)
        → RowCall (disks.sectors d) what → METADATA_SECTORS ≤ disks.sectors e → FitsEnd W m
        → (IsReady (disks.sectors e) (disk_after W disks log e) m
        → IsReady (disks.sectors e) (after_call W disks log d what went e) m)
        × (IsStanding W (disks.sectors e) (disk_after W disks log e) m
        → IsStanding W (disks.sectors e) (after_call W disks log d what went e) m) }
{}

/// What is known of a disk is what was known at opening, and what the log wrote to it, and only grows. A longer log
/// writes the same, and the block that its last call completes: an anchor alone completes none that has extended
/// sectors, and each known block has as many as its anchor says. What a part of a log writes, the log writes.
pub fn what_is_known()
    ensures parts { (W : Words) (disks : Disks) (log : List Call) (d : ℕ)
        → (disk_after W disks log d).known ≡ writes W disks d log ++ (opened W disks d).known }
    ensures grows { (W : Words) (disks : Disks) (log more : List Call) (d : ℕ) (m : Laid)
        → In m (disk_after W disks log d).known → In m (disk_after W disks (log ++ more) d).known }
    ensures longer { (W : Words) (disks : Disks) (log : List Call) (call : Call) (d : ℕ)
        → writes W disks d (log ++ call ∷ [])
        ≡ brought_to W disks d (disk_after W disks log d).pend call ++ writes W disks d log }
    ensures sized { (W : Words) (disks : Disks) (log : List Call) (d : ℕ) (m : Laid)
        → In m (disk_after W disks log d).known → W.extra m.anchor ≡ length m.extended }
    ensures none { (W : Words) (n : ℕ) (m : Laid) (stored : ℕ) → METADATA_SECTORS ≤ n → FitsEnd W m
        → (m.extended ≡ [] → ⊥) → brought_by W n [] (anchor_write n m stored) ≡ [] }
    ensures since { (W : Words) (disks : Disks) (log : List Call) (stamp d : ℕ) (m : Laid)
        → In m (writes W disks d (drop stamp log)) → In m (writes W disks d log) }
{}

/// The best generation of a disk never falls, nor does the mark. Only a sync that goes through raises the mark: it
/// finds a known block of a container standing, whole, of just the generation that is then the mark.
pub fn what_is_counted()
    ensures best { (W : Words) (disks : Disks) (log more : List Call) (d : ℕ)
        → (disk_after W disks log d).best ≤ (disk_after W disks (log ++ more) d).best }
    ensures grows { (W : Words) (disks : Disks) (log more : List Call)
        → mark W disks log ≤ mark W disks (log ++ more) }
    ensures raised { (W : Words) (disks : Disks) (log : List Call) (d : ℕ) (what : What) (went : Bool)
        → mark W disks log < mark W disks (log ++ call_on d what went ∷ [])
        → (d < disks.count)
        × Raises W disks d (disk_after W disks log d) what went (mark W disks (log ++ call_on d what went ∷ [])) }
{}

/// A block of a round is known on some disk. A longer log keeps the blocks of a round, and of the last finished round;
/// with one call more they are those, and the block that the call completes. A round that begins now has none.
pub fn what_rounds_keep()
    ensures known { (start : Start) (log : List Call) (stamp g : ℕ) (m : Laid) → IsRound start log stamp g m
        → (d : ℕ) × In m (disk_after start.words start.disks log d).known }
    ensures more { (start : Start) (log more : List Call) (stamp g : ℕ) (m : Laid) → stamp ≤ length log
        → IsRound start log stamp g m → IsRound start (log ++ more) stamp g m }
    ensures finished { (start : Start) (log more : List Call) (journal : List Entry) (m : Laid)
        → AllBelow (length log) journal → IsFinished start log journal m → IsFinished start (log ++ more) journal m }
    ensures fresh { (start : Start) (log : List Call) (g : ℕ) (m : Laid) → IsRound start log (length log) g m → ⊥ }
{}
