//! Worked runs on mirrors without a failure.
ghost use Rattle.std.specs.Prelude.{◌≡◌, [], ◌∷◌};
ghost use Rattle.array_model.specs.Script.{sector_of};
ghost use Rattle.array_model.specs.Small.{puts, syncs};
ghost use Rattle.array_model.specs.declared.journal.Event.TheVariants.{Begin, End, Ready, Active, Clean, Submit, Pending, Ack, Idle};
ghost use Rattle.array_model.specs.declared.journal.Answer.TheVariants.{Done, Value, Past};
ghost use Rattle.array_rows.specs.Runs.{shown, log_of, unbounded, stopping, done, stopped};
ghost use Rattle.array_rows.specs.Containers.{mirror, of_generation};
ghost use Rattle.array_rows.specs.Scripts.{with_ops, writes, reads, at, volume, anchor_of};

/// One write and one read on a mirror: a round makes the volume dirty before the write, and one makes it clean once
/// nobody writes any more.
pub fn one_write_and_one_read()
    ensures journal { shown (with_ops (writes 0 0 5 ∷ reads 0 0 5 ∷ []) (mirror 1024)) unbounded []
        ≡ done (
        at 0 (Begin 2) ∷ at 4 (End 2) ∷ at 4 (Ready (volume 0)) ∷ at 4 (Submit 0) ∷ at 4 (Pending (volume 0))
        ∷ at 4 (Begin 3) ∷ at 8 (End 3) ∷ at 8 (Active (volume 0)) ∷ at 12 (Ack 0 Done) ∷ at 12 (Submit 1)
        ∷ at 13 (Ack 1 (Value (sector_of 0x1122334455667788))) ∷ at 13 (Idle (volume 0)) ∷ at 13 (Clean (volume 0))
        ∷ at 13 (Begin 4) ∷ at 17 (End 4) ∷ []) }
{}

/// With nothing asked there is one round, which starts the volume.
pub fn nothing_to_do()
    ensures journal { shown (mirror 1024) unbounded []
        ≡ done (
        at 0 (Begin 2) ∷ at 4 (End 2) ∷ at 4 (Ready (volume 0)) ∷ []) }
{}

/// A stop behind the first member's sync: the first disk has the round's block, the second was never written.
pub fn a_stop_between_the_members()
    ensures journal { shown (mirror 1024) (stopping 2) []
        ≡ stopped (
        at 0 (Begin 2) ∷ []) }
    ensures log { log_of (mirror 1024) (stopping 2) []
        ≡ puts 0 4094 (anchor_of (of_generation 2 (mirror 1024).block)) ∷ syncs 0 ∷ [] }
{}

/// The last sector of a volume is written; one past it isn't there.
pub fn a_sector_past_the_end()
    ensures journal { shown (with_ops (writes 0 0 1023 ∷ reads 0 0 1024 ∷ []) (mirror 1024)) unbounded []
        ≡ done (
        at 0 (Begin 2) ∷ at 4 (End 2) ∷ at 4 (Ready (volume 0)) ∷ at 4 (Submit 0) ∷ at 4 (Pending (volume 0))
        ∷ at 4 (Begin 3) ∷ at 8 (End 3) ∷ at 8 (Active (volume 0)) ∷ at 12 (Ack 0 Done) ∷ at 12 (Submit 1)
        ∷ at 12 (Ack 1 Past) ∷ at 12 (Idle (volume 0)) ∷ at 12 (Clean (volume 0)) ∷ at 12 (Begin 4) ∷ at 16 (End 4)
        ∷ []) }
{}
