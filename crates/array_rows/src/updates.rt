//! Worked runs with updates that are asked for.
ghost use Rattle.std.specs.Prelude.{◌≡◌, [], ◌∷◌};
ghost use Rattle.array_model.specs.declared.script.Ask.TheVariants.{Add, Rename, Remove};
ghost use Rattle.array_model.specs.declared.journal.Event.TheVariants.{Begin, End, Spare, Ready, Posted, Applied, Declined};
ghost use Rattle.array_model.specs.declared.journal.DeclinedKind.TheVariants.{NotFailed};
ghost use Rattle.array_rows.specs.Runs.{shown, unbounded, done};
ghost use Rattle.array_rows.specs.Containers.{mirror, of_generation, each_with, named, data_name};
ghost use Rattle.array_rows.specs.Scripts.{with_asks, with_disk, at, volume, disk, anchor_of, anchor_left};

/// A volume gets a name: the update is posted while the first round goes on, and a round of its own writes it.
pub fn a_volume_is_renamed()
    ensures journal { shown (with_asks (Rename 0 data_name ∷ []) (mirror 1024)) unbounded []
        ≡ done (
        at 0 (Begin 2) ∷ at 0 (Posted 0) ∷ at 4 (End 2) ∷ at 4 (Ready (volume 0)) ∷ at 4 (Applied 0)
        ∷ at 4 (Begin 3) ∷ at 8 (End 3) ∷ []) }
    ensures name { anchor_left (with_asks (Rename 0 data_name ∷ []) (mirror 1024)) unbounded [] 0
        ≡ anchor_of (of_generation 3 (each_with (named data_name) (mirror 1024).block)) }
{}

/// The record of a disk that didn't fail isn't removed.
pub fn a_member_is_not_removed()
    ensures journal { shown (with_asks (Remove 0 ∷ []) (mirror 1024)) unbounded []
        ≡ done (
        at 0 (Begin 2) ∷ at 0 (Posted 0) ∷ at 4 (End 2) ∷ at 4 (Ready (volume 0)) ∷ at 4 (Declined 0 NotFailed) ∷ []) }
{}

/// A blank disk gets a spare's block, without a round.
pub fn a_disk_becomes_a_spare()
    ensures journal { shown (with_asks (Add 2 ∷ []) (with_disk (mirror 1024))) unbounded []
        ≡ done (
        at 0 (Begin 2) ∷ at 0 (Posted 0) ∷ at 4 (End 2) ∷ at 4 (Ready (volume 0)) ∷ at 4 (Applied 0)
        ∷ at 6 (Spare (disk 2)) ∷ []) }
{}
