//! Runs on the same disks in another order.
ghost use Rattle.std.specs.Prelude.{◌≡◌, ◌≢◌, ℕ, Bool, List};
ghost use Rattle.units.specs.declared.disk.Sector.{Sector};
ghost use Rattle.units.specs.declared.disk.Serial.{Serial};
ghost use Rattle.device_log.specs.Log.{Call};
ghost use Rattle.image_outside.specs.Told.{BankTold};
ghost use Rattle.image_assemble.specs.Endings.{Assembles};
ghost use Rattle.image_incremental.specs.Endings.{Arrives};
ghost use Rattle.refused_verdicts.specs.Arrivals.{late_says};
ghost use Rattle.refused_verdicts.specs.Told.{HaveSameDisks, Tells};
ghost use Rattle.refused_verdicts.specs.Wrong.{HasLine};

/// An assembly of the same disks in another order has the same status and the same lines, in whatever order, unless its
/// status is 3: a refusal may name what comes first. Where they arrive one after the other, and none comes too late in
/// either order, the statuses are the same too.
///
/// Where a disk comes too late, the order may decide: the container was opened by those that came before it.
pub fn the_order_of_words_is_lost()
    ensures assembled { (opening others : List (List Sector)) (log logs : List Call) (bank other : BankTold)
        (run : Bool) (lines more : List ℕ) (status another : ℕ) → Tells opening log bank → Tells others logs other
        → HaveSameDisks opening others bank other → Assembles run bank lines status
        → Assembles run other more another → status ≢ 3
        → (another ≡ status) × ((words : List (List ℕ)) → HasLine lines words → HasLine more words) }
    ensures arrived { (opening others : List (List Sector)) (log logs : List Call) (bank other : BankTold) (run : Bool)
        (lines more : List ℕ) (status another : ℕ) → Tells opening log bank → Tells others logs other
        → HaveSameDisks opening others bank other → Arrives run bank lines status → Arrives run other more another
        → ((s : Serial) → HasLine lines (late_says s) → ⊥) → ((s : Serial) → HasLine more (late_says s) → ⊥)
        → status ≢ 3 → another ≡ status }
{}
