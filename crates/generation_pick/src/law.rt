//! A law on picks.
ghost use Rattle.std.specs.Prelude.{◌≡◌, List};
ghost use Rattle.generation_pick.specs.Picks.{HasPickFault, IsPicked};
ghost use Rattle.generation_pick.specs.declared.fault.PickFault.{PickFault as Fault};
ghost use Rattle.generation_pick.specs.declared.found.FoundAt.{FoundAt as Found};
ghost use Rattle.generation_pick.specs.declared.found.Pick.{Pick as Picked};

/// A list has at most one pick or fault.
pub fn picks_and_faults_exclude_one_another()
    ensures picks { (list : List Found) (p q : Picked) → IsPicked list p → IsPicked list q → p ≡ q }
    ensures faults { (list : List Found) (f g : Fault) → HasPickFault list f → HasPickFault list g → f ≡ g }
    ensures both { (list : List Found) (p : Picked) (f : Fault) → IsPicked list p → HasPickFault list f → ⊥ }
{}
