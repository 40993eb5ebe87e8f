//! A worked run that comes to rest.
ghost use Rattle.std.specs.Prelude.{◌≡◌, None};
ghost use Rattle.stage_machine.specs.Machine.{Reached, run, begins_at};
ghost use Rattle.stage_machine.specs.Worked.{small_setting, the_turns};
ghost use Rattle.rest_law.specs.Rest.{CanEnd, IsAtRest};

/// The worked run of one write and one read rests at its end, and meets what the law takes as given.
pub fn the_worked_run_rests()
    ensures can_end { CanEnd small_setting }
    ensures reached { Reached small_setting (run small_setting (begins_at small_setting) the_turns) }
    ensures went { (run small_setting (begins_at small_setting) the_turns).control.failed ≡ None }
    ensures rests { IsAtRest small_setting (run small_setting (begins_at small_setting) the_turns).control }
{}
