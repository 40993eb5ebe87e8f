//! A worked run of the machine.
ghost use Rattle.std.specs.Prelude.{◌≡◌};
ghost use Rattle.array_model.specs.Small.{worked_log, worked_journal};
ghost use Rattle.array_model.specs.Renewal.{IsRenewable};
ghost use Rattle.stage_machine.specs.Machine.{run, begins_at};
ghost use Rattle.stage_machine.specs.Opens.{AsksFirst, StandsOnAll, IsFirstVolume, StartsFirstAlone, HoldsContent};
ghost use Rattle.stage_machine.specs.Setting.{Renews};
ghost use Rattle.stage_machine.specs.Worked.{small_setting, the_turns};

/// One write and one read: the machine makes these calls and enters this journal.
pub fn one_write_and_one_read()
    ensures calls { (run small_setting (begins_at small_setting) the_turns).log ≡ worked_log }
    ensures journal { (run small_setting (begins_at small_setting) the_turns).journal ≡ worked_journal }
{}

/// The opening of the worked run meets what the laws take as given, and its newest block is one that a round may be
/// edited from.
pub fn the_worked_setting_opens()
    ensures asks { AsksFirst small_setting }
    ensures renews { Renews small_setting }
    ensures renewable { IsRenewable small_setting.start.words small_setting.start.newest }
    ensures stands { StandsOnAll small_setting }
    ensures volume { IsFirstVolume small_setting }
    ensures alone { StartsFirstAlone small_setting }
    ensures content { HoldsContent small_setting }
{}
