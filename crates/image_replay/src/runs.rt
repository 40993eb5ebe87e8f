//! A run of a script, from its opening to its end.
ghost use Rattle.std.specs.Prelude.{◌≡◌, ◌≤◌, ◌^◌, true, List, IfOk, IfErr};
ghost use Rattle.std.specs.List.{list_all};
ghost use Rattle.units.specs.declared.disk.Sector.{Sector};
ghost use Rattle.member_bank.specs.Told.{Keeps};
ghost use Rattle.array_model.specs.Kept.{asked_by};
ghost use Rattle.first_opening.specs.Opened.{is_first_op};
ghost use Rattle.stage.specs.Drives.{Follows, EndsBy, AllStill};
ghost use Rattle.stage.specs.Causes.{KeepsBank};
ghost use Rattle.stage.specs.declared.ends.DriveEnd.TheVariants.{Over};
ghost use Rattle.stage_law.specs.Runs.{AsksRows};
ghost use Rattle.image_outside.specs.Told.{bank_told};
ghost use Rattle.image_verdict.specs.Images.{anchor_reads, HasReadAnchors, IsFoundOn, StandIn};
ghost use Rattle.image_start.specs.Starts.{Starts};
ghost use Rattle.image_start.specs.Openings.{opened_on};
ghost use Rattle.image_replay.specs.Runs.{LeavesRun};

use array_model::{Journal, Script, Turn};
use image_start::opening_of;
use image_verdict::ImageRead;
use member_bank::Bank;
use stage::{DriveEnd, Stage, StageFault};
use stage_law::finish;
use std::alloc::Global;

/// What a run leaves: the bank, the journal, and why it ended.
#[derive(Drop)]
pub struct Finished<B: Bank> {
    pub bank: B,
    pub journal: Journal,
    pub end: DriveEnd,
}

/// Makes the turns of a script, and then drains.
fn run_out<B: Bank>(stage: &mut Stage<B>, turns: &[Turn]) -> DriveEnd
    ensures follows { Follows stage.old stage.new }
    ensures opening { Keeps (B.opening stage.old.bank) (B.opening stage.new.bank) }
    ensures bank { KeepsBank B.serials B.sizes B.log B.faults_of stage.old stage.new }
    ensures ends { EndsBy stage.new result }
    ensures over { result ≡ Over → AllStill stage.new }
{
    match stage.drive(turns) {
        DriveEnd::Over => stage.drain(),
        end => end,
    }
}

/// Runs a script on the volume of a bank whose images start. Without memory the bank comes back as it was.
pub fn run<B: Bank>(
    alloc: Global,
    bank: B,
    images: &[ImageRead],
    script: &Script,
    limit: u32,
) -> Result<Finished<B>, (B, StageFault)>
    requires starts { Starts images.now }
    requires found { IsFoundOn (bank_told B.Bank bank) images.now }
    requires reads { HasReadAnchors (bank_told B.Bank bank) images.now }
    requires limit { limit ≤ 2 ^ 20 }
    requires rows { AsksRows script.now.ops }
    requires first { list_all is_first_op script.now.ops ≡ true }
    ensures run { IfOk result (λ r. (contents : List (List Sector)) → StandIn images.now contents
        → LeavesRun (opened_on images.now contents) (asked_by script.now) limit
        (anchor_reads images.now) (bank_told B.Bank r.bank) r.journal.entries r.end) }
    ensures found { IfOk result (λ r. IsFoundOn (bank_told B.Bank r.bank) images.now) }
    ensures same { IfOk result (λ r. B.serials r.bank ≡ B.serials bank) }
    ensures err { IfErr result (λ e. e.0 ≡ bank) }
{
    let mut stage = Stage::open(alloc, bank, opening_of(images), script, limit)?;
    let end = run_out(&mut stage, script.turns());
    let (bank, journal) = finish(stage);
    Ok(Finished { bank, journal, end })
}
