//! What a stage is opened with.
ghost use Rattle.std.specs.Prelude.{◌≤◌, ◌<◌, List, length};
ghost use Rattle.units.specs.declared.disk.Sector.{Sector as SectorBytes};
ghost use Rattle.imsm_codec.specs.Mpb.{block_bytes};
ghost use Rattle.block_meaning.specs.Reading.{block_words};
ghost use Rattle.control_state.specs.Book.{IsBook, IsBlockOf};
ghost use Rattle.control_state.specs.Seen.{numbers};
ghost use Rattle.first_opening.specs.Opened.{IsOpening};
ghost use Rattle.stage.specs.Runs.{FitsDisks};
ghost use Rattle.image_verdict.specs.Images.{StandIn, sizes_of_all};
ghost use Rattle.image_start.specs.Starts.{AreDistinct, IsStarted};
ghost use Rattle.image_start.specs.Openings.{IsMirrorShape, Opens, first_shape, opened_on};

use crate::block::{first_anchor, first_block};
use crate::disks::{members_of, targets_of};
use image_verdict::ImageRead;
use stage::Opening;
use units::{MAX_DISKS, VolNo};

/// What a stage over the bank of these images is opened with, where their volume starts. It takes no memory.
pub fn opening_of(images: &[ImageRead]) -> Opening<'_>
    requires some { 1 ≤ length images.now }
    requires few { length images.now ≤ MAX_DISKS }
    requires distinct { AreDistinct images.now }
    requires started { IsStarted images.now }
    // It says what the laws take of the bank, whatever else its disks hold.
    ensures opens { (contents : List (List SectorBytes)) → Opens result (opened_on images.now contents) }
    // A stage opens with it.
    ensures book { IsBook (block_bytes result.block) }
    ensures newest { IsBlockOf result.newest (block_bytes result.block) }
    ensures generation { block_words.generation result.newest < 0xff000000 }
    ensures disks { FitsDisks (numbers result.targets.items) (numbers result.members.items)
        result.pba result.size (sizes_of_all images.now) }
    // The laws begin with it, over disks on which the anchors stand, of which there are some.
    ensures opening { (contents : List (List SectorBytes)) → StandIn images.now contents
        → IsOpening (opened_on images.now contents) }
    ensures stands { (contents : List (List SectorBytes)) × StandIn images.now contents }
    ensures shape { (contents : List (List SectorBytes)) → IsMirrorShape (first_shape (opened_on images.now contents)) }
{
    // The volume ends within the first disk, whose size fits its type.
    let _sectors = images[0].sectors;
    let block = first_block(images);
    let pba = block.map_pba(VolNo(0), 0);
    let size = block.vol_size(VolNo(0));
    Opening {
        block,
        newest: *first_anchor(images),
        targets: targets_of(images),
        members: members_of(images, &block),
        pba,
        size,
    }
}
