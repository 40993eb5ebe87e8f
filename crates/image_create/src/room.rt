//! Whether disks have room for rows and metadata.
ghost use Rattle.std.specs.Prelude.{◌≡◌, ◌+◌, ◌≤◌, ◌↔◌, All, IsTrue, MatchOption};
ghost use Rattle.units.specs.declared.bounds.TheConstants.{METADATA_SECTORS as METADATA};
ghost use Rattle.image_create.specs.Room.{IsFirstBelow};

use member_bank::Bank;
use units::{DiskNo, METADATA_SECTORS};

/// Whether so many sectors are enough for rows and metadata.
fn has_room(sectors: u64, rows: u64) -> bool
    ensures { IsTrue result ↔ (rows + METADATA ≤ sectors) }
{
    sectors >= METADATA_SECTORS && sectors - METADATA_SECTORS >= rows
}

/// The first disk, in the order of their numbers, that has fewer than `rows` and 18 sectors. No call on a disk is made.
pub(crate) fn first_small<B: Bank>(bank: &B, rows: u64) -> Option<DiskNo>
    ensures { MatchOption result (All (λ n. rows + METADATA ≤ n) (B.sizes bank.now))
        (λ d. IsFirstBelow (rows + METADATA) (B.sizes bank.now) d.0) }
{
    for d in 0..bank.disks() {
        let disk = DiskNo(d);
        if !has_room(bank.sectors(disk), rows) {
            return Some(disk);
        }
    }
    None
}
