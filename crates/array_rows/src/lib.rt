//! Worked runs of the machine over small settings: what is asked, which calls fail, and the journal that comes of it.
//! Each is computed, and shows what its name says. `specs/` has the settings, and the drain that ends each run.
#![tactic(auto)]

mod failures;
mod mirrors;
mod parity;
mod passes;
mod spares;
mod takeovers;
mod two_volumes;
mod updates;

pub use failures::{
    a_member_fails_during_a_write, both_members_fail, no_spare_comes, the_first_call_fails,
};
pub use mirrors::{
    a_sector_past_the_end, a_stop_between_the_members, nothing_to_do, one_write_and_one_read,
};
pub use parity::{
    a_degraded_write_is_cut_off, a_disk_that_counts_out, a_failure_before_the_first_round_ends,
    a_write_with_parity, where_sectors_lie,
};
pub use passes::{
    a_checkpoint_is_recorded, a_dirty_stop_resyncs_from_row_0,
    an_unfinished_volume_that_loses_a_disk,
};
pub use spares::{
    a_spare_is_rebuilt, an_activated_spare_is_written_last, an_activation_is_cut_off,
};
pub use takeovers::{a_begun_generation_is_not_used_again, a_torn_block_is_no_metadata};
pub use two_volumes::{
    a_stop_behind_an_extended_sector, a_volume_that_is_not_known, a_write_to_each_volume,
};
pub use updates::{a_disk_becomes_a_spare, a_member_is_not_removed, a_volume_is_renamed};
