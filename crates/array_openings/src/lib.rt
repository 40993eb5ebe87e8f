//! What laws over runs take as given is met by real disks: by the bytes of real blocks, the edits of `array_edits`, and
//! disks whose serials are their own. Where such disks hold a container it opens; so do banks over which a container was
//! made, also after edits of its block, and their volumes are as the laws on rows, checkpoints and rest ask for them.
//!
//! The functions have the facts as their contracts and nothing to run.
#![tactic(auto)]

mod law;
mod worked;

pub use law::{
    containers_at_rest_open, new_and_edited_containers_rest, new_and_edited_volumes_are_sound,
    real_containers_open, real_disks_meet_the_premises, real_edits_keep_units,
    sound_volumes_meet_laws_on_rows, sound_volumes_open, spare_blocks_are_whole,
};
pub use worked::{
    example_of_a_degraded_mirror, example_of_a_spare, example_of_an_extended_block,
    example_of_an_unfinished_volume, example_of_refused_settings, example_of_two_volumes,
};
