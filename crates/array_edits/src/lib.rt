//! The edits of a metadata block as a run makes them, from bytes to bytes, and what they mean.
//!
//! It owes that each edit does to the words of a block what `array_machine` takes it to do, on blocks of a form that
//! edits keep; that an edited block is whole again on each disk that it expects; and that the blocks of new containers
//! have this form. It has proofs alone.
//!
//! It is where the laws of a run, which know edits by their meaning, meet `imsm_edit` and `imsm_buffer`.
#![tactic(auto)]

mod created;
mod examples;
mod law;

pub use created::{created_blocks_are_formed, settings_of_new_containers_are_real};
pub use examples::{
    example_of_a_degraded_container, example_of_a_rebuild_of_another_system,
    example_of_a_replaced_disk, example_of_an_unfinished_container,
};
pub use law::{edited_blocks_are_whole, facts_are_of_the_block, real_edits_mean};
