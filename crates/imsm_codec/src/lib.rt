//! Metadata blocks as they are read: the check of a block's bytes, and the readers of its fields.
//!
//! It owes that `check` answers Ok exactly where the bytes begin with a whole block, and else the first condition that
//! fails; that each reader gives the field that the definitions of `imsm_base` name; and that whole disks and the
//! first form are recognised, both ways. It takes no memory.
//!
//! Views (`imsm_view`), owned blocks (`imsm_buffer`), what is found on a disk (`mpb_store`), the report on images
//! (`image_verdict`) and what a stage is opened with (`image_start`) stand on it.
#![tactic(auto)]

mod bytes;
mod checks;
mod disk;
mod fault;
mod first_form;
mod header;
mod law;
mod layout;
mod map;
mod mpb;
mod record;
mod tail;
mod volume;
mod whole_disk;
mod words;

pub use bytes::{behind, get_u8};
pub use checks::{check, sum_of};
pub use disk::DISK_BYTES;
pub use fault::MpbFault;
pub use first_form::is_first_form;
pub use law::views_are_spelled;
pub use layout::{MAP_BYTES, VOLUME_BYTES, map_len};
pub use mpb::MpbRef;
pub use volume::volume_from;
pub use whole_disk::{is_whole_disk, own_record};
