//! Typed views of the volumes of a metadata block: what is supported of a volume, how it lies on its members, and
//! which of them are in sync.
//!
//! It owes that a view is there exactly where the volume is supported, that an error is the first of its faults, and
//! that a view answers the words that `imsm_base` defines.
//!
//! `volume_verdict` and `imsm_edit` ask views; `new_container` uses the count of rows alone.
#![tactic(auto)]

mod fault;
mod geometry;
mod kind;
mod law;
mod overlap;
mod questions;
mod slot;
mod view;
mod volume;

pub use fault::VolumeFault;
pub use geometry::rows_of;
pub use law::views_have_words;
pub use view::volume_of;
pub use volume::{SlotView, Volume};
