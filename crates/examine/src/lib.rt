//! What a metadata block says, as text: its header, its disk records, its volumes with their maps and entries.
//!
//! It owes that the text is the function of the block's parts that `specs/` defines, each field as it stands and
//! nothing else; memory is its only fault. `image_examine` stands on it.
#![tactic(auto)]

mod disks;
mod header;
mod maps;
mod text;
mod volumes;

pub use text::{ExamineFault, examine_text};
