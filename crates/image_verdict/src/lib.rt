//! What a replay says of images before it runs: what is read of them, the report on them, and its text.
//!
//! It owes that each anchor is read once, in order, and nothing else; that an image counts as unread only where it is
//! too small or its count of faults rose; and the report of the definitions, both ways: not of the first form, disks
//! absent, or started. `image_start` and `image_replay` go on from it.
#![tactic(auto)]

mod images;
mod print;
mod report;
mod text;
mod verdict;

pub use images::{ImageRead, read_images};
pub use print::print_report;
pub use report::Report;
pub use text::text_of;
pub use verdict::report_on;
