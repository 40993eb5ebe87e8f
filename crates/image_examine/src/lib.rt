//! The command `examine` on a bank: what is found on its one disk is printed.
//!
//! It owes the text and the status of what stands there, both ways where the bank tells it; that nothing but reads is
//! done, and none twice; and that `unread` is said exactly where a read failed. `image_run` stands on it.
#![tactic(auto)]

mod examining;
mod text;

pub use examining::examine;
