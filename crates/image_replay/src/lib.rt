//! A replay: the script's reads and writes on the volume of a bank, and the lines that tell of them.
//!
//! It owes that lines spell one journal, and that journal and log keep the laws of `stage_law`, behind one read of
//! each anchor; that each status has its cause; and that no run is made and no disk written where the volume doesn't
//! start. `image_run` stands on it.
#![tactic(auto)]

mod lines;
mod replays;
mod runs;

pub use replays::replay;
pub use runs::{Finished, run};
