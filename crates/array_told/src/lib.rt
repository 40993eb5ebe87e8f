//! What the journal of a run tells of its control state, effect by effect; and what holds at each moment of a run.
#![tactic(auto)]
