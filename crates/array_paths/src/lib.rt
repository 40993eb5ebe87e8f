//! What a law sees of a turn: its effects, each a change with the call that goes with it, and why it may come. Laws follow
//! a run effect by effect, and never look at a turn.
#![tactic(auto)]
