//! The machine of a run: what each actor's turn does to the control state of a container of any level, with failures,
//! passes, updates, kills and takeovers. Definitions alone: code and laws stand on it.
#![tactic(auto)]
