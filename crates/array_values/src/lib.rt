//! What reads give, at levels one and ten: lemmas for the law that each read of a started volume gives what was
//! written.
//!
//! It holds the law as a definition, what it takes as given of the opening, and the invariant on rows: the slots of a
//! row that count agree with what was acknowledged, or with what is being written. Shown is that failures, moves of
//! clients with and without calls, and moves of passes with and without calls keep it; that all changes of a run do, and
//! the law itself, are still to come.
#![tactic(auto)]
