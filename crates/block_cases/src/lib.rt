//! Worked cases of metadata blocks: verdicts on a container by what was seen of its disks, and marks of a volume.
#![tactic(auto)]

#[cfg(test)]
mod assembling;
#[cfg(test)]
mod marking;
#[cfg(test)]
mod mirror;
