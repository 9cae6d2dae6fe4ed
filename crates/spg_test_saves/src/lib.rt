//! Tests of runs over images: of saved indexes that a later run checks, goes on from, or builds and follows
//! at once, of value classes and ranges that come back, and of runs whose reads, writes and images fail.
#![tactic(auto)]

#[cfg(test)]
mod builds;
#[cfg(test)]
mod checks;
#[cfg(test)]
mod faults;
#[cfg(test)]
mod images;
#[cfg(test)]
mod ranges;
#[cfg(test)]
mod standbys;
#[cfg(test)]
mod values;
