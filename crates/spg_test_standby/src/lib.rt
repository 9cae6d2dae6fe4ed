//! Tests of an index whose searches a standby answers.
#![tactic(auto)]

#[cfg(test)]
mod holding;
#[cfg(test)]
mod pages;
#[cfg(test)]
mod pairs;
#[cfg(test)]
mod paused;
#[cfg(test)]
mod scans;
#[cfg(test)]
mod writes;
