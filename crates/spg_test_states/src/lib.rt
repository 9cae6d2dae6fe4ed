//! Tests of states that are made for them: a small one that meets what a state keeps while an insert, a scan
//! and a vacuum are under way; sections over pages that stand already; and searches for the nearest rows,
//! while another seat works between the reads.
#![tactic(auto)]

#[cfg(test)]
mod near;
#[cfg(test)]
mod sections;
#[cfg(test)]
mod small;
