//! Tests of runs whose lanes share an index, of their gates, and of scripts beyond the sizes that a run
//! could be held to: lanes, groups, lines, letters of a comment, blocks of a chain.
#![tactic(auto)]

#[cfg(test)]
mod gates;
#[cfg(test)]
mod lanes;
#[cfg(test)]
mod limits;
#[cfg(test)]
mod long_texts;
