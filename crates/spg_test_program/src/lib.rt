//! Tests of whole runs of the program: scripts in, their printed texts out. For other tests: runs over calls
//! that fail or do not, with how each ended and what it wrote, and the lines of scripts and texts.
#![tactic(auto)]

#[cfg(test)]
mod every_line;
#[cfg(test)]
mod loads;
mod program;
#[cfg(test)]
mod rounds;
#[cfg(test)]
mod rows;
#[cfg(test)]
mod scripts;
#[cfg(test)]
mod watching;
#[cfg(test)]
mod words;

pub use program::{
    Ended, Fails, Open, are_lines, done, done_over, ends, is_line, joined, no_fails, push_insert,
    push_numbered, ran, ran_by, ran_over, run_word, writes,
};
