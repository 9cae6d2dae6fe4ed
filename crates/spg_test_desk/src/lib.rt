//! Tests of an index that threads share: what each call tells, the journal that comes of five threads, 64
//! seats that each do every call, rows that are nearest, a class that answers one thread only once another has
//! gone on, and the class that an index and a desk have.
#![tactic(auto)]

#[cfg(test)]
mod calls;
#[cfg(test)]
mod classes;
#[cfg(test)]
mod in_place;
#[cfg(test)]
mod many;
#[cfg(test)]
mod nearest;
#[cfg(test)]
mod outside;
#[cfg(test)]
mod shared;
#[cfg(test)]
mod threads;
#[cfg(test)]
mod watched;
