//! A vacuum beside inserts that move and divide the chains which it still has to see, over pages that stand
//! already.

mod moves;
mod pages;
mod places;
mod steps;
