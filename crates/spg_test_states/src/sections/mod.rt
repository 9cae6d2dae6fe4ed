//! Sections over pages that stand already, at a limit and a moment of the clock: a chain that moves, and an
//! inner tuple that has no room for one more node.

mod answers;
mod clock;
mod driver;
mod moments;
mod shifts;
mod texts;
mod wide;
