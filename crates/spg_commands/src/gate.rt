use spg_script::BadLine;
use std::sync::Wait;

/// What watches a run: lanes ask it before their commands, and it is told how far the run has come.
pub trait Gate: Sync {
    /// The lane, counted from 0, is about to begin this command of its own, counted from 0. It may wait.
    fn at<R: Wait>(&self, rt: &R, lane: u8, command: u32);

    /// The script is bad at this line.
    fn bad_line(&self, _line: &BadLine<'_>) {}

    /// So many commands of so many were done. It is told so before each block, and behind the last.
    fn done(&self, _count: usize, _of: usize) {}
}
