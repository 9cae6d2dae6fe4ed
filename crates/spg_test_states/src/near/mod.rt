//! Searches for the nearest rows, while another seat works between the reads.

mod cases;
mod lines;
mod nearest;
mod others;
mod plain;
mod turns;
