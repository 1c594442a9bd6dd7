// The reading of a title: how it opens, what came for each of its rows, and the streams that a program reads and prints by.
#![tactic(auto)]

pub mod opening;
pub mod row_bytes;
pub mod streams;

// The most rows of a title that a program reads.
pub const MOST_ROWS: u64 = 4294967295;
