//! The end of a run without a fault.
//! A contract sees the number of lines, the line that ended a strict run, if one did, and the tally.
use crate::line_buffer::LineBuffer;
use crate::tally::Tally;

/// The end of a run without a fault.
#[derive(Drop)]
pub struct RunEnd {
    /// The number of lines, until the one that ended the run. A last line without its line feed
    /// counts too.
    pub lines: u64,
    /// The line that ended a strict run, if one did.
    pub ended_by: Option<EndLine>,
    /// The number of lines that were not answered by `ok`, and the first of them.
    pub tally: Tally,
}

/// The line that ended a strict run: it was answered `no`, `bad` or `stop`.
#[derive(Drop)]
pub struct EndLine {
    /// The line, unless it is too long.
    pub line: LineBuffer,
    /// Whether it is a last line without its line feed, which is never run.
    pub is_cut: bool,
}
