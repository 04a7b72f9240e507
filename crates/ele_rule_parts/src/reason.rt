//! Why a rule keeps a row. A contract sees a reason as plain data.
use crate::span::Span;

/// By what a part of a rule keeps a row.
#[derive(Clone, Copy)]
pub enum By {
    /// It is among the newest of those that the part takes.
    Count,
    /// It is within the length of time.
    Age,
    /// It is the oldest row.
    Oldest,
    /// It isn't one that the tool removes.
    Other,
}

/// Why a rule keeps a row: the span of the part that does, by what, and as which of those that the part counts, from 1
/// for the newest.
#[derive(Clone, Copy)]
pub struct Reason {
    pub span: Span,
    pub by: By,
    pub number: u64,
}
