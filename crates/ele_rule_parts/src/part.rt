//! Parts of a rule, and their limits. A contract sees both as plain data.
use crate::span::Span;

/// A length of time: calendar months, and seconds.
#[derive(Clone, Copy)]
pub struct Reach {
    pub months: u64,
    pub seconds: u64,
}

/// How many rows are kept: so many, all, or those of a length of time. The last two limits are those of btrbk alone, which
/// counts spans from now back.
#[derive(Clone, Copy, Default)]
pub enum Limit {
    Number(u64),
    #[default]
    All,
    Within(Reach),
    /// All rows of the last spans, from now up to so many ago.
    Ago(u64),
    /// No row, but where the spans begin: the hour at which days do, or the day on which weeks do, from 0 for Sunday.
    Begin(u64),
}

/// An option of a rule: of the rows that its tool takes of each span, those within the limit are kept.
#[derive(Clone, Copy, Default)]
pub struct Part {
    pub span: Span,
    pub limit: Limit,
}
