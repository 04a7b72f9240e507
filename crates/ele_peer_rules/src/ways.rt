//! As what tools count. A contract sees the ways of a tool as plain data.

/// Which rows a part of a rule takes.
#[derive(Clone, Copy)]
pub enum Take {
    /// The newest row of each span.
    Newest,
    /// The first row of each span.
    First,
    /// The rows whose names tell the span. The tool removes no others, and no young ones.
    Named,
}

/// Which parts keep the oldest row, though they don't take it.
#[derive(Clone, Copy)]
pub enum OldestKept {
    Always,
    /// Those that keep a number of rows.
    ByNumber,
    Never,
}

/// From when a length of time reaches back.
#[derive(Clone, Copy)]
pub enum Back {
    FromNewest,
    FromNow,
}

/// As what a tool counts that marks rows by one part of its rule after another.
#[derive(Clone, Copy)]
pub struct Ways {
    pub take: Take,
    /// Whether a part also counts rows that a part before it keeps.
    pub counts_kept: bool,
    pub oldest: OldestKept,
    pub back: Back,
}
