//! The kinds of words after a command. A contract sees a kind as itself.

/// What a word after a command means.
#[derive(Clone, Copy, PartialEq, Eq)]
pub enum WordKind {
    /// A number.
    Number,
    /// The number of a handle.
    Handle,
    /// The number of a version.
    Version,
    /// A moment.
    Moment,
    /// The moment at which a mark ends. This word may be left out.
    End,
    /// The name of a group.
    Name,
    /// A path.
    Path,
    /// A path with a tag.
    Tagged,
    /// A path at a moment.
    Timed,
    /// What a read reads: a path with a tag, or a handle.
    Source,
    /// Bytes.
    Bytes,
    /// A policy.
    Policy,
}
