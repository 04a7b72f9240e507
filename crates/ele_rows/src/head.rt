//! Heads: the two numbers by which rows are found.
//! A contract sees both numbers of a row.

/// What a search compares of a row. From row to row keys rise, and ranks don't fall.
#[derive(Clone, Copy)]
pub struct Head {
    /// The number of this row alone.
    pub key: u64,
    /// A second number, which other rows may have too.
    pub rank: u64,
}

/// A row that has a head.
pub trait Headed {
    ghost use Rattle.std.specs.Prelude.{◌≡◌};
    ghost use Rattle.ele_rows.specs.declared.head.Head.{Head};

    ghost head: { Self → Head };

    /// Returns the row's head.
    fn head(&self) -> Head
        ensures { result ≡ head self.now };
}
