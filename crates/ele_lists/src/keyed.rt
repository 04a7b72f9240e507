//! Rows that have a numeric key.
//! A contract sees the key.
ghost use Rattle.std.specs.Prelude.{◌≡◌};

/// A row that a list orders and finds by a number.
pub trait Keyed {
    ghost use Rattle.std.specs.Prelude.{ℕ};

    ghost key: { Self → ℕ };

    /// Returns the row's number.
    fn key(&self) -> u64
        ensures { result ≡ key self.now };
}
